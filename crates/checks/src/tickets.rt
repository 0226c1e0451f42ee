// Tickets: whether they rise from guest to guest, and whether two are the same.
ghost use Rattle.std.specs.Prelude.{◌<◌, false, ◌≡◌, length};
ghost use Rattle.model.specs.market.Faults.{repeats};
ghost use Rattle.checks.specs.Tickets.{rising as rising_of, stands_before, slot as slot_of, slots};

// Whether each is below the next. No way out before the end: several elements a step.
pub fn rising(tickets: &[u32]) -> bool
    ensures { result ≡ rising_of tickets.now }
{
    tickets.is_empty()
        || !tickets
            .iter()
            .zip(&tickets[1..])
            .fold(false, |falls, (x, y)| falls | (y <= x))
}

// Whether the ticket at k stands before k too. No way out before the end.
fn stands_before(tickets: &[u32], k: usize) -> bool
    requires { k < length tickets.now }
    ensures { result ≡ stands_before tickets.now k }
{
    let ticket = tickets[k];
    tickets[..k]
        .iter()
        .fold(false, |found, x| found | (*x == ticket))
}

// The places of a table that tells most tickets apart, and a ticket's place there. The cast is to a type no smaller,
// for which std has no `From`.
const SLOTS: usize = 4096;

fn slot(ticket: u32) -> usize
    ensures { (result ≡ slot_of ticket) × (result < slots) }
{
    ticket as usize % SLOTS
}

// As `stands_before`, where `seen` is false only if no ticket before k has this one's place.
fn repeats_at(tickets: &[u32], k: usize, seen: bool) -> bool
    requires { (k < length tickets.now) × (seen ≡ false → stands_before tickets.now k ≡ false) }
    ensures { result ≡ stands_before tickets.now k }
{
    seen && stands_before(tickets, k)
}

// Whether two are the same, by a table of the places taken so far: on the stack, since no heap is used.
fn some_repeat(tickets: &[u32]) -> bool
    ensures { result ≡ repeats tickets.now }
{
    let mut seen = [false; SLOTS];
    let mut found = false;
    for (k, ticket) in tickets.iter().enumerate() {
        let s = slot(*ticket);
        found |= repeats_at(tickets, k, seen[s]);
        seen[s] = true;
    }
    found
}

// The same, the ticket of each place against those before it.
fn some_repeat_of_few(tickets: &[u32]) -> bool
    ensures { result ≡ repeats tickets.now }
{
    let mut found = false;
    for k in 0..tickets.len() {
        found |= stands_before(tickets, k);
    }
    found
}

// Of so few tickets each is held against all before it: the table would cost more.
const FEW: usize = 24;

// Whether two are the same. Most car parks number their guests as they come.
pub fn any_repeats(tickets: &[u32]) -> bool
    ensures { result ≡ repeats tickets.now }
{
    if rising(tickets) {
        return false;
    }
    if tickets.len() <= FEW {
        return some_repeat_of_few(tickets);
    }
    some_repeat(tickets)
}
