// Who wins a tie at the critical total: those with a ticket below a bound.
ghost use Rattle.std.specs.Prelude.{◌≤◌, true, ◌≡◌, length};
ghost use Rattle.model.specs.Limits.{max_guests};
ghost use Rattle.model.specs.claims.Meaning.{Differ};
ghost use Rattle.checks.specs.Tickets.{rising as rising_of};
ghost use Rattle.allocation.specs.Totals.{max_total};
ghost use Rattle.allocation.specs.Ties.{ties_below, Tied, Tying, TieBound};

use crate::selection::Critical;
use model::money::Mills;

// How many at t have a ticket below x. Totals are compared in 32 bits: the processor compares four of them at once.
// Both lists are read by one index, as in `bound_by_order`, which ends at a place of both.
pub fn count_ties(totals: &[u32], tickets: &[u32], t: Mills, x: u32) -> u32
    requires { (length totals.now ≤ max_guests) × (length tickets.now ≡ length totals.now)
        × (t.0 ≤ max_total) }
    ensures { result ≡ ties_below totals.now tickets.now t.0 x }
{
    let at = t.narrow();
    let mut n: u32 = 0;
    for (i, total) in totals.iter().enumerate() {
        if (*total == at) & (tickets[i] < x) {
            n += 1;
        }
    }
    n
}

// The bound below which so many at t have their tickets, where tickets rise: the ticket of the next in order.
fn bound_by_order(totals: &[u32], tickets: &[u32], t: Mills, places: u32) -> u32
    requires { Tied totals.now tickets.now t.0 places × (rising_of tickets.now ≡ true) }
    ensures { ties_below totals.now tickets.now t.0 result ≡ places }
{
    let mut n: u32 = 0;
    let mut i = 0;
    // It ends after the last tie with a place, which there is: a `for` would need an answer where there is none.
    while n < places {
        if u64::from(totals[i]) == t.0 {
            n += 1;
        }
        i += 1;
    }
    tickets[i]
}

// The same, however tickets stand: by bisection, with a count at each step.
fn bound_by_ticket(totals: &[u32], tickets: &[u32], t: Mills, places: u32) -> u32
    requires { Tied totals.now tickets.now t.0 places × Differ tickets.now }
    ensures { ties_below totals.now tickets.now t.0 result ≡ places }
{
    let mut low: u32 = 0;
    let mut high = u32::MAX;
    // A bisection counts no index: it ends where the two meet.
    while low < high {
        let mid = low + (high - low) / 2;
        let n = count_ties(totals, tickets, t, mid);
        if n == places {
            return mid;
        }
        if n < places {
            low = mid + 1;
        } else {
            high = mid;
        }
    }
    low
}

// Of those at the critical total, the ones with a ticket below the bound win a place of the b bays. Where no place is
// left for them, which is the common case, nobody does.
pub fn tie_bound(totals: &[u32], tickets: &[u32], rising: bool, critical: Critical, b: u32) -> u32
    requires { Tying totals.now tickets.now rising critical.total.0 critical.above b }
    ensures { TieBound totals.now tickets.now critical.total.0 critical.above b result }
{
    let t = critical.total;
    if t.0 == 0 || b <= critical.above {
        return 0;
    }
    let places = b - critical.above;
    // How tickets stand is seen when the program runs, once for all stations: an `if` is the plain form.
    if rising {
        bound_by_order(totals, tickets, t, places)
    } else {
        bound_by_ticket(totals, tickets, t, places)
    }
}
