// The first fault of two accepted markets as one, in the order of document 02.
ghost use Rattle.std.specs.Prelude.{◌+◌, ◌*◌, ◌≤◌, not, ◌≡◌, length};
ghost use Rattle.model.specs.Limits.{max_guests, max_stations};
ghost use Rattle.model.specs.Counting.{◌=?◌, ◌or◌};
ghost use Rattle.model.specs.Numbers.{answer_of_verdict};
ghost use Rattle.model.specs.Verdicts.{first_fault};
ghost use Rattle.model.specs.claims.Meaning.{Differ};
ghost use Rattle.model.specs.market.Gates.{differs, meet, pair_faults};

use checks::tickets;
use model::lent::AcceptedMarket;
use model::limits::MAX_GUESTS;
use model::refusal::Refusal;

// Whether the gates' stations differ.
fn stations_differ(first: &AcceptedMarket<'_>, second: &AcceptedMarket<'_>) -> bool
    ensures { result ≡ (differs first.now.asks second.now.asks or differs first.now.bays second.now.bays) }
{
    !copies::same(first.asks, second.asks) | !copies::same(first.bays, second.bays)
}

// Whether a ticket is in both lists: no list has one twice, so that it would repeat in both together. They are put into
// an array of the most guests, cut to those there are: there is no heap.
fn ticket_in_both(first: &[u32], second: &[u32]) -> bool
    requires { (length first.now + length second.now ≤ max_guests) × Differ first.now × Differ second.now }
    ensures { result ≡ meet first.now second.now }
{
    let mut room = [0; MAX_GUESTS];
    let both = &mut room[..first.len() + second.len()];
    copies::join_lists(first, second, both);
    tickets::any_repeats(both)
}

// How long the lent tables are.
#[derive(Clone, Copy)]
pub struct Lengths {
    pub amounts: usize,
    pub tickets: usize,
    pub asks: usize,
    pub bays: usize,
    pub bids: usize,
}

// Whether they are other than n guests and m stations take.
fn lengths_differ(n: usize, m: usize, joined: Lengths) -> bool
    requires { (n ≤ max_guests) × (m ≤ max_stations) }
    ensures { result ≡ (not (joined.amounts =? n) or not (joined.tickets =? n) or not (joined.asks =? m)
        or not (joined.bays =? m) or not (joined.bids =? n * m)) }
{
    (joined.amounts != n)
        | (joined.tickets != n)
        | (joined.asks != m)
        | (joined.bays != m)
        | (joined.bids != n * m)
}

// Each market is accepted, so that counts are small and no list of tickets has one twice.
pub fn pair_fault(
    first: &AcceptedMarket<'_>,
    second: &AcceptedMarket<'_>,
    joined: Lengths,
) -> Result<(), Refusal>
    ensures { answer_of_verdict result ≡ first_fault (pair_faults first.now second.now
        joined.amounts joined.tickets joined.asks joined.bays joined.bids) }
{
    if stations_differ(first, second) {
        return Err(Refusal::StationsDiffer);
    }
    let n = first.amounts.len() + second.amounts.len();
    if MAX_GUESTS < n {
        return Err(Refusal::CountsOutOfRange);
    }
    if ticket_in_both(first.tickets, second.tickets) {
        return Err(Refusal::TicketInBoth);
    }
    if lengths_differ(n, first.asks.len(), joined) {
        return Err(Refusal::LentLengths);
    }
    Ok(())
}
