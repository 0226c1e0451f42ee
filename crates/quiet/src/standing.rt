// How candidacies of one station stand: by their priorities.
ghost use Rattle.std.specs.Prelude.{◌≡◌, ◌<◌, length};
ghost use Rattle.quiet.specs.Seating.{priority};
ghost use Rattle.quiet.specs.Rounds.{screened};

use crate::round::Round;
use model::money::{Mills, UnitPrice};

// A candidacy's priority at its station: a total and, below it, how low its ticket is. The greater stands before.
// One number and no pair: a bar is taken from it with no branch (`takers`).
#[derive(Clone, Copy, PartialEq, Eq, PartialOrd, Ord)]
pub struct Priority(pub u64);

// A total's part of it.
pub const TOTAL: u64 = 4_294_967_296;

// Guest i's bid times amount at station j. One bid of the table is read, and no row is made for it.
fn total_at(round: &Round<'_>, i: usize, j: usize) -> Mills
    requires { (i < length round.now.market.now.amounts) × (j < length round.now.market.now.asks) }
    ensures { result.0 ≡ (screened round.now).total i j }
{
    let market = round.market;
    let bid = market.bids[i * market.asks.len() + j];
    UnitPrice(bid).times(u32::from(market.amounts[i]))
}

// Guest i's priority at station j.
pub fn priority_at(round: &Round<'_>, i: usize, j: usize) -> Priority
    requires { (i < length round.now.market.now.amounts) × (j < length round.now.market.now.asks) }
    ensures { result.0 ≡ priority (screened round.now) i j }
{
    let total = total_at(round, i, j);
    let market = round.market;
    Priority(total.0 * TOTAL + u64::from(u32::MAX - market.tickets[i]))
}
