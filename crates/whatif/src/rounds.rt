// The truthful rounds of two markets that differ in their bids alone, under one rule: they share the cut and the least
// charges.
ghost use Rattle.std.specs.Prelude.{◌≡◌};
ghost use Rattle.model.specs.market.Outcome.{outcome};
ghost use Rattle.allocation.specs.Assignment.{GuestLists, Assigned};

use allocation::assignment;
use model::lent::AcceptedMarket;
use model::limits::MAX_GUESTS;
use model::rule::Rule;
use pricing::{charges, cut};

// The station and the charge of each guest there is, of a market as it is and of another. They go to places that are
// lent, and stay slices (model/lent): tables that are returned are copied on the stack. The least charges are an array
// of the most guests, cut to those there are: there is no heap.
pub fn both_rounds(
    rule: Rule,
    market: &AcceptedMarket<'_>,
    other: &AcceptedMarket<'_>,
    stations: &mut [u16],
    charges: &mut [u32],
    other_stations: &mut [u16],
    other_charges: &mut [u32],
)
    requires other { (other.now.asks ≡ market.now.asks) × (other.now.amounts ≡ market.now.amounts) }
    requires room { GuestLists market.now stations.old charges.old }
    requires other_room { GuestLists other.now other_stations.old other_charges.old }
    ensures { Assigned (outcome rule market.now) stations.new charges.new
        × Assigned (outcome rule other.now) other_stations.new other_charges.new }
{
    let n = market.amounts.len();
    let cut = cut::cut(rule, market.asks);
    let mut least = [0u32; MAX_GUESTS];
    let least = &mut least[..n];
    charges::least_charges(market.amounts, cut, least);
    assignment::assign_all(market, cut, least, stations, charges);
    assignment::assign_all(other, cut, least, other_stations, other_charges);
}
