// Every guest's station and charge: the stations of an accepted market take their turns. The tables are arrays of the
// most guests or station numbers, cut to those there are: there is no heap. What is asked of a cut and its least
// charges is one clause, `AtCut`: a struct of them would be built for a single call.
ghost use Rattle.model.specs.market.Mechanism.{truthful};
ghost use Rattle.model.specs.market.Outcome.{outcome_by};
ghost use Rattle.allocation.specs.Screens.{screened_at};
ghost use Rattle.allocation.specs.Stages.{AtCut, EmptyBars, Bars};
ghost use Rattle.allocation.specs.Assignment.{GuestLists, Assigned};

use crate::offers::Choices;
use crate::turns;
use crate::turns::Round;
use checks::tickets;
use model::lent::AcceptedMarket;
use model::limits::{MAX_GUESTS, MAX_STATIONS};
use model::money::UnitPrice;
use pricing::charges;

// Every guest's station and charge at the market's cut, and the critical total and the tie bound of each station
// number. The four lists stay slices, since they are lent to be written (model/lent).
pub fn assign_with_bars(
    market: &AcceptedMarket<'_>,
    cut: UnitPrice,
    least: &[u32],
    criticals: &mut [u32],
    bounds: &mut [u32],
    stations: &mut [u16],
    charges: &mut [u32],
)
    requires at_cut { AtCut market.now cut.0 least.now }
    requires criticals_value { EmptyBars criticals.old bounds.old }
    requires stations_len { GuestLists market.now stations.old charges.old }
    ensures { let S = screened_at market.now cut.0 in
        Assigned (outcome_by S (truthful S)) stations.new charges.new
        × Bars market.now cut.0 criticals.new bounds.new }
{
    let n = market.amounts.len();
    let mut totals = [0u32; MAX_GUESTS];
    let mut chosen = [0u32; MAX_GUESTS];
    let mut gains = [0u32; MAX_GUESTS];
    let totals = &mut totals[..n];
    let mut choices = Choices {
        chosen: &mut chosen[..n],
        gains: &mut gains[..n],
    };
    let round = Round {
        market,
        rising: tickets::rising(market.tickets),
        cut,
        least,
    };
    // A turn takes the station's index.
    for j in 0..market.asks.len() {
        turns::station(&round, j, totals, &mut choices, criticals, bounds);
    }
    charges::charge_guests(choices.chosen, least, criticals, stations, charges);
}

// The same for a caller that asks for no bars.
pub fn assign_all(
    market: &AcceptedMarket<'_>,
    cut: UnitPrice,
    least: &[u32],
    stations: &mut [u16],
    charges: &mut [u32],
)
    requires at_cut { AtCut market.now cut.0 least.now }
    requires stations_len { GuestLists market.now stations.old charges.old }
    ensures { let S = screened_at market.now cut.0 in
        Assigned (outcome_by S (truthful S)) stations.new charges.new }
{
    let mut criticals = [0u32; MAX_STATIONS + 1];
    let mut bounds = [0u32; MAX_STATIONS + 1];
    assign_with_bars(
        market,
        cut,
        least,
        &mut criticals,
        &mut bounds,
        stations,
        charges,
    );
}
