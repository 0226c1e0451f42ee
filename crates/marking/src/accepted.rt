// The clearing of an accepted market with its places and floors.
ghost use Rattle.std.specs.Prelude.{◌≡◌};
ghost use Rattle.model.specs.market.Outcome.{results};
ghost use Rattle.model.specs.market.Marking.{full_results};
ghost use Rattle.marking.specs.Accepted.{FullLengths, FullyClears};

use crate::{floors, places};
use clearing::accepted;
use model::answers::Figures;
use model::lent::AcceptedMarket;
use model::limits::MAX_STATIONS;
use model::mechanism::Mechanism;
use model::rule::Rule;

// Into lists of the right lengths, which are lent to be written and stay slices (model/lent). The rooms are arrays of
// the most stations or station numbers, cut to those there are: there is no heap.
pub fn clear_accepted(
    rule: Rule,
    market: &AcceptedMarket<'_>,
    stations: &mut [u16],
    charges: &mut [u32],
    sold: &mut [u32],
    paid: &mut [u64],
    places: &mut [u8],
    floors: &mut [u32],
) -> Figures
    requires { FullLengths market.now
        (full_results (results stations.old charges.old sold.old paid.old) places.old floors.old) }
    ensures { FullyClears rule market.now result
        (full_results (results stations.new charges.new sold.new paid.new) places.new floors.new) }
{
    let mut criticals = [0u32; MAX_STATIONS + 1];
    let mut bounds = [0u32; MAX_STATIONS + 1];
    let figures = accepted::clear_with_bars(
        Mechanism::Truthful,
        rule,
        market,
        &mut criticals,
        &mut bounds,
        stations,
        charges,
        sold,
        paid,
    );
    let mut room = [0u32; MAX_STATIONS];
    let bars = &mut room[..market.asks.len()];
    floors::give_bars(market.asks, figures.cut, &criticals, bars);
    places::place_rows(market, figures.cut, bars, &bounds, places);
    floors::give_floors(&criticals, floors);
    figures
}
