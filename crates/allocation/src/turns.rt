// A station's turn: where it is open, its offers go to every guest.
ghost use Rattle.std.specs.Prelude.{◌+◌, ◌<◌, ◌≡◌, length};
ghost use Rattle.checks.specs.Tickets.{rising as rising_of};
ghost use Rattle.allocation.specs.Stages.{AtCut, AfterIn, BoundedIn, turn_totals};

use crate::offers::{Bar, Choices};
use crate::{offers, selection, ties, totals};
use model::lent::AcceptedMarket;
use model::money::UnitPrice;

// What every station's turn is taken at: the market, whether its tickets rise, its cut and its least charges.
#[derive(Drop)]
pub struct Round<'a> {
    pub market: &'a AcceptedMarket<'a>,
    pub rising: bool,
    pub cut: UnitPrice,
    pub least: &'a [u32],
    ghost at_cut: { AtCut market.now cut.0 least.now },
    ghost rises: { rising ≡ rising_of market.now.tickets },
}

// Station j's turn, after the stations before it, with the critical total and the tie bound of each station number. The
// lists that are written stay slices (model/lent).
pub fn station(
    round: &Round<'_>,
    j: usize,
    totals: &mut [u32],
    choices: &mut Choices<'_>,
    criticals: &mut [u32],
    bounds: &mut [u32],
)
    requires j_in_bounds { (j < length round.now.market.now.asks)
        × (length totals.old ≡ length round.now.market.now.amounts) }
    requires after_in { AfterIn round.now.market.now round.now.cut.0 j choices.old.chosen.now choices.old.gains.now
        criticals.old }
    requires bounded_in { BoundedIn round.now.market.now round.now.cut.0 j bounds.old }
    ensures { let t = round.now.market.now in
        AfterIn t round.now.cut.0 (j + 1) choices.new.chosen.now choices.new.gains.now criticals.new
        × (totals.new ≡ turn_totals t round.now.cut.0 j totals.old)
        × BoundedIn t round.now.cut.0 (j + 1) bounds.new }
{
    let market = round.market;
    let asks = market.asks;
    if UnitPrice(asks[j]) < round.cut {
        let top = totals::gather(
            market.bids,
            market.amounts,
            asks.len(),
            j,
            round.cut,
            totals,
        );
        let b = u32::from(market.bays[j]);
        let critical = selection::critical_total(totals, top, b);
        let bound = ties::tie_bound(totals, market.tickets, round.rising, critical, b);
        let s = j + 1;
        criticals[s] = critical.total.narrow();
        bounds[s] = bound;
        let bar = Bar {
            critical: critical.total,
            bound,
        };
        // A station's number is at most 40; std has no `From` from `usize`.
        offers::offer(totals, market.tickets, round.least, bar, s as u32, choices);
    }
}
