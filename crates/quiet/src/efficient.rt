// The assignment of a quiet round: the stable one, with each station's critical total.
ghost use Rattle.model.specs.market.Efficient.{efficient};
ghost use Rattle.model.specs.market.Outcome.{outcome_by};
ghost use Rattle.allocation.specs.Screens.{screened_at};
ghost use Rattle.allocation.specs.Stages.{AtCut, NoCriticals};
ghost use Rattle.allocation.specs.Assignment.{GuestLists, Assigned};
ghost use Rattle.quiet.specs.Efficient.{StablyAssigned};
ghost use Rattle.quiet.specs.Rounds.{CalledAt};

use crate::round::{self, Round};
use crate::seats::Seating;
use crate::{criticals, opening, service};
use model::lent::AcceptedMarket;
use model::limits::{MAX_GUESTS, MAX_STATIONS};
use model::money::UnitPrice;
use pricing::charges;

// Everyone is served, and each station number's critical total is entered where it was zero.
fn assign_efficient(
    round: &Round<'_>,
    called: &mut [u8],
    seating: &mut Seating<'_>,
    criticals: &mut [u32],
)
    requires called { CalledAt round.now called.old seating.old }
    requires criticals_value { NoCriticals criticals.old }
    ensures { StablyAssigned round.now.market.now round.now.cut.0 seating.new.chosen criticals.new }
{
    service::serve_all(round, called, seating);
    criticals::all_criticals(round, seating, criticals);
}

// Every guest's station and charge. The cut and the least charges are the market's: that is what is required. The
// tables are arrays of the most guests or stations, cut to those there are: there is no heap. Not inlined: they would
// take stack where a truthful round is cleared too.
#[inline(never)]
pub fn assign_all_efficient(
    market: &AcceptedMarket<'_>,
    cut: UnitPrice,
    least: &[u32],
    stations: &mut [u16],
    charges: &mut [u32],
)
    requires at_cut { AtCut market.now cut.0 least.now }
    requires stations_len { GuestLists market.now stations.old charges.old }
    ensures { let S = screened_at market.now cut.0 in
        Assigned (outcome_by S (efficient S)) stations.new charges.new }
{
    let n = market.amounts.len();
    let m = market.asks.len();
    let mut opened = [0usize; MAX_STATIONS];
    let k = opening::open_stations(market.asks, cut, &mut opened);
    round::tickets_fit(market.tickets);
    let round = Round {
        market,
        cut,
        opened: &opened[..k],
    };
    let mut called = [0u8; MAX_GUESTS];
    let mut chosen = [0u32; MAX_GUESTS];
    let mut held = [0u16; MAX_STATIONS];
    let mut firsts = [0u8; MAX_STATIONS];
    let mut nexts = [0u8; MAX_GUESTS];
    let mut lasts = [0u8; MAX_STATIONS];
    let mut befores = [0u8; MAX_STATIONS];
    let mut bars = [0u64; MAX_STATIONS];
    let mut seating = Seating {
        chosen: &mut chosen[..n],
        held: &mut held[..m],
        firsts: &mut firsts[..m],
        nexts: &mut nexts[..n],
        lasts: &mut lasts[..m],
        befores: &mut befores[..m],
        bars: &mut bars[..m],
    };
    let mut criticals = [0u32; MAX_STATIONS + 1];
    assign_efficient(&round, &mut called[..n], &mut seating, &mut criticals);
    charges::charge_guests(seating.chosen, least, &criticals, stations, charges);
}
