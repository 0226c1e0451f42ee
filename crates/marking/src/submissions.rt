// Whether a clearing that is handed in is that of the truthful round, in an accepted market.
ghost use Rattle.std.specs.Prelude.{◌≡◌};
ghost use Rattle.model.specs.market.Marking.{correct};

use crate::accepted;
use copies::same;
use model::lent::{AcceptedMarket, Submission};
use model::limits::{MAX_BIDS, MAX_GUESTS, MAX_STATIONS};
use model::rule::Rule;

// Against the truthful round, which is made in lists of its own: arrays of the most that there may be, cut to the
// market, since there is no heap. All is compared, whatever differs.
pub fn is_correct(rule: Rule, market: &AcceptedMarket<'_>, submission: &Submission<'_>) -> bool
    ensures { result ≡ correct rule market.now submission.now }
{
    let n = market.amounts.len();
    let m = market.asks.len();
    let stations = &mut [0u16; MAX_GUESTS][..n];
    let charges = &mut [0u32; MAX_GUESTS][..n];
    let sold = &mut [0u32; MAX_STATIONS][..m];
    let paid = &mut [0u64; MAX_STATIONS][..m];
    let places = &mut [0u8; MAX_BIDS][..market.bids.len()];
    let floors = &mut [0u32; MAX_STATIONS][..m];
    let own = accepted::clear_accepted(rule, market, stations, charges, sold, paid, places, floors);
    same(submission.stations, stations)
        & same(submission.charges, charges)
        & same(submission.sold, sold)
        & same(submission.paid, paid)
        & same(submission.places, places)
        & same(submission.floors, floors)
        & (submission.cut == own.cut.0)
        & (submission.margin == own.margin.0)
}
