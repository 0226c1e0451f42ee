// The codes and outcomes of an accepted market.
ghost use Rattle.std.specs.Prelude.{◌*◌, ◌≡◌, length};
ghost use Rattle.explain.specs.Explained.{ExplainsAccepted};

use crate::codes;
use allocation::assignment;
use model::lent::AcceptedMarket;
use model::limits::{MAX_GUESTS, MAX_STATIONS};
use model::rule::Rule;
use pricing::{charges, cut};

// Into tables of the right lengths, which are lent to be written and stay slices (model/lent). The rooms are arrays of
// the most guests or station numbers, cut to those there are: there is no heap.
pub fn explain_accepted(
    rule: Rule,
    market: &AcceptedMarket<'_>,
    codes: &mut [u8],
    stations: &mut [u16],
    charges: &mut [u32],
    reasons: &mut [u8],
)
    requires { let t = market.now in
        (length codes.old ≡ length t.amounts * length t.asks) × (length stations.old ≡ length t.amounts)
        × (length charges.old ≡ length t.amounts) × (length reasons.old ≡ length t.amounts) }
    ensures { ExplainsAccepted rule market.now codes.new stations.new charges.new reasons.new }
{
    let mut room = [0u32; MAX_GUESTS];
    let least = &mut room[..market.amounts.len()];
    let mut criticals = [0u32; MAX_STATIONS + 1];
    let mut bounds = [0u32; MAX_STATIONS + 1];
    let cut = cut::cut(rule, market.asks);
    charges::least_charges(market.amounts, cut, least);
    assignment::assign_with_bars(
        market,
        cut,
        least,
        &mut criticals,
        &mut bounds,
        stations,
        charges,
    );
    codes::explain_rows(market, cut, &criticals, &bounds, stations, codes, reasons);
}
