// The code of each guest and station, row after row, and each guest's loss. Codes are bytes with 0 for none: the lent
// tables hold them so over the C interface. The lists of a market, its bars and its results are of other lengths, and
// are passed one by one. They are written by their index: after a `zip` of `iter_mut` nothing is known of what a list
// holds.
ghost use Rattle.std.specs.Prelude.{◌+◌, ◌*◌, ◌<◌, ◌≤◌, ◌≡◌, length};
ghost use Rattle.model.specs.Limits.{max_price, max_amount};
ghost use Rattle.model.specs.Counting.{◌=?◌, only, greatest, list};
ghost use Rattle.allocation.specs.Offers.{won_by};
ghost use Rattle.allocation.specs.Stages.{Bars};
ghost use Rattle.allocation.specs.Totals.{max_total};
ghost use Rattle.explain.specs.Codes.{code_by, row_code, RowReady, CodesAtCut};

use allocation::holding;
use model::lent::AcceptedMarket;
use model::money::{Mills, UnitPrice};

// The code of a bid: the first of 1 to 4 that applies, or 0. No branch: who is a candidate and who wins cannot be
// foreseen. Each parameter is from a list of its own: no two go together anywhere else.
#[tactic(auto, unfolding(crate::specs::Codes::code_by), using(crate::proofs::Tests::prices))]
fn code(
    bid: UnitPrice,
    amount: u16,
    ticket: u32,
    ask: UnitPrice,
    cut: UnitPrice,
    critical: Mills,
    bound: u32,
) -> u8
    requires { (bid.0 ≤ max_price) × (amount ≤ max_amount) × (critical.0 ≤ max_total) }
    ensures { result ≡ code_by bid.0 ask.0 cut.0 (won_by (bid.0 * amount) critical.0 ticket bound) }
{
    let total = bid.times(u32::from(amount));
    let held = holding::holds(total, critical, ticket, bound);
    let below = bid < cut;
    let open = ask < cut;
    let none = bid.0 == 0;
    if none {
        1
    } else if !open {
        2
    } else if below {
        3
    } else if held {
        0
    } else {
        4
    }
}

// A guest's codes at all stations from its row of bids. Gives the highest.
fn explain_row(
    asks: &[u32],
    row: &[u32],
    amount: u16,
    ticket: u32,
    cut: UnitPrice,
    criticals: &[u32],
    bounds: &[u32],
    codes: &mut [u8],
) -> u8
    requires { RowReady asks.now row.now amount criticals.now bounds.now codes.old }
    ensures { let f = row_code asks.now row.now amount ticket cut.0 criticals.now bounds.now in
        (codes.new ≡ list (length asks.now) f) × (result ≡ greatest (length asks.now) f) }
{
    let mut top: u8 = 0;
    for (j, ask) in asks.iter().enumerate() {
        let c = code(
            UnitPrice(row[j]),
            amount,
            ticket,
            UnitPrice(*ask),
            cut,
            Mills::from(criticals[j + 1]),
            bounds[j + 1],
        );
        codes[j] = c;
        top = top.max(c);
    }
    top
}

// The highest code of a guest with no station, 0 of one that has a station.
#[tactic(auto, using(crate::proofs::Tests::tests))]
fn loss(station: u16, highest: u8) -> u8
    ensures { result ≡ only (station =? 0) highest }
{
    if station == 0 { highest } else { 0 }
}

// All rows, and each guest's loss. A loop like that of `marking/places`: one for both would take a closure that writes.
pub fn explain_rows(
    market: &AcceptedMarket<'_>,
    cut: UnitPrice,
    criticals: &[u32],
    bounds: &[u32],
    stations: &[u16],
    codes: &mut [u8],
    reasons: &mut [u8],
)
    requires bars { Bars market.now cut.0 criticals.now bounds.now }
    requires stations_len { let t = market.now in
        (length stations.now ≡ length t.amounts) × (length reasons.old ≡ length t.amounts)
        × (length codes.old ≡ length t.amounts * length t.asks) }
    ensures { CodesAtCut market.now cut.0 stations.now codes.new reasons.new }
{
    let m = market.asks.len();
    for (i, amount) in market.amounts.iter().enumerate() {
        let row = views::row_through_view(market.bids, m, i + 1);
        let base = i * m;
        let highest = explain_row(
            market.asks,
            row,
            *amount,
            market.tickets[i],
            cut,
            criticals,
            bounds,
            &mut codes[base..base + m],
        );
        reasons[i] = loss(stations[i], highest);
    }
}
