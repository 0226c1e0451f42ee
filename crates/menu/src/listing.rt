// A guest's bar and price at each station. One station: with the guest's own total left out, the critical total of one
// bay fewer; the guest loses a tie there where as many of the others as there are bays would stand before it.
ghost use Rattle.std.specs.Prelude.{◌+◌, ◌<◌, ◌≤◌, max, ◌≡◌, length};
ghost use Rattle.model.specs.Limits.{max_price};
ghost use Rattle.model.specs.Counting.{only, list};
ghost use Rattle.allocation.specs.Totals.{max_total};
ghost use Rattle.menu.specs.Listing.{bar_at, price_at, Stated};

use allocation::{selection, ties, totals};
use model::lent::AcceptedMarket;
use model::money::{Mills, UnitPrice};

// What a station is to a guest, as the lent lists hold it.
#[derive(Clone, Copy)]
struct Entry {
    bar: u32,
    price: u32,
}

// 1 for whoever loses a tie, and else nothing: std's conversion, with a contract in the word of the definitions.
fn one_if(loses: bool) -> Mills
    ensures { result.0 ≡ only loses 1 }
{
    Mills(u64::from(loses))
}

// The larger of the least charge and the critical total, and the same with one more for whoever loses a tie.
fn entry_of(least: Mills, critical: Mills, loses: bool) -> Entry
    requires { (least.0 ≤ max_total) × (critical.0 ≤ max_total) }
    ensures { (result.bar ≡ max least.0 (critical.0 + only loses 1))
        × (result.price ≡ max least.0 critical.0) }
{
    Entry {
        bar: least.max(critical + one_if(loses)).narrow(),
        price: least.max(critical).narrow(),
    }
}

// Guest i's entry for the open station j, with room for the totals.
fn open_station(
    market: &AcceptedMarket<'_>,
    cut: UnitPrice,
    i: usize,
    j: usize,
    totals: &mut [u32],
) -> Entry
    requires { Stated market.now cut.0 i j totals.old }
    ensures { (result.bar ≡ bar_at market.now cut.0 i j) × (result.price ≡ price_at market.now cut.0 i j) }
{
    let bays = market.bays;
    let tickets = market.tickets;
    let amounts = market.amounts;
    let top = totals::gather(
        market.bids,
        market.amounts,
        market.asks.len(),
        j,
        cut,
        totals,
    );
    totals[i] = 0;
    let b = u32::from(bays[j]) - 1;
    let critical = selection::critical_total(totals, top, b);
    let tied = ties::count_ties(totals, tickets, critical.total, tickets[i]);
    let loses = b < critical.above + tied;
    entry_of(cut.times(u32::from(amounts[i])), critical.total, loses)
}

// Guest i's entry for station j. A station that is not open has a bar that no total reaches.
fn station(
    market: &AcceptedMarket<'_>,
    cut: UnitPrice,
    i: usize,
    j: usize,
    totals: &mut [u32],
) -> Entry
    requires { (cut.0 ≤ max_price) × (i < length market.now.amounts) × (j < length market.now.asks)
        × (length totals.old ≡ length market.now.amounts) }
    ensures { (result.bar ≡ bar_at market.now cut.0 i j) × (result.price ≡ price_at market.now cut.0 i j) }
{
    let asks = market.asks;
    if UnitPrice(asks[j]) < cut {
        open_station(market, cut, i, j, totals)
    } else {
        Entry {
            bar: u32::MAX,
            price: 0,
        }
    }
}

// Guest i's price list at a cut. The lists are lent to be written and stay slices (model/lent); a station is told of by
// its index, and two lists are written at it.
pub fn list_stations(
    market: &AcceptedMarket<'_>,
    cut: UnitPrice,
    i: usize,
    totals: &mut [u32],
    bars: &mut [u32],
    prices: &mut [u32],
)
    requires { let t = market.now in (cut.0 ≤ max_price) × (i < length t.amounts)
        × (length totals.old ≡ length t.amounts) × (length bars.old ≡ length t.asks)
        × (length prices.old ≡ length t.asks) }
    ensures { let t = market.now in
        (bars.new ≡ list (length t.asks) (bar_at t cut.0 i))
        × (prices.new ≡ list (length t.asks) (price_at t cut.0 i)) }
{
    for j in 0..market.asks.len() {
        let entry = station(market, cut, i, j, totals);
        bars[j] = entry.bar;
        prices[j] = entry.price;
    }
}
