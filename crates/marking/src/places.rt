// The place of each guest and station, row after row. The lists of a market, its bars and its places are of other
// lengths, and are passed one by one. They are written by their index: after a `zip` of `iter_mut` nothing is known of
// what a list holds.
ghost use Rattle.std.specs.Prelude.{◌+◌, ◌*◌, ◌≤◌, ◌≡◌, length};
ghost use Rattle.model.specs.Limits.{max_price, max_amount};
ghost use Rattle.model.specs.Counting.{list};
ghost use Rattle.model.specs.market.Marking.{place_table};
ghost use Rattle.allocation.specs.Screens.{screened_at};
ghost use Rattle.allocation.specs.Totals.{max_total};
ghost use Rattle.marking.specs.Places.{place_by, row_place, RowReady, Barred};

use allocation::holding;
use model::lent::AcceptedMarket;
use model::money::{Mills, UnitPrice};

// 1 for a place held, by the bar and the tie bound of the station, else 0: the lent table holds bytes. No branch: who
// wins cannot be foreseen. Each parameter is from a list of its own.
fn place(bid: UnitPrice, amount: u16, ticket: u32, cut: UnitPrice, bar: Mills, bound: u32) -> u8
    requires { (bid.0 ≤ max_price) × (amount ≤ max_amount) × (bar.0 ≤ max_total + 1) }
    ensures { result ≡ place_by bid.0 amount ticket cut.0 bar.0 bound }
{
    let total = bid.times(u32::from(amount));
    let wins = holding::holds(total, bar, ticket, bound);
    let below = bid < cut;
    u8::from(wins & !below)
}

// A guest's places at all stations from its row of bids, to the places of a row.
fn place_row(
    row: &[u32],
    amount: u16,
    ticket: u32,
    cut: UnitPrice,
    bars: &[u32],
    bounds: &[u32],
    places: &mut [u8],
)
    requires { RowReady row.now amount bars.now bounds.now places.old }
    ensures { places.new ≡ list (length row.now) (row_place row.now amount ticket cut.0 bars.now bounds.now) }
{
    for (j, bid) in row.iter().enumerate() {
        places[j] = place(
            UnitPrice(*bid),
            amount,
            ticket,
            cut,
            Mills::from(bars[j]),
            bounds[j + 1],
        );
    }
}

// All rows.
pub fn place_rows(
    market: &AcceptedMarket<'_>,
    cut: UnitPrice,
    bars: &[u32],
    bounds: &[u32],
    places: &mut [u8],
)
    requires barred { Barred market.now cut.0 bars.now bounds.now }
    requires places_len { length places.old ≡ length market.now.amounts * length market.now.asks }
    ensures { places.new ≡ place_table (screened_at market.now cut.0) }
{
    let m = market.asks.len();
    for (i, amount) in market.amounts.iter().enumerate() {
        let row = views::row_through_view(market.bids, m, i + 1);
        let base = i * m;
        place_row(
            row,
            *amount,
            market.tickets[i],
            cut,
            bars,
            bounds,
            &mut places[base..base + m],
        );
    }
}
