// The writer's parts: how long the shortest sheet of a market is, and its bytes from the first to the last. What is
// required is an output with room for what is written: one inequality, for which a name would say no more. How long
// other forms of a loop took was timed in Rust.
ghost use Rattle.std.specs.Prelude.{◌+◌, ◌*◌, ◌≤◌, ◌≡◌, get_or, length};
ghost use Rattle.model.specs.Limits.{max_stations, max_bids};
ghost use Rattle.model.specs.Counting.{◌<?◌, count, joined};
ghost use Rattle.model.specs.sheet.Layout.{bytes_of};
ghost use Rattle.model.specs.sheet.Shortest.{shortest};
ghost use Rattle.sheet.specs.Laid.{station_of, bid_in, bid_fields, row_map, row_bytes, row_of};
ghost use Rattle.sheet.specs.Put.{Put};
ghost use Rattle.sheet.specs.Wrote.{Wrote};

use crate::fields;
use crate::putting::Output;
use model::lent::AcceptedMarket;

// How many bids are not 0, in 32 bits: `filter` and `count`, in 64, took four tenths longer, of a pass that the
// writer's bar has little room for.
fn count_bids(bids: &[u32]) -> u32
    requires { length bids.now ≤ max_bids }
    ensures { result ≡ count (length bids.now) (λ k. 0 <? get_or bids.now k 0) }
{
    let mut n = 0;
    for bid in bids {
        n += u32::from(0 < *bid);
    }
    n
}

// The length of the shortest sheet. The cast is to a type no smaller, for which std has no `From`.
pub fn sheet_length(market: &AcceptedMarket<'_>) -> usize
    ensures { result ≡ length (shortest market.now) }
{
    let m = market.asks.len();
    let row = 6 + fields::map_width(m);
    4 + m * 6 + (market.amounts.len() * row + 4 * count_bids(market.bids) as usize)
}

// Both lists by their index: a loop over their `zip` was proved too, and took three quarters as long again.
fn put_stations(asks: &[u32], bays: &[u16], output: &mut Output<'_>)
    requires { (length bays.now ≡ length asks.now)
        × (output.old.at + length (joined (length asks.now) (station_of asks.now bays.now))
        ≤ length output.old.out.now) }
    ensures { Put output.old (joined (length asks.now) (station_of asks.now bays.now)) output.new }
{
    for j in 0..asks.len() {
        output.put(&asks[j].to_le_bytes());
        output.put(&bays[j].to_le_bytes());
    }
}

// The map of a row: a bit for each bid that is not 0, the last station's first. Shifted by their stations, the bits
// would be made more slowly on processors without shifts by several counts at once; over `iter().rev()` in place of an
// index they took nearly twice as long.
fn row_map(row: &[u32]) -> u64
    requires { length row.now ≤ max_stations }
    ensures { result ≡ row_map (length row.now) (bid_in row.now) }
{
    let mut map = 0;
    for j in (0..row.len()).rev() {
        map = 2 * map + u64::from(0 < row[j]);
    }
    map
}

// The bids of a row in which none is 0.
fn put_all(row: &[u32], output: &mut Output<'_>)
    requires { output.old.at + length (joined (length row.now) (λ j. bytes_of 4 (bid_in row.now j)))
        ≤ length output.old.out.now }
    ensures { Put output.old (joined (length row.now) (λ j. bytes_of 4 (bid_in row.now j))) output.new }
{
    for bid in row {
        output.put(&bid.to_le_bytes());
    }
}

// The bids of a row with this map: a field for each set bit, the lowest first.
fn put_some(row: &[u32], map: u64, output: &mut Output<'_>)
    requires { (length row.now ≤ max_stations) × (map ≡ row_map (length row.now) (bid_in row.now))
        × (output.old.at + length (bid_fields (length row.now) (bid_in row.now)) ≤ length output.old.out.now) }
    ensures { Put output.old (bid_fields (length row.now) (bid_in row.now)) output.new }
{
    for place in words::set_bits(map) {
        output.put(&row[place].to_le_bytes());
    }
}

fn put_bids(row: &[u32], map: u64, output: &mut Output<'_>)
    requires { (length row.now ≤ max_stations) × (map ≡ row_map (length row.now) (bid_in row.now))
        × (output.old.at + length (bid_fields (length row.now) (bid_in row.now)) ≤ length output.old.out.now) }
    ensures { Put output.old (bid_fields (length row.now) (bid_in row.now)) output.new }
{
    if words::count(map) == row.len() {
        put_all(row, output);
    } else {
        put_some(row, map, output);
    }
}

// A map in this many bytes: a copy of a known length for each width, which a copy of `width` bytes would not be.
fn put_map(map: u64, width: usize, output: &mut Output<'_>)
    requires { (width ≤ 5) × (output.old.at + width ≤ length output.old.out.now) }
    ensures { Put output.old (bytes_of width map) output.new }
{
    let bytes = map.to_le_bytes();
    match width {
        0 => {}
        1 => output.put(&bytes[..1]),
        2 => output.put(&bytes[..2]),
        3 => output.put(&bytes[..3]),
        4 => output.put(&bytes[..4]),
        _ => output.put(&bytes[..5]),
    }
}

fn put_row(amount: u16, ticket: u32, row: &[u32], output: &mut Output<'_>)
    requires { (length row.now ≤ max_stations)
        × (output.old.at + length (row_bytes amount ticket (length row.now) (bid_in row.now))
        ≤ length output.old.out.now) }
    ensures { Put output.old (row_bytes amount ticket (length row.now) (bid_in row.now)) output.new }
{
    let map = row_map(row);
    output.put(&amount.to_le_bytes());
    output.put(&ticket.to_le_bytes());
    put_map(map, fields::map_width(row.len()), output);
    put_bids(row, map, output);
}

// All rows. The number of the guest is needed beside the lists, for the row.
fn put_rows(
    amounts: &[u16],
    tickets: &[u32],
    bids: &[u32],
    stations: usize,
    output: &mut Output<'_>,
)
    requires { (stations ≤ max_stations) × (length tickets.now ≡ length amounts.now)
        × (length bids.now ≡ length amounts.now * stations)
        × (output.old.at
        + length (joined (length amounts.now) (row_of amounts.now tickets.now bids.now stations))
        ≤ length output.old.out.now) }
    ensures { Put output.old
        (joined (length amounts.now) (row_of amounts.now tickets.now bids.now stations)) output.new }
{
    for i in 0..amounts.len() {
        let row = views::row_through_view(bids, stations, i + 1);
        put_row(amounts[i], tickets[i], row, output);
    }
}

// The casts narrow the counts of an accepted market, which fit 16 bits: a `TryFrom` could fail, which this cannot.
fn put_market(market: &AcceptedMarket<'_>, output: &mut Output<'_>)
    requires { output.old.at + length (shortest market.now) ≤ length output.old.out.now }
    ensures { Put output.old (shortest market.now) output.new }
{
    let guests = market.amounts.len();
    let stations = market.asks.len();
    output.put(&(guests as u16).to_le_bytes());
    output.put(&(stations as u16).to_le_bytes());
    put_stations(market.asks, market.bays, output);
    put_rows(
        market.amounts,
        market.tickets,
        market.bids,
        stations,
        output,
    );
}

// The shortest sheet, over the first places of the output, and its length.
pub fn put_sheet(market: &AcceptedMarket<'_>, out: &mut [u8]) -> usize
    requires { length (shortest market.now) ≤ length out.old }
    ensures { Wrote out.old 0 (shortest market.now) out.new result }
{
    let mut output = Output { out, at: 0 };
    put_market(market, &mut output);
    output.at
}
