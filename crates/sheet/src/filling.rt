// The filling pass of the reader: the sheet has no fault, which is what is required here, and its fields are written
// into the lent tables. Several tables are written by their index: after a `zip` of `iter_mut` nothing is known of what
// a list holds.
ghost use Rattle.std.specs.Prelude.{◌+◌, ◌*◌, ◌^◌, ◌<◌, ◌≤◌, ◌≡◌, length};
ghost use Rattle.model.specs.Limits.{max_stations};
ghost use Rattle.model.specs.Counting.{count};
ghost use Rattle.model.specs.Verdicts.{accepted, first_fault};
ghost use Rattle.model.specs.sheet.Fields.{has_bit};
ghost use Rattle.model.specs.sheet.Rows.{row_at, rows_faults};
ghost use Rattle.sheet.specs.Filling.{StationsFilled, AllFilled, RowFilled, RowsFilled};

use crate::fields::Cursor;

// The asks and bays of all stations.
pub fn fill_stations<'a>(mut cursor: Cursor<'a>, asks: &mut [u32], bays: &mut [u16]) -> Cursor<'a>
    requires { (length bays.old ≡ length asks.old) × (cursor.at ≡ 4)
        × (4 + 6 * length asks.old ≤ length cursor.sheet.now) }
    ensures { StationsFilled cursor.entry (length asks.old) asks.new bays.new result }
{
    for j in 0..asks.len() {
        let (ask, next) = cursor.four();
        asks[j] = ask;
        let (count, next) = next.two();
        bays[j] = count;
        cursor = next;
    }
    cursor
}

// The bids of a row where the bits of all stations are set.
fn fill_all<'a>(mut cursor: Cursor<'a>, row: &mut [u32]) -> Cursor<'a>
    requires { cursor.at + 4 * length row.old ≤ length cursor.sheet.now }
    ensures { AllFilled cursor.entry (length row.old) row.new result }
{
    for bid in row.iter_mut() {
        let (value, next) = cursor.four();
        *bid = value;
        cursor = next;
    }
    cursor
}

// The bids of a row whose bits are set for some stations: a field for each set bit, the lowest first.
fn fill_some<'a>(mut cursor: Cursor<'a>, map: u64, row: &mut [u32]) -> Cursor<'a>
    requires { (length row.old ≤ max_stations) × (map < 2 ^ length row.old)
        × (cursor.at + 4 * count (length row.old) (has_bit map) ≤ length cursor.sheet.now) }
    ensures { RowFilled cursor.entry map (length row.old) row.new result }
{
    row.fill(0);
    for place in words::set_bits(map) {
        let (bid, next) = cursor.four();
        row[place] = bid;
        cursor = next;
    }
    cursor
}

fn fill_row<'a>(cursor: Cursor<'a>, map: u64, row: &mut [u32]) -> Cursor<'a>
    requires { (length row.old ≤ max_stations) × (map < 2 ^ length row.old)
        × (cursor.at + 4 * count (length row.old) (has_bit map) ≤ length cursor.sheet.now) }
    ensures { RowFilled cursor.entry map (length row.old) row.new result }
{
    if words::count(map) == row.len() {
        fill_all(cursor, row)
    } else {
        fill_some(cursor, map, row)
    }
}

// The amounts, tickets and bids of all guests.
pub fn fill_rows(
    mut cursor: Cursor<'_>,
    stations: usize,
    amounts: &mut [u16],
    tickets: &mut [u32],
    bids: &mut [u32],
)
    requires { (stations ≤ max_stations) × (cursor.at ≡ row_at cursor.sheet.now stations 0)
        × (first_fault (rows_faults cursor.sheet.now stations (length amounts.old)) ≡ accepted tt)
        × (length tickets.old ≡ length amounts.old) × (length bids.old ≡ length amounts.old * stations) }
    ensures { RowsFilled cursor.entry.sheet.now (length amounts.old) stations amounts.new tickets.new bids.new }
{
    for i in 0..amounts.len() {
        let (amount, next) = cursor.two();
        amounts[i] = amount;
        let (ticket, next) = next.four();
        tickets[i] = ticket;
        let (map, next) = next.map(stations);
        cursor = fill_row(next, map, &mut bids[i * stations..(i + 1) * stations]);
    }
}
