// The checking pass over the rows of a sheet, one after the other: the cursor after them, or their first fault.
ghost use Rattle.std.specs.Prelude.{◌≤◌, ◌≡◌};
ghost use Rattle.model.specs.Limits.{max_stations};
ghost use Rattle.model.specs.sheet.Rows.{next_at, row_at, row_faults, rows_faults};
ghost use Rattle.sheet.specs.Passes.{Passed};

use crate::fields::Cursor;
use crate::{empties, fields};
use model::refusal::Refusal;

// 2 bytes of amount and 4 of ticket, then the map. A stray bit is a fault before the bids are looked for; of those a
// bid of 0 is one before the sheet's end inside a later one.
fn check_row(cursor: Cursor<'_>, stations: usize) -> Result<Cursor<'_>, Refusal>
    requires { stations ≤ max_stations }
    ensures { Passed cursor.entry (row_faults cursor.entry.sheet.now stations cursor.entry.at) result
        (next_at cursor.entry.sheet.now stations cursor.entry.at) }
{
    cursor.needs(6)?;
    let at_map = cursor.skip(6);
    at_map.needs(fields::map_width(stations))?;
    let (map, at_bids) = at_map.map(stations);
    if 0 < map >> stations {
        return Err(Refusal::StrayBit);
    }
    let bids = words::count(map);
    let whole = at_bids.whole(bids);
    let (empty, next) = empties::any_empty(at_bids, whole);
    if empty {
        return Err(Refusal::EmptyBid);
    }
    if whole < bids {
        return Err(Refusal::SheetEnds);
    }
    Ok(next)
}

// The stations' fields are there, and the cursor is the place after them.
pub fn check_rows(
    mut cursor: Cursor<'_>,
    guests: usize,
    stations: usize,
) -> Result<Cursor<'_>, Refusal>
    requires { (stations ≤ max_stations) × (cursor.at ≡ row_at cursor.sheet.now stations 0) }
    ensures { Passed cursor.entry (rows_faults cursor.entry.sheet.now stations guests) result
        (row_at cursor.entry.sheet.now stations guests) }
{
    for _ in 0..guests {
        cursor = check_row(cursor, stations)?;
    }
    Ok(cursor)
}
