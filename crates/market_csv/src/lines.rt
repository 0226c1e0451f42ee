// The lines of a comma-separated market.
ghost use Rattle.std.specs.Prelude.{◌≡◌, ◌<◌, ◌≤◌, length, IfOk};
ghost use Rattle.model.specs.Limits.{max_guests, max_stations};
ghost use Rattle.market_csv.specs.Rows.{AsksRead, RowRead, GuestRead};

use crate::numbers::Number;
use crate::own::OwnTables;
use crate::reader::Reader;
use model::limits::MAX_STATIONS;
use model::refusal::Refusal;

// The first line: how many asks there are. A comma after the 40th ask is one too many, whether that ask is empty or
// not.
pub fn asks_line(reader: &mut Reader<'_>, asks: &mut [u32; MAX_STATIONS]) -> Result<usize, Refusal>
    requires { reader.old.at ≡ 0 }
    ensures few { IfOk result (λ m. m ≤ max_stations) }
    ensures read { AsksRead reader.old.text reader.new asks.new result }
{
    for (j, ask) in asks.iter_mut().enumerate() {
        let field = reader.field(u32::MOST)?;
        if !field.last & (j + 1 == MAX_STATIONS) {
            return Err(Refusal::CountsOutOfRange);
        }
        if field.empty {
            return Err(Refusal::MalformedText);
        }
        *ask = u32::number_of(field.value);
        if field.last {
            return Ok(j + 1);
        }
    }
    Err(Refusal::CountsOutOfRange)
}

// The last fields of a line, one for each place of a row.
pub fn row<T: Number>(
    reader: &mut Reader<'_>,
    may_be_empty: bool,
    row: &mut [T],
) -> Result<(), Refusal>
    ensures { RowRead T.number_of T.MOST may_be_empty (length row.old) reader.old reader.new row.new
        result }
{
    let stations = row.len();
    for (j, number) in row.iter_mut().enumerate() {
        *number = reader.take(may_be_empty, j + 1 == stations)?;
    }
    Ok(())
}

// The line of guest i.
pub fn guest_line(
    reader: &mut Reader<'_>,
    stations: usize,
    i: usize,
    own: &mut OwnTables,
) -> Result<(), Refusal>
    requires { (i < max_guests) × (stations ≤ max_stations) }
    ensures { GuestRead reader.old stations i own.old reader.new own.new result }
{
    own.tickets[i] = reader.take(false, false)?;
    own.amounts[i] = reader.take(false, false)?;
    let base = i * stations;
    row(reader, true, &mut own.bids[base..base + stations])
}
