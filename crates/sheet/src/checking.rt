// The checking pass of the reader: what a sheet comes to, before anything is written.
ghost use Rattle.std.specs.Prelude.{◌≡◌};
ghost use Rattle.model.specs.Numbers.{answer_of_reading};
ghost use Rattle.model.specs.Verdicts.{first_fault, giving};
ghost use Rattle.model.specs.sheet.Content.{guests as guestsOf, stations as stationsOf, sheet_faults};

use crate::fields::Cursor;
use crate::passes;
use model::answers::Counts;
use model::limits;
use model::refusal::Refusal;

pub fn check(sheet: &[u8]) -> Result<Counts, Refusal>
    ensures { answer_of_reading result ≡ giving (first_fault (sheet_faults sheet.now))
        (guestsOf sheet.now, stationsOf sheet.now) }
{
    let start = Cursor::new(sheet);
    start.needs(4)?;
    let (guests, next) = start.two();
    let (stations, header_end) = next.two();
    let guests = usize::from(guests);
    let stations = usize::from(stations);
    if limits::counts_out_of_range(guests, stations) {
        return Err(Refusal::CountsOutOfRange);
    }
    header_end.needs(6 * stations)?;
    let rows = header_end.skip(6 * stations);
    let end = passes::check_rows(rows, guests, stations)?;
    if !end.at_end() {
        return Err(Refusal::TrailingBytes);
    }
    Ok(Counts { guests, stations })
}
