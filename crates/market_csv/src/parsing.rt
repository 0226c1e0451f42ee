// One pass over a comma-separated market.
ghost use Rattle.std.specs.Prelude.{◌≤◌};
ghost use Rattle.model.specs.Limits.{max_stations};
ghost use Rattle.market_csv.specs.Parses.{GuestsRead, ParseRead};

use crate::lines;
use crate::own::OwnTables;
use crate::reader::Reader;
use model::answers::Counts;
use model::limits::MAX_GUESTS;
use model::refusal::Refusal;

// The lines of all guests: how many there are. The loop counts guests, and the number where it ends is the answer.
fn guest_lines(
    reader: &mut Reader<'_>,
    stations: usize,
    own: &mut OwnTables,
) -> Result<usize, Refusal>
    requires { stations ≤ max_stations }
    ensures { GuestsRead reader.old stations own.old own.new result }
{
    for i in 0..MAX_GUESTS {
        if reader.is_over() {
            return Ok(i);
        }
        lines::guest_line(reader, stations, i, own)?;
    }
    if reader.is_over() {
        return Ok(MAX_GUESTS);
    }
    Err(Refusal::CountsOutOfRange)
}

pub fn parse(text: &[u8], own: &mut OwnTables) -> Result<Counts, Refusal>
    ensures { ParseRead text.now own.new result }
{
    let mut reader = Reader::new(text);
    let stations = lines::asks_line(&mut reader, &mut own.asks)?;
    lines::row(&mut reader, false, &mut own.bays[..stations])?;
    let guests = guest_lines(&mut reader, stations, own)?;
    Ok(Counts { guests, stations })
}
