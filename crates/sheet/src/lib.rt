// Market sheets. The reader: whatever bytes arrive, the market that they state or the refusal of their first fault. The
// writer: the shortest sheet that states an accepted market. What the parts require is said in plain inequalities, no
// more stations than a market has above all, for which a name or a type would say no more.
#![tactic(auto)]

mod checking;
mod empties;
mod fields;
mod filling;
mod passes;
mod putting;
mod writing;

ghost use Rattle.model.specs.clauses.EntryPoints.{Reads, Writes};
ghost use Rattle.model.specs.clauses.Lent.{lent_tables_in, lent_tables_out};

use crate::fields::Cursor;
use checks::faults;
use model::answers::Counts;
use model::lent::Market;
use model::refusal::Refusal;

// Reads a sheet into lent tables of the greatest size. They are written once the whole sheet is known to be good, so
// they stay five slices, as model/lent.rt says.
pub fn read(
    sheet: &[u8],
    amounts: &mut [u16],
    tickets: &mut [u32],
    asks: &mut [u32],
    bays: &mut [u16],
    bids: &mut [u32],
) -> Result<Counts, Refusal>
    ensures { Reads sheet.now (lent_tables_in amounts tickets asks bays bids) result
        (lent_tables_out amounts tickets asks bays bids) }
{
    faults::read_lengths_fault(
        amounts.len(),
        tickets.len(),
        asks.len(),
        bays.len(),
        bids.len(),
    )?;
    let counts = checking::check(sheet)?;
    let Counts { guests, stations } = counts;
    let at_stations = Cursor::new(sheet).skip(4);
    let at_rows = filling::fill_stations(at_stations, &mut asks[..stations], &mut bays[..stations]);
    filling::fill_rows(
        at_rows,
        stations,
        &mut amounts[..guests],
        &mut tickets[..guests],
        &mut bids[..guests * stations],
    );
    Ok(counts)
}

// Writes the shortest sheet that states a market over the first places of the output, or refuses and writes nothing.
// The length is known before a byte is written.
pub fn write(market: &Market<'_>, out: &mut [u8]) -> Result<usize, Refusal>
    ensures { Writes market.now out.old result out.new }
{
    let market = faults::accept(market)?;
    if out.len() < writing::sheet_length(&market) {
        return Err(Refusal::OutputTooShort);
    }
    Ok(writing::put_sheet(&market, out))
}
