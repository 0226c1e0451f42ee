// Comma-separated markets: whatever bytes arrive, the market that they state or the refusal of their first fault.
#![tactic(auto)]

mod bytes;
mod lines;
mod numbers;
mod own;
mod parsing;
mod reader;

ghost use Rattle.model.specs.clauses.EntryPoints.{ReadsCsv};
ghost use Rattle.model.specs.clauses.Lent.{lent_tables_in, lent_tables_out};

use crate::own::OwnTables;
use checks::faults;
use model::answers::Counts;
use model::limits::{MAX_BIDS, MAX_GUESTS, MAX_STATIONS};
use model::refusal::Refusal;

// Reads a text into lent tables of the greatest size. One pass fills tables of its own, 33 kB of stack, and they are
// copied once the whole text is known to be good. It takes what `sheet::read` takes; only the check of the lengths is
// the same in both, and that is one function.
pub fn read_csv(
    text: &[u8],
    amounts: &mut [u16],
    tickets: &mut [u32],
    asks: &mut [u32],
    bays: &mut [u16],
    bids: &mut [u32],
) -> Result<Counts, Refusal>
    ensures { ReadsCsv text.now (lent_tables_in amounts tickets asks bays bids) result
        (lent_tables_out amounts tickets asks bays bids) }
{
    faults::read_lengths_fault(
        amounts.len(),
        tickets.len(),
        asks.len(),
        bays.len(),
        bids.len(),
    )?;
    let mut own = OwnTables {
        amounts: [0; MAX_GUESTS],
        tickets: [0; MAX_GUESTS],
        asks: [0; MAX_STATIONS],
        bays: [0; MAX_STATIONS],
        bids: [0; MAX_BIDS],
    };
    let counts = parsing::parse(text, &mut own)?;
    own.copy_to(counts, amounts, tickets, asks, bays, bids);
    Ok(counts)
}
