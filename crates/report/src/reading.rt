// A market in either layout, read into lent tables, which stay slices (model/lent).
ghost use Rattle.std.specs.Prelude.{◌≤◌, IfOk};
ghost use Rattle.model.specs.Limits.{max_guests, max_stations};
ghost use Rattle.model.specs.clauses.Lent.{lent_tables_in, lent_tables_out};
ghost use Rattle.report.specs.Readers.{ReadsAs};

use model::answers::Counts;
use model::page::Layout;
use model::refusal::Refusal;

// The layout is chosen when the program runs, and named by the definition `printed`: a `match` on its enum is the plain
// form.
pub fn read_as(
    layout: Layout,
    bytes: &[u8],
    amounts: &mut [u16],
    tickets: &mut [u32],
    asks: &mut [u32],
    bays: &mut [u16],
    bids: &mut [u32],
) -> Result<Counts, Refusal>
    ensures counts { IfOk result (λ c. (c.guests ≤ max_guests) × (c.stations ≤ max_stations)) }
    ensures read { ReadsAs layout bytes.now (lent_tables_in amounts tickets asks bays bids) result
        (lent_tables_out amounts tickets asks bays bids) }
{
    match layout {
        Layout::Sheet => sheet::read(bytes, amounts, tickets, asks, bays, bids),
        Layout::Csv => market_csv::read_csv(bytes, amounts, tickets, asks, bays, bids),
    }
}
