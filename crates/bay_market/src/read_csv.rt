// The reader of comma-separated markets for other languages: include/bay_market.h.
ghost use Rattle.model.specs.clauses.Lent.{lent_tables_in, lent_tables_out};
ghost use Rattle.model.specs.clauses.EntryPoints.{reading_csv};
ghost use Rattle.model.specs.Promises.{KeepsOut};

use crate::read;

#[unsafe(no_mangle)]
pub extern "C" fn bay_market_read_csv(
    text: &[u8],
    amounts: &mut [u16],
    tickets: &mut [u32],
    asks: &mut [u32],
    bays: &mut [u16],
    bids: &mut [u32],
    n: &mut u16,
    m: &mut u16,
) -> u8
    ensures { KeepsOut (reading_csv text.now)
        (lent_tables_in amounts tickets asks bays bids) (n.old, m.old) result
        (lent_tables_out amounts tickets asks bays bids) (n.new, m.new) }
{
    read::tell_counts(
        market_csv::read_csv(text, amounts, tickets, asks, bays, bids),
        n,
        m,
    )
}
