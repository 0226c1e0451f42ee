// The first fault of a call that tries a row, in the order of document 02.
ghost use Rattle.std.specs.Prelude.{not, ◌++◌, ◌≡◌, IfOk, length};
ghost use Rattle.model.specs.Counting.{◌=?◌, ◌or◌};
ghost use Rattle.model.specs.Numbers.{answer_of_verdict, answer_of_check};
ghost use Rattle.model.specs.Verdicts.{first_fault};
ghost use Rattle.model.specs.market.Faults.{market_faults};
ghost use Rattle.model.specs.market.Changes.{try_faults};

use checks::{faults, scans};
use model::lent::{AcceptedMarket, Market};
use model::refusal::Refusal;

// Worths or a row of another length than there are stations: a line, which menu/faults has of other lists.
fn row_lengths_differ(m: usize, worths: usize, row: usize) -> bool
    ensures { result ≡ (not (worths =? m) or not (row =? m)) }
{
    (worths != m) | (row != m)
}

// Of the guest's number and lists, in a market of n guests and m stations, with so many places for changes: one by one,
// as the definition `try_faults` takes them.
fn row_fault(
    n: usize,
    m: usize,
    guest: usize,
    worths: &[u32],
    row: &[u32],
    changes: usize,
) -> Result<(), Refusal>
    ensures { answer_of_verdict result
        ≡ first_fault (try_faults n m guest worths.now row.now changes) }
{
    if faults::no_such_guest(guest, n) {
        return Err(Refusal::NoSuchGuest);
    }
    if row_lengths_differ(m, worths.len(), row.len()) {
        return Err(Refusal::LengthsDiffer);
    }
    if changes != n {
        return Err(Refusal::LentLengths);
    }
    if scans::prices_out_of_range(worths, row) {
        return Err(Refusal::BidOutOfRange);
    }
    Ok(())
}

// A market in which a guest's row can be tried. The market's own faults come first.
pub fn accept_row<'a>(
    market: &Market<'a>,
    guest: usize,
    worths: &[u32],
    row: &[u32],
    changes: usize,
) -> Result<AcceptedMarket<'a>, Refusal>
    ensures fault { let t = market.now in
        answer_of_check result ≡ first_fault (market_faults t
        ++ try_faults (length t.amounts) (length t.asks) guest worths.now row.now changes) }
    ensures same { IfOk result (λ t. t ≡ market.now) }
{
    let accepted = faults::accept(market)?;
    let amounts = market.amounts;
    let asks = market.asks;
    row_fault(amounts.len(), asks.len(), guest, worths, row, changes)?;
    Ok(accepted)
}
