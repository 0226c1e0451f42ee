// The first fault of a call for a price list or for gains, in the order of its table.
ghost use Rattle.std.specs.Prelude.{◌/◌, ◌%◌, ◌<◌, not, ◌++◌, ◌≡◌, IfOk, length};
ghost use Rattle.model.specs.Counting.{◌=?◌, ◌or◌};
ghost use Rattle.model.specs.Numbers.{answer_of_verdict, answer_of_check};
ghost use Rattle.model.specs.Verdicts.{first_fault};
ghost use Rattle.model.specs.market.Faults.{market_faults};
ghost use Rattle.model.specs.market.Menus.{list_faults, gain_faults};

use checks::{faults, scans};
use model::lent::{AcceptedMarket, Market};
use model::refusal::Refusal;

// Lists of another length than there are stations: a line, which whatif/faults has of other lists.
fn lists_differ(m: usize, bars: usize, prices: usize) -> bool
    ensures { result ≡ (not (bars =? m) or not (prices =? m)) }
{
    (bars != m) | (prices != m)
}

// Of the guest's number and the lent lists, in a market of n guests and m stations.
fn list_fault(n: usize, m: usize, guest: usize, bars: usize, prices: usize) -> Result<(), Refusal>
    ensures { answer_of_verdict result ≡ first_fault (list_faults n m guest bars prices) }
{
    if faults::no_such_guest(guest, n) {
        return Err(Refusal::NoSuchGuest);
    }
    if lists_differ(m, bars, prices) {
        return Err(Refusal::LentLengths);
    }
    Ok(())
}

// A market in which a guest's price list can be told. The market's own faults come first.
pub fn accept_listing<'a>(
    market: &Market<'a>,
    guest: usize,
    bars: usize,
    prices: usize,
) -> Result<AcceptedMarket<'a>, Refusal>
    ensures fault { let t = market.now in
        answer_of_check result ≡ first_fault (market_faults t
        ++ list_faults (length t.amounts) (length t.asks) guest bars prices) }
    ensures same { IfOk result (λ t. t ≡ market.now) }
{
    let accepted = faults::accept(market)?;
    let amounts = accepted.amounts;
    let asks = accepted.asks;
    list_fault(amounts.len(), asks.len(), guest, bars, prices)?;
    Ok(accepted)
}

// Worths of another length, or a row that is not whole.
fn rows_differ(m: usize, worths: usize, rows: usize) -> bool
    requires { 0 < m }
    ensures { result ≡ (not (worths =? m) or not (rows % m =? 0)) }
{
    (worths != m) | (rows % m != 0)
}

// Of the guest's number, worths and rows, with so many places for gains: one by one, as the definition `gain_faults`
// takes them.
fn gain_fault(
    n: usize,
    m: usize,
    guest: usize,
    worths: &[u32],
    rows: &[u32],
    gains: usize,
) -> Result<(), Refusal>
    requires { 0 < m }
    ensures { answer_of_verdict result
        ≡ first_fault (gain_faults n m guest worths.now rows.now gains) }
{
    if faults::no_such_guest(guest, n) {
        return Err(Refusal::NoSuchGuest);
    }
    if rows_differ(m, worths.len(), rows.len()) {
        return Err(Refusal::LengthsDiffer);
    }
    if gains != rows.len() / m {
        return Err(Refusal::LentLengths);
    }
    if scans::prices_out_of_range(worths, rows) {
        return Err(Refusal::BidOutOfRange);
    }
    Ok(())
}

// A market in which a guest's rows can be held to its price list. The market's own faults come first.
pub fn accept_gaining<'a>(
    market: &Market<'a>,
    guest: usize,
    worths: &[u32],
    rows: &[u32],
    gains: usize,
) -> Result<AcceptedMarket<'a>, Refusal>
    ensures fault { let t = market.now in
        answer_of_check result ≡ first_fault (market_faults t
        ++ gain_faults (length t.amounts) (length t.asks) guest worths.now rows.now gains) }
    ensures same { IfOk result (λ t. t ≡ market.now) }
{
    let accepted = faults::accept(market)?;
    let amounts = accepted.amounts;
    let asks = accepted.asks;
    gain_fault(amounts.len(), asks.len(), guest, worths, rows, gains)?;
    Ok(accepted)
}
