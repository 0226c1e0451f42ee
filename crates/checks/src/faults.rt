// The first fault of a market's tables, and of a call that clears or explains them, in the order of document 01's
// table; and the market as an accepted one where there is none.
ghost use Rattle.std.specs.Prelude.{◌*◌, ◌≤◌, not, [], ◌∷◌, ◌≡◌, IfOk, length};
ghost use Rattle.model.specs.Limits.{max_guests, max_stations};
ghost use Rattle.model.specs.Counting.{◌<?◌, ◌=?◌, ◌or◌, any};
ghost use Rattle.model.specs.Numbers.{answer_of_verdict, answer_of_check};
ghost use Rattle.model.specs.Verdicts.{first_fault};
ghost use Rattle.model.specs.market.Faults.{Accepted, counts, lengths, values, verdict, table_faults, explained_faults};
ghost use Rattle.model.specs.market.Outcome.{results};
ghost use Rattle.model.specs.sheet.Lent.{table_lengths};

use crate::{scans, tickets};
use model::lent::{AcceptedMarket, Market};
use model::limits;
use model::limits::{MAX_AMOUNT, MAX_BAYS, MAX_BIDS, MAX_GUESTS, MAX_PRICE, MAX_STATIONS};
use model::refusal::Refusal;

fn explained_lengths_differ(n: usize, m: usize, codes: usize, outcomes: usize) -> bool
    requires { (n ≤ max_guests) × (m ≤ max_stations) }
    ensures { result ≡ (not (codes =? n * m) or any (outcomes ∷ []) (λ k. not (k =? n))) }
{
    (codes != n * m) | (outcomes != n)
}

// The first fault of a value: all asks, then all bays, then all amounts, then all bids, then two equal tickets.
pub fn value_fault(market: &Market<'_>) -> Result<(), Refusal>
    ensures { answer_of_verdict result ≡ first_fault (values market.now) }
{
    if scans::any_outside(market.asks, 0, MAX_PRICE) {
        return Err(Refusal::AskOutOfRange);
    }
    if scans::any_outside(market.bays, 1, MAX_BAYS) {
        return Err(Refusal::BaysOutOfRange);
    }
    if scans::any_outside(market.amounts, 1, MAX_AMOUNT) {
        return Err(Refusal::AmountOutOfRange);
    }
    if scans::any_outside(market.bids, 0, MAX_PRICE) {
        return Err(Refusal::BidOutOfRange);
    }
    if tickets::any_repeats(market.tickets) {
        return Err(Refusal::TicketsRepeat);
    }
    Ok(())
}

// The counts, then the lengths of the tables. The counts come first, so that n times m cannot wrap. Six numbers and no
// market: docs/DEMANDS.md has it as a function of any lengths, and of a market it is `market_size_fault`.
pub fn size_fault(
    n: usize,
    m: usize,
    bays: usize,
    tickets: usize,
    bids: usize,
    width: usize,
) -> Result<(), Refusal>
    ensures { answer_of_verdict result ≡ first_fault (counts n m ∷ lengths n m bays tickets bids width ∷ []) }
{
    if limits::counts_out_of_range(n, m) {
        return Err(Refusal::CountsOutOfRange);
    }
    let differ = (bays != m) | (tickets != n) | (bids != n * m) | (width != m);
    if differ {
        return Err(Refusal::LengthsDiffer);
    }
    Ok(())
}

// Of a market's.
pub fn market_size_fault(market: &Market<'_>) -> Result<(), Refusal>
    ensures { let t = market.now in
        answer_of_verdict result ≡ first_fault (counts (length t.amounts) (length t.asks)
        ∷ lengths (length t.amounts) (length t.asks) (length t.bays) (length t.tickets) (length t.bids) t.width
        ∷ []) }
{
    size_fault(
        market.amounts.len(),
        market.asks.len(),
        market.bays.len(),
        market.tickets.len(),
        market.bids.len(),
        market.width,
    )
}

// A market without a fault, its bids through their view.
pub fn accepted<'a>(market: &Market<'a>) -> AcceptedMarket<'a>
    requires { Accepted market.now }
    ensures { result ≡ market.now }
{
    let asks = market.asks;
    AcceptedMarket {
        asks,
        bays: market.bays,
        amounts: market.amounts,
        tickets: market.tickets,
        bids: views::bids_through_view(market.bids, market.width, asks.len()),
    }
}

// A market, or its first fault.
pub fn accept<'a>(market: &Market<'a>) -> Result<AcceptedMarket<'a>, Refusal>
    ensures fault { answer_of_check result ≡ verdict market.now }
    ensures same { IfOk result (λ t. t ≡ market.now) }
{
    market_size_fault(market)?;
    value_fault(market)?;
    Ok(accepted(market))
}

// Of a call that clears it under a known rule, with the lists that it is lent.
pub fn accept_for_clearing<'a>(
    market: &Market<'a>,
    stations: &[u16],
    charges: &[u32],
    sold: &[u32],
    paid: &[u64],
) -> Result<AcceptedMarket<'a>, Refusal>
    ensures fault { answer_of_check result
        ≡ first_fault (table_faults market.now (results stations.now charges.now sold.now paid.now)) }
    ensures same { IfOk result (λ t. t ≡ market.now) }
{
    market_size_fault(market)?;
    let n = market.amounts.len();
    let m = market.asks.len();
    let differ = (stations.len() != n)
        | (charges.len() != n)
        | (sold.len() != m)
        | (paid.len() != m);
    if differ {
        return Err(Refusal::LentLengths);
    }
    value_fault(market)?;
    Ok(accepted(market))
}

// Of a call that explains a clearing under a known rule, with a code table and an outcome table of so many places.
pub fn accept_for_explaining<'a>(
    market: &Market<'a>,
    codes: usize,
    outcomes: usize,
) -> Result<AcceptedMarket<'a>, Refusal>
    ensures fault { answer_of_check result ≡ first_fault (explained_faults market.now codes (outcomes ∷ [])) }
    ensures same { IfOk result (λ t. t ≡ market.now) }
{
    market_size_fault(market)?;
    if explained_lengths_differ(market.amounts.len(), market.asks.len(), codes, outcomes) {
        return Err(Refusal::LentLengths);
    }
    value_fault(market)?;
    Ok(accepted(market))
}

// Tables of such lengths that a market is read into: all of the greatest size.
pub fn read_lengths_fault(
    amounts: usize,
    tickets: usize,
    asks: usize,
    bays: usize,
    bids: usize,
) -> Result<(), Refusal>
    ensures { answer_of_verdict result ≡ first_fault (table_lengths amounts tickets asks bays bids ∷ []) }
{
    let differ = (amounts != MAX_GUESTS)
        | (tickets != MAX_GUESTS)
        | (asks != MAX_STATIONS)
        | (bays != MAX_STATIONS)
        | (bids != MAX_BIDS);
    if differ {
        return Err(Refusal::LentLengths);
    }
    Ok(())
}

// Whether a guest's number, from 1 on, names none of n.
pub fn no_such_guest(guest: usize, n: usize) -> bool
    ensures { result ≡ (guest =? 0 or n <? guest) }
{
    (guest == 0) | (n < guest)
}
