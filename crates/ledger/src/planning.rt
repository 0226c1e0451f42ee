// The round that a market clears to.
ghost use Rattle.ledger.specs.Plans.{Planned, PlannedUnder};

use crate::round::Round;
use model::lent::Market;
use model::limits;
use model::limits::{MAX_GUESTS, MAX_STATIONS};
use model::mechanism::Mechanism;
use model::refusal::Refusal;
use model::rule::Rule;

// The round that the market clears to under a rule, in arrays of the most guests or stations: there is no heap.
fn plan_under(rule: Rule, market: &Market<'_>) -> Result<Round, Refusal>
    ensures { PlannedUnder rule market.now result }
{
    let n = market.amounts.len();
    let m = market.asks.len();
    if limits::counts_out_of_range(n, m) {
        return Err(Refusal::CountsOutOfRange);
    }
    let mut seats = [0u16; MAX_GUESTS];
    let mut charges = [0u32; MAX_GUESTS];
    let mut sold = [0u32; MAX_STATIONS];
    let mut paid = [0u64; MAX_STATIONS];
    let figures = clearing::clear_under(
        Mechanism::Truthful,
        rule,
        market,
        &mut seats[..n],
        &mut charges[..n],
        &mut sold[..m],
        &mut paid[..m],
    )?;
    Ok(Round {
        charges,
        sold,
        paid,
        margin: figures.margin,
        guests: n,
        stations: m,
    })
}

// The same under the rule of a number, which is looked at first: it may name none.
pub fn plan(rule: u8, market: &Market<'_>) -> Result<Round, Refusal>
    ensures { Planned rule market.now result }
{
    let known = Rule::try_from(rule)?;
    plan_under(known, market)
}
