// What is told of a market, by value: each guest's station, charge and loss.
ghost use Rattle.explain.specs.Explained.{ExplainedUnder, ExplainedBy};

use crate::accepted;
use checks::faults;
use model::lent::Market;
use model::limits::MAX_GUESTS;
use model::refusal::Refusal;
use model::rule::Rule;

// Of so many guests; beyond them the arrays are open. Fixed arrays with a count: there is no heap.
#[derive(Clone, Copy)]
pub struct OutcomeArrays {
    pub stations: [u16; MAX_GUESTS],
    pub charges: [u32; MAX_GUESTS],
    pub reasons: [u8; MAX_GUESTS],
    pub guests: usize,
}

// Explains a market under a rule, for an outcome table of so many places, or refuses it and writes nothing.
pub fn explained_under(
    rule: Rule,
    market: &Market<'_>,
    outcomes: usize,
    codes: &mut [u8],
) -> Result<OutcomeArrays, Refusal>
    ensures { ExplainedUnder rule market.now outcomes codes.old result codes.new }
{
    let accepted = faults::accept_for_explaining(market, codes.len(), outcomes)?;
    let guests = accepted.amounts.len();
    let mut stations = [0u16; MAX_GUESTS];
    let mut charges = [0u32; MAX_GUESTS];
    let mut reasons = [0u8; MAX_GUESTS];
    accepted::explain_accepted(
        rule,
        &accepted,
        codes,
        &mut stations[..guests],
        &mut charges[..guests],
        &mut reasons[..guests],
    );
    Ok(OutcomeArrays {
        stations,
        charges,
        reasons,
        guests,
    })
}

// The same under the rule of a number, which is looked at first: it may name none.
pub fn explained(
    rule: u8,
    market: &Market<'_>,
    outcomes: usize,
    codes: &mut [u8],
) -> Result<OutcomeArrays, Refusal>
    ensures { ExplainedBy rule market.now outcomes codes.old result codes.new }
{
    let known = Rule::try_from(rule)?;
    explained_under(known, market, outcomes, codes)
}
