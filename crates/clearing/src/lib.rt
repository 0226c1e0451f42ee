// The clearing of a market: one call checks the lent tables, clears them and answers, or refuses and writes nothing.
// The lists are lent one by one, as they come over the C interface.
#![tactic(auto)]

pub mod accepted;

ghost use Rattle.model.specs.market.Outcome.{outcome_in};
ghost use Rattle.model.specs.clauses.EntryPoints.{ClearsUnder, Clears};
ghost use Rattle.model.specs.clauses.Lent.{results_in, results_out};

use checks::faults;
use model::answers::Figures;
use model::lent::Market;
use model::mechanism::Mechanism;
use model::refusal::Refusal;
use model::rule::Rule;

// Clears a market by a mechanism under a rule, or refuses it and writes nothing.
pub fn clear_under(
    mechanism: Mechanism,
    rule: Rule,
    market: &Market<'_>,
    stations: &mut [u16],
    charges: &mut [u32],
    sold: &mut [u32],
    paid: &mut [u64],
) -> Result<Figures, Refusal>
    ensures { ClearsUnder (outcome_in mechanism rule) market.now (results_in stations charges sold paid) result
        (results_out stations charges sold paid) }
{
    let accepted = faults::accept_for_clearing(market, stations, charges, sold, paid)?;
    Ok(accepted::clear_accepted(mechanism, rule, &accepted, stations, charges, sold, paid))
}

// The same under the rule of a number, which is looked at first: it may name none.
pub fn clear(
    mechanism: Mechanism,
    rule: u8,
    market: &Market<'_>,
    stations: &mut [u16],
    charges: &mut [u32],
    sold: &mut [u32],
    paid: &mut [u64],
) -> Result<Figures, Refusal>
    ensures { Clears (outcome_in mechanism) rule market.now (results_in stations charges sold paid) result
        (results_out stations charges sold paid) }
{
    let known = Rule::try_from(rule)?;
    clear_under(mechanism, known, market, stations, charges, sold, paid)
}
