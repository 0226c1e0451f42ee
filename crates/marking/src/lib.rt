// A clearing with the places held and each station's floor, and the mark of one that is handed in. The lists are lent
// one by one, as they come over the C interface.
#![tactic(auto)]

mod accepted;
mod faults;
mod floors;
mod places;
mod submissions;

ghost use Rattle.model.specs.clauses.EntryPoints.{ClearsFully, Marks};
ghost use Rattle.model.specs.clauses.Lent.{full_results_in, full_results_out};
ghost use Rattle.marking.specs.Accepted.{ClearsFullyUnder, MarksUnder};

use model::answers::Figures;
use model::lent::{Market, Submission};
use model::refusal::Refusal;
use model::rule::Rule;

// Clears a market under a rule, with places and floors, or refuses it and writes nothing.
fn clear_marked_under(
    rule: Rule,
    market: &Market<'_>,
    stations: &mut [u16],
    charges: &mut [u32],
    sold: &mut [u32],
    paid: &mut [u64],
    places: &mut [u8],
    floors: &mut [u32],
) -> Result<Figures, Refusal>
    ensures { ClearsFullyUnder rule market.now (full_results_in stations charges sold paid places floors) result
        (full_results_out stations charges sold paid places floors) }
{
    let accepted = faults::accept_for_marking(
        market, stations, charges, sold, paid, places, floors,
    )?;
    Ok(accepted::clear_accepted(
        rule, &accepted, stations, charges, sold, paid, places, floors,
    ))
}

// The same under the rule of a number, which is looked at first: it may name none.
pub fn clear_marked(
    rule: u8,
    market: &Market<'_>,
    stations: &mut [u16],
    charges: &mut [u32],
    sold: &mut [u32],
    paid: &mut [u64],
    places: &mut [u8],
    floors: &mut [u32],
) -> Result<Figures, Refusal>
    ensures { ClearsFully rule market.now (full_results_in stations charges sold paid places floors) result
        (full_results_out stations charges sold paid places floors) }
{
    let known = Rule::try_from(rule)?;
    clear_marked_under(known, market, stations, charges, sold, paid, places, floors)
}

// Marks a clearing that is handed in, under a rule, or refuses it.
fn mark_under(rule: Rule, market: &Market<'_>, submission: &Submission<'_>) -> Result<bool, Refusal>
    ensures { MarksUnder rule market.now submission.now result }
{
    let accepted = faults::accept_for_marking(
        market,
        submission.stations,
        submission.charges,
        submission.sold,
        submission.paid,
        submission.places,
        submission.floors,
    )?;
    Ok(submissions::is_correct(rule, &accepted, submission))
}

// The same under the rule of a number, which is looked at first: it may name none.
pub fn mark(rule: u8, market: &Market<'_>, submission: &Submission<'_>) -> Result<bool, Refusal>
    ensures { Marks rule market.now submission.now result }
{
    let known = Rule::try_from(rule)?;
    mark_under(known, market, submission)
}
