// A guest's outcome, as a record.
ghost use Rattle.std.specs.Prelude.{◌≡◌};
ghost use Rattle.model.specs.Numbers.{station_of, charge_of, loss_of};
ghost use Rattle.explain.specs.Outcomes.{reason_of, record_of, record_at};

use crate::explained::OutcomeArrays;
use model::limits::MAX_GUESTS;
use model::money::Mills;
use model::reason::{GuestOutcome, GuestResult, Reason};

// Of a code from 1 to 4. It cannot fail, as a `TryFrom` could: the codes are this crate's own.
#[tactic(auto, unfolding(crate::specs::Outcomes::reason_of), using(crate::proofs::Tests::tests))]
fn reason(code: u8) -> Reason
    ensures { result ≡ reason_of code }
{
    match code {
        1 => Reason::NoBid,
        2 => Reason::NotOpen,
        3 => Reason::BelowCut,
        _ => Reason::Outbid,
    }
}

// A loss where there is a code, else a win.
#[tactic(auto, unfolding(crate::specs::Outcomes::record_of), using(crate::proofs::Tests::tests))]
pub fn guest_outcome(station: u16, charge: Mills, loss: u8) -> GuestOutcome
    ensures { result ≡ record_of station charge loss }
{
    let result = if loss == 0 {
        GuestResult::Win { station, charge }
    } else {
        GuestResult::Loss(reason(loss))
    };
    GuestOutcome { result }
}

// What a record holds, 0 where it has none of it: the lent tables hold it so over the C interface.
#[tactic(auto, unfolding(model::specs::Numbers::station_of))]
pub fn station_in(outcome: GuestOutcome) -> u16
    ensures { result ≡ station_of outcome.result }
{
    match outcome.result {
        GuestResult::Win { station, .. } => station,
        GuestResult::Loss(_) => 0,
    }
}

#[tactic(auto, unfolding(model::specs::Numbers::charge_of))]
pub fn charge_in(outcome: GuestOutcome) -> Mills
    ensures { result.0 ≡ charge_of outcome.result }
{
    match outcome.result {
        GuestResult::Win { charge, .. } => charge,
        GuestResult::Loss(_) => Mills(0),
    }
}

#[tactic(auto, unfolding(model::specs::Numbers::loss_of))]
pub fn loss_in(outcome: GuestOutcome) -> u8
    ensures { result ≡ loss_of outcome.result }
{
    match outcome.result {
        GuestResult::Win { .. } => 0,
        GuestResult::Loss(reason) => u8::from(reason),
    }
}

// Guest i's record.
#[tactic(auto, unfolding(crate::specs::Outcomes::record_at), using(crate::proofs::Tests::tests))]
pub fn outcome_at(e: &OutcomeArrays, i: usize) -> GuestOutcome
    ensures { result ≡ record_at e.now i }
{
    if i < MAX_GUESTS {
        guest_outcome(e.stations[i], Mills::from(e.charges[i]), e.reasons[i])
    } else {
        guest_outcome(0, Mills(0), 0)
    }
}
