// Who gets a bay where, in a quiet round: guests are served one at a time.
#![tactic(auto)]

mod criticals;
pub mod efficient;
mod line;
mod opening;
mod round;
mod seats;
mod service;
mod standing;
mod takers;
