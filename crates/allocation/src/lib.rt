// Who gets a bay where, in a truthful round: stations take their turns, and each guest its best offer.
#![tactic(auto)]

pub mod assignment;
pub mod holding;
mod offers;
pub mod selection;
pub mod signed;
pub mod ties;
pub mod totals;
mod turns;
