// What decided: the code of each guest and station of a truthful round, and each guest's outcome.
#![tactic(auto)]

mod accepted;
mod codes;
pub mod explained;
pub mod outcomes;
