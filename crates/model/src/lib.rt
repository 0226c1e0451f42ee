// All that is believed of the bay market, and the theorems about it: definitions and statements in specs/, proofs in
// proofs/. Here stand the types that they cite.
#![tactic(auto)]

pub mod account;
pub mod answers;
pub mod cell;
pub mod lent;
pub mod limits;
pub mod mechanism;
pub mod money;
pub mod page;
pub mod reason;
pub mod refusal;
pub mod rule;
