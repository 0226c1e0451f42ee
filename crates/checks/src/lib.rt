// The checks of a market that every call on one makes first, and the scans that they are made of.
#![tactic(auto)]

pub mod faults;
pub mod scans;
pub mod tickets;
