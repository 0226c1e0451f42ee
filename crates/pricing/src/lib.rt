// What is paid for a bay: the cut, charges, sales and the margin.
#![tactic(auto)]

pub mod charges;
pub mod cut;
pub mod margin;
pub mod sales;
