// The engine for other languages, one archive: include/bay_market.h. What it exports keeps the parameters that callers
// in C give: each list by itself, and out parameters for an answer. Each answer is told by a function of its own: one
// for all would take a closure that writes its places.
#![tactic(auto)]

mod clear;
mod gates;
mod marks;
mod menus;
mod places;
mod post;
mod read;
mod read_csv;
mod reasons;
mod rows;
mod version;
mod write;
