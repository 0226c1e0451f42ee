// What a market adds to a book.
use model::limits::{MAX_GUESTS, MAX_STATIONS};
use model::money::Mills;

// What a round of so many guests and stations adds to each account, 0 where it adds nothing. Fixed arrays with counts:
// there is no heap. They are lists and no rows of records, as the clearing writes them.
#[derive(Clone, Copy)]
pub struct Round {
    pub charges: [u32; MAX_GUESTS],
    pub sold: [u32; MAX_STATIONS],
    pub paid: [u64; MAX_STATIONS],
    pub margin: Mills,
    pub guests: usize,
    pub stations: usize,
}
