// What the entry points answer with; each may refuse instead.
use crate::money::{Mills, UnitPrice};

// A market's guests and stations.
#[derive(Clone, Copy)]
pub struct Counts {
    pub guests: usize,
    pub stations: usize,
}

// What a clearing comes to.
#[derive(Clone, Copy)]
pub struct Figures {
    pub cut: UnitPrice,
    pub margin: Mills,
}

// A guest's gain by the market as it is, and by the one with its other row.
#[derive(Clone, Copy)]
pub struct Gains {
    pub first: i64,
    pub second: i64,
}
