// The mechanisms by which a market is cleared.
#[derive(Clone, Copy)]
pub enum Mechanism {
    // Document 01's.
    Truthful,
    // That of quiet days.
    Efficient,
}
