// The cells of the grid.

// A cell by its first and second coordinate.
#[derive(Clone, Copy)]
pub struct Cell {
    pub first: u16,
    pub second: u16,
}
