//! What the cells hold.

/// The value of a cell.
#[derive(Drop)]
pub enum CellValue<F, S> {
    First(F),
    Rest(S),
}

/// What cells are made of.
pub struct OpeningValues<F, S> {
    pub first: F,
    pub rest: Vec<S>,
    pub seats: u32,
}
