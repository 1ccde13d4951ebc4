/// A place in a table of numbers.
#[derive(Clone, Copy)]
pub struct Slot {
    /// The number of the row.
    pub row: u32,
    /// The number of the column. The columns of a row may begin anywhere.
    pub column: usize,
}
