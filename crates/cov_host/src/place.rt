/// Where a token begins: the source by its number from 1, and the line and the column in bytes from 1.
#[derive(Clone, Copy, PartialEq, Eq)]
pub struct Place {
    /// The number of the source, from 1 in the order of adding.
    pub source: u32,
    /// The line, from 1.
    pub line: u32,
    /// The column in bytes, from 1.
    pub column: u32,
}
