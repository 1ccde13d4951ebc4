/// A point of a bit of a signal or of a word of a memory.
#[derive(Clone, Copy)]
pub struct IndexPoint {
    /// The number of the signal or memory.
    pub thing: u32,
    /// The index as declared.
    pub index: u32,
    /// Of a bit: whether it goes from 1 to 0. Of a word: whether it is written.
    pub second: bool,
}
