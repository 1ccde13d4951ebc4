use four_state::Four;

/// What a name means.
#[derive(Clone, Copy)]
pub enum Entry {
    /// A parameter.
    Constant(Four),
    /// A loop variable in one turn.
    Turn(Four),
    /// A net or a variable. Without a range it has one bit, with the number 0.
    Signal {
        /// The left bound of its range.
        high: u32,
        /// The right bound of its range.
        low: u32,
        /// Whether it is declared with a range.
        ranged: bool,
        /// From 1 to 128.
        width: u8,
        /// Whether it is declared as signed.
        signed: bool,
    },
    /// A memory, by the range of its words and by the range and the sign that each word has.
    Memory {
        /// The left bound of the range of its words.
        first: u32,
        /// The right bound of the range of its words.
        last: u32,
        /// The left bound of the range of a word's bits.
        high: u32,
        /// The right bound of the range of a word's bits.
        low: u32,
        /// Whether a word is declared with a range.
        ranged: bool,
        /// From 1 to 128.
        width: u8,
        /// Whether its words are signed.
        signed: bool,
    },
}
