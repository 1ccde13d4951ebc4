use known_state::Known;

/// What a word of a memory had before a write, or what a branch that does not run now left of it.
#[derive(Clone, Copy)]
pub struct OverwrittenWord {
    /// The place of the memory in the list of memories.
    pub memory: usize,
    /// The place of the word, counted from the one with the least index.
    pub place: usize,
    /// What was known of the word then.
    pub value: Known,
    /// Whether the run of a body had written the memory by a blocking assignment then.
    pub written: bool,
}
