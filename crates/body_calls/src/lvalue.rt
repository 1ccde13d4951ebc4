use known_state::Known;

/// What one part of an assignment writes (IEEE 1364-2001, clause 9.2), with its index evaluated.
#[derive(Clone, Copy)]
pub enum Lvalue {
    /// A whole signal.
    Signal(u32),
    /// The bits of a signal from the bit with the index `low` up, as many as the value has.
    Part { signal: u32, low: Known },
    /// The word of a memory that an index names.
    Word { memory: u32, index: Known },
}
