use four_state::Truth;

/// The answer to a question about a vector of which not all bits are known.
#[derive(Clone, Copy, PartialEq, Eq)]
pub enum Maybe {
    /// Yes, whatever the vector is.
    Yes,
    /// No, whatever the vector is.
    No,
    /// It hangs on bits that are not sure, and this thing is to blame.
    Unsure(u32),
}

/// What a vector of which not all bits are known says as a condition.
#[derive(Clone, Copy)]
pub enum KnownTruth {
    /// This, whatever the vector is.
    Sure(Truth),
    /// It hangs on bits that are not sure, and this thing is to blame.
    Unsure(u32),
}
