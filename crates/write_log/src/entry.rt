use known_state::Known;

/// What a signal had before a write, or what a branch that does not run now left of it.
#[derive(Clone, Copy)]
pub struct Overwritten {
    /// The number of the signal.
    pub signal: u32,
    /// What bodies read of it then.
    pub value: Known,
}

/// An undecided test that is around: how many entries each list of the log had when it began, and which branch runs.
#[derive(Clone, Copy)]
pub struct Test {
    /// How many writes could be undone.
    pub done: usize,
    /// How many writes had been undone and could be made again.
    pub undone: usize,
    /// Whether the second branch runs.
    pub second: bool,
    /// The thing to blame where the branches leave different values.
    pub test: u32,
}
