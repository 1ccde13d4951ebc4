/// What the limits of a design count.
#[derive(Clone, Copy)]
pub struct Counts {
    /// Signals.
    pub signals: u32,
    /// Processes.
    pub processes: u32,
    /// The words of all memories.
    pub words: u32,
    /// Instances.
    pub instances: u32,
    /// Statements, with each turn of a loop written out.
    pub statements: u32,
    /// The text of instances, statements and turns of loops that is gone through: its parts, and the bytes of its names.
    pub text: usize,
}
