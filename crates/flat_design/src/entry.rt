use design_model::Range;
use four_state::Four;

/// A net or a variable as a name sees it.
#[derive(Clone, Copy)]
pub struct SignalEntry {
    /// Its place in the design's list of signals.
    pub number: u32,
    /// None for one bit without a range.
    pub range: Option<Range>,
    /// Whether it is declared as signed.
    pub signed: bool,
    /// Whether it is declared as a net here, and not as a variable.
    pub net: bool,
    /// Whether it is declared as an input here.
    pub input: bool,
}

/// A memory as a name sees it.
#[derive(Clone, Copy)]
pub struct MemoryEntry {
    /// Its place in the design's list of memories.
    pub number: u32,
    /// The range of its words.
    pub words: Range,
    /// The range of the bits of a word, None for one bit without a range.
    pub range: Option<Range>,
    /// Whether its words are signed.
    pub signed: bool,
}

/// What a name means in an instance of a module.
#[derive(Clone, Copy)]
pub enum Entry {
    /// A parameter (IEEE 1364-2001, 3.11).
    Constant(Four),
    /// A loop variable in one turn.
    Turn(Four),
    Signal(SignalEntry),
    Memory(MemoryEntry),
    /// An integer that is no signal.
    LoopVariable,
    /// The name of an instance.
    Instance,
    /// Where only constants are needed: it is declared as something else, or later.
    NoConstant,
    /// Its declaration has a fault.
    Faulty,
}

/// A signal or a memory, by its place in the design's list of signals or of memories.
#[derive(Clone, Copy)]
pub enum Thing {
    Signal(u32),
    Memory(u32),
}

/// The kind of process that an assignment belongs to.
#[derive(Clone, Copy)]
pub enum Mode {
    /// A continuous assignment, or the connection of an output.
    Continuous,
    /// An `always @*`, or an `always` with a list of names.
    Combinational,
    /// An `always` with a list of edges.
    Clocked,
}
