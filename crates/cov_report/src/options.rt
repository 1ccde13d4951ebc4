ghost use Rattle.std.specs.Prelude.{◌≡◌, true, false};

/// What a report shows.
#[derive(Clone, Copy)]
pub struct Options {
    /// How much is shown of each block.
    pub level: Level,
    /// The metrics that are shown.
    pub letters: Letters,
    /// A block for each instance, and else one for each module.
    pub by_instance: bool,
    /// The points that are hit are listed, and else the others.
    pub covered: bool,
}

/// How much a report shows of each block.
#[derive(Clone, Copy)]
pub enum Level {
    /// The metrics.
    Summary,
    /// The points too.
    Detailed,
    /// The sources too, and what an undetermined point is left open by.
    Verbose,
}

/// The metrics that a report counts.
#[derive(Clone, Copy)]
pub struct Letters {
    /// Statements.
    pub line: bool,
    /// Cases of operators and conditions.
    pub logic: bool,
    /// Changes of bits.
    pub toggle: bool,
    /// States and arcs of state machines.
    pub fsm: bool,
    /// Reads and writes of the words of memories.
    pub memory: bool,
}

impl Letters {
    /// What a report counts where no letters are given: all metrics but memory.
    pub fn usual() -> Letters
        ensures { result ≡ record { line = true; logic = true; toggle = true; fsm = true; memory = false } }
    {
        Letters {
            line: true,
            logic: true,
            toggle: true,
            fsm: true,
            memory: false,
        }
    }
}
