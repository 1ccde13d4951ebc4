ghost use Rattle.std.specs.Prelude.{◌≡◌, ◌∷◌, [], List};
ghost use Rattle.body_replay.specs.Replay.{Mark};
ghost use Rattle.term_replay.specs.Noted.{Adds, mark_of};

use design_model::NodeCase;

/// What a visit of a body counts for. The process is the one whose body runs.
#[derive(Clone, Copy, PartialEq, Eq)]
pub enum Spot {
    /// The statement with this number.
    Line(u32),
    /// A case of the counted node with this number.
    Node { node: u32, case: NodeCase },
    /// A read of the word of a memory with this index, as declared.
    WordRead { memory: u32, index: u32 },
    /// A write of the word of a memory with this index, as declared.
    WordWrite { memory: u32, index: u32 },
}

/// How a word of a memory is used.
#[derive(Clone, Copy)]
pub enum Access {
    Read,
    Write,
}

impl Access {
    ghost use Rattle.term_replay.specs.Noted.{access_spot, spot_of};

    /// What this use of the word with this index counts for.
    pub fn spot(self, memory: u32, index: u32) -> Spot
        ensures { spot_of result ≡ access_spot self memory index }
    {
        match self {
            Access::Read => Spot::WordRead { memory, index },
            Access::Write => Spot::WordWrite { memory, index },
        }
    }
}

/// Takes what a run notes, in order: that a spot is hit, or that it may be hit and which thing is to blame for that.
pub trait Notes {
    /// What is known of a sink when a run starts: what a table of verdicts was given before, for example.
    ghost Start: { Type 0 };

    /// The sink may have taken these marks, in order, since this start. A sink need not keep the marks: that of a
    /// table of verdicts says which verdicts these marks give.
    ghost noted: { Start → List Mark → Self → Type 0 };

    /// A spot is hit where `doubt` is None, else it may be hit, and this thing is to blame. It takes no memory.
    fn note(&mut self, spot: Spot, doubt: Option<u32>)
        ensures { Adds noted self.old (mark_of spot doubt ∷ []) self.new };
}
