ghost use Rattle.std.specs.Prelude.{◌≡◌};
ghost use Rattle.block_runs.specs.Notes.{is_weak_way, way_of};

/// How sure it is that a block runs in a step.
#[derive(Clone, Copy)]
pub enum Certainty {
    /// It runs, in a step that ends at this time: what it visits is hit, and what it may visit is in doubt.
    Clean { time: u64 },
    /// It runs, and notes nothing.
    Quiet,
    /// It runs if this thing has changed, which is not sure: what it may visit is in doubt by the thing.
    Perhaps { time: u64, thing: u32 },
    /// It may run any number of times, on any values: each write of its text may be made, and all that it may visit is in
    /// doubt by this thing.
    Weak { time: u64, thing: u32 },
}

impl Certainty {
    /// Whether the body is not evaluated.
    pub(crate) fn is_weak(self) -> bool
        ensures { result ≡ is_weak_way (way_of self) }
    {
        match self {
            Certainty::Weak { .. } => true,
            _ => false,
        }
    }
}
