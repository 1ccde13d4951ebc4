ghost use Rattle.std.specs.Prelude.{◌≡◌};
ghost use Rattle.point_marks.specs.Marking.{with_doubt};

/// Why a point may have been hit: this signal or memory is in doubt at this time.
#[derive(Clone, Copy)]
pub struct Doubt {
    /// The number of the signal or memory.
    pub thing: u32,
    /// The time, in units of the dump.
    pub time: u64,
}

/// How a point came out.
#[derive(Clone, Copy)]
pub enum Verdict {
    Hit,
    Missed,
    /// The first doubt.
    Undetermined(Doubt),
}

impl Verdict {
    /// The verdict after a doubt: a hit stays, and so does the first doubt.
    pub(crate) fn with_doubt(self, doubt: Doubt) -> Self
        ensures { result ≡ with_doubt doubt self }
    {
        match self {
            Verdict::Missed => Verdict::Undetermined(doubt),
            Verdict::Hit | Verdict::Undetermined(_) => self,
        }
    }
}
