ghost use Rattle.std.specs.Prelude.{◌≡◌};
ghost use Rattle.vcd_reader.specs.Progress.{is_going, is_at_end};

/// How far a header was read. One in which a fault was found does not go on.
#[derive(Clone, Copy)]
pub(crate) enum Progress {
    /// It goes on.
    Going,
    /// It is whole, and the body comes.
    Done,
    /// It is whole, and the input has ended.
    AtEnd,
}

impl Progress {
    /// Whether the header goes on.
    pub(crate) fn is_going(self) -> bool
        ensures { result ≡ is_going self }
    {
        matches!(self, Progress::Going)
    }

    /// Whether the input has ended.
    pub(crate) fn is_at_end(self) -> bool
        ensures { result ≡ is_at_end self }
    {
        matches!(self, Progress::AtEnd)
    }
}
