ghost use Rattle.std.specs.Prelude.{◌≡◌};
ghost use Rattle.db_tools.specs.FaultText.{refusal_text};

/// Why a point was not excluded, or was not restored.
#[derive(Clone, Copy, PartialEq, Eq)]
pub enum ToolFault {
    /// The table has no point with this address.
    NoPoint,
    /// The point is excluded already.
    AlreadyOut,
    /// The point is not excluded.
    NotOut,
}

impl ToolFault {
    /// The number and the name, as messages have them.
    pub fn text(self) -> &'static str
        ensures { result.now ≡ refusal_text self }
    {
        match self {
            ToolFault::NoPoint => "6 NoPoint",
            ToolFault::AlreadyOut => "7 AlreadyOut",
            ToolFault::NotOut => "8 NotOut",
        }
    }
}
