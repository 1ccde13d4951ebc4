ghost use Rattle.std.specs.Prelude.{◌≡◌, ◌<◌};

use crate::digits::Digits;
use crate::past::Past;
use four_state::Four;

/// A change to some digits, whose code is to come.
#[derive(Clone, Copy)]
pub(crate) struct VectorStart {
    pub(crate) digits: Digits,
    /// The byte at which the word of the digits begins.
    pub(crate) at: u64,
    ghost some: { 0 < digits.count },
}

/// What the words so far have begun.
#[derive(Clone, Copy)]
pub(crate) enum Begun {
    Nothing,
    Digits(VectorStart),
    /// A change that is passed over, whose code is to come.
    Passed,
    Comment,
}

/// A change of a code to a value.
#[derive(Clone, Copy)]
pub(crate) struct Change {
    pub(crate) code: u32,
    pub(crate) value: Four,
}

impl Change {
    /// No change was heard yet.
    pub(crate) fn none() -> Self {
        Change {
            code: 0,
            value: Four::make(1, false, 0, 0),
        }
    }
}

/// What the reader of the body is in the middle of.
#[derive(Clone, Copy)]
pub(crate) struct Reading {
    pub(crate) past: Past,
    pub(crate) begun: Begun,
    /// The last change that was heard.
    pub(crate) change: Change,
}

impl Reading {
    ghost use Rattle.vcd_reader.specs.Body.{BodyReading, has_begun};
    ghost use Rattle.vcd_reader.specs.Holding.{IsReading};

    /// Whether a change or a comment has begun.
    pub(crate) fn has_begun(&self) -> bool
        ensures { (reading : BodyReading) → IsReading self.now reading → result ≡ has_begun reading.begun }
    {
        !matches!(self.begun, Begun::Nothing)
    }
}
