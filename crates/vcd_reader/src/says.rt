ghost use Rattle.std.specs.Prelude.{◌≡◌};
ghost use Rattle.vcd_reader.specs.Hearing.{change_says, last_saying};

use crate::Saying;

/// What a word says that is heard.
#[derive(Clone, Copy)]
pub(crate) enum Says {
    Nothing,
    Time(u64),
    /// The change that is kept.
    Change,
    /// The dump goes off.
    Off,
    /// The dump goes on, at this time if there was one.
    On(Option<u64>),
}

impl Says {
    /// The change that is kept, or nothing. It is dropped where the dump is off.
    pub(crate) fn change(is_on: bool, is_heard: bool) -> Self
        ensures { result ≡ change_says is_on is_heard }
    {
        if is_on && is_heard {
            Says::Change
        } else {
            Says::Nothing
        }
    }

    /// What the body says at the end of the input, where the last word says this, and the change that is kept is one of
    /// this code.
    pub(crate) fn at_end(self, code: u32) -> Saying
        ensures { result ≡ last_saying self code }
    {
        match self {
            Says::Nothing => Saying::End,
            Says::Time(time) => Saying::Time(time),
            Says::Change => Saying::Change(code),
            Says::Off => Saying::Off,
            Says::On(time) => Saying::On(time),
        }
    }
}
