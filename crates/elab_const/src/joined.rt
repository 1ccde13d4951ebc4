ghost use Rattle.std.specs.Prelude.{◌≡◌, ◌<◌, ◌≤◌, ◌+◌, ◌^◌, ◌++◌, length, None};
ghost use Rattle.elab_const.specs.Meaning.{IsJoined, bits_before};

use four_state::Four;

/// Parts side by side: their widths together, and their bits, if these are from 1 to 128.
#[derive(Clone, Copy)]
pub(crate) struct Joined {
    pub(crate) width: u128,
    pub(crate) value: Option<Four>,
}

impl Joined {
    /// No parts.
    pub(crate) fn empty() -> Joined
        ensures width { result.width ≡ 0 }
        ensures value { result.value ≡ None }
    {
        Joined {
            width: 0,
            value: None,
        }
    }

    /// The parts with one more, which has the lowest bits.
    pub(crate) fn with(self, part: &Four) -> Joined
        requires small { self.width + 128 < 2 ^ 128 }
        requires whole { IsJoined self }
        ensures width { result.width ≡ self.width + length part.now.bits }
        ensures bits { result.width ≤ 128 → bits_before result.value ≡ part.now.bits ++ bits_before self.value }
        ensures whole { IsJoined result }
    {
        let width = self.width + part.width() as u128;
        let value = if width <= 128 {
            Some(behind(self.value, part))
        } else {
            None
        };
        Joined { width, value }
    }
}

/// A part, after the parts before it if there are any.
fn behind(before: Option<Four>, part: &Four) -> Four
    requires { length (bits_before before) + length part.now.bits ≤ 128 }
    ensures { result.bits ≡ part.now.bits ++ bits_before before }
{
    match before {
        Some(high) => Four::append(&high, part),
        None => *part,
    }
}
