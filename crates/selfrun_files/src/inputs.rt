ghost use Rattle.std.specs.Prelude.{◌≡◌, ◌<◌};
ghost use Rattle.selfrun_files.specs.Inputs.{inputs_of, next_number};

/// How many steps write a word each, one after the other, before any word is read.
const FIRST_STEPS: u32 = 16;

/// What the inputs beside the clock are in a step.
#[derive(Clone, Copy)]
pub(crate) struct Inputs {
    /// Whether a word is written, and not read.
    pub(crate) we: bool,
    /// The number of the word, below 16.
    pub(crate) a: u8,
    /// What is written one step later.
    pub(crate) d: u8,
}

/// The number that follows.
pub(crate) fn next_number(x: u32) -> u32
    ensures { result ≡ next_number x }
{
    x.wrapping_mul(1_664_525).wrapping_add(1_013_904_223)
}

/// The inputs in a step, from its number.
pub(crate) fn inputs_of(step: u32, x: u32) -> Inputs
    ensures inputs { result ≡ inputs_of step x }
    ensures word { result.a < 16 }
{
    let d = (x >> 24) as u8;
    if step < FIRST_STEPS {
        Inputs {
            we: true,
            a: step as u8,
            d,
        }
    } else {
        Inputs {
            we: x >> 23 & 1 == 1,
            a: (x >> 19 & 15) as u8,
            d,
        }
    }
}
