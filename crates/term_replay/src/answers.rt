//! Questions about operands, with three answers.

ghost use Rattle.std.specs.Prelude.{◌≡◌, if◌then◌else◌};
ghost use Rattle.four_state.specs.Vector.{truth as truth_of};
ghost use Rattle.four_state.specs.declared.bit.Bit.TheVariants as bits;
ghost use Rattle.four_state.specs.declared.truth.Truth.TheVariants as truth;
ghost use Rattle.known_state.specs.Partly.{filled};
ghost use Rattle.body_replay.specs.KnownBits.{both as both_hold};
ghost use Rattle.body_replay.specs.Replay.{ask, undecided};
ghost use Rattle.term_replay.specs.Questions.{IsAnswer, answer_of, blame_in, is_truth_false};

use four_state::Truth;
use known_state::{Known, KnownTruth, Maybe};

/// Whether an operand is true.
pub(crate) fn is_true(value: &Known) -> Maybe
    ensures { IsAnswer (ask value.now.bits truth.True) value.now.blame result }
{
    value.holds()
}

/// Whether an operand is false: all its bits are 0.
pub(crate) fn is_false(value: &Known) -> Maybe
    ensures { IsAnswer (ask value.now.bits truth.False) value.now.blame result }
{
    match value.truth() {
        KnownTruth::Sure(truth) => sure_false(truth),
        KnownTruth::Unsure(thing) => may_be_false(value, thing),
    }
}

/// Whether this is the truth of a vector of which all bits are 0.
fn sure_false(truth: Truth) -> Maybe
    ensures { result ≡ (if is_truth_false truth then Maybe.Yes else Maybe.No) }
{
    match truth {
        Truth::False => Maybe::Yes,
        Truth::True | Truth::Strange => Maybe::No,
    }
}

/// Whether all bits of an operand may be 0, as an answer that hangs on this thing if they may.
fn may_be_false(value: &Known, thing: u32) -> Maybe
    ensures { result ≡ (if is_truth_false (truth_of (filled bits.Zero value.now.bits)) then Maybe.Unsure thing else Maybe.No) }
{
    match value.value().truth() {
        Truth::False => Maybe::Unsure(thing),
        Truth::True | Truth::Strange => Maybe::No,
    }
}

/// Whether both of two tests hold. Where that is undecided, the first undecided one is to blame.
pub(crate) fn both(left: Maybe, right: Maybe) -> Maybe
    ensures { IsAnswer (both_hold (answer_of left) (answer_of right)) (if undecided (answer_of left) then blame_in left else blame_in right) result }
{
    match (left, right) {
        (Maybe::Yes, right) => right,
        (Maybe::No, _) | (Maybe::Unsure(_), Maybe::No) => Maybe::No,
        (Maybe::Unsure(thing), Maybe::Yes | Maybe::Unsure(_)) => Maybe::Unsure(thing),
    }
}
