ghost use Rattle.std.specs.Prelude.{◌≡◌, ◌∷◌, codes, IfErr, IfNone, IfOk, IfSome};
ghost use Rattle.command_line.specs.SelfrunWords.{HasNumber, HasSelfrunFault, HasSteps, IsNoNumber, IsNoSteps, IsSelfrun};
ghost use Rattle.command_line.specs.WordsLeft.{left_words};

use crate::words_left::WordsLeft;
use crate::{SelfrunWords, UsageFault};
use cov_host::read_decimal;

/// The greatest NUMBER.
const GREATEST_NUMBER: u64 = 4_294_967_295;

/// The greatest number of STEPS.
const MOST_STEPS: u64 = 1_000_000;

/// Reads the words that are left after `selfrun`.
pub(crate) fn read_selfrun<'a>(left: &mut WordsLeft<'a>) -> Result<SelfrunWords, UsageFault<'a>>
    ensures selfrun { IfOk result (IsSelfrun (codes "selfrun" ∷ left_words left.old)) }
    ensures fault { IfErr result (HasSelfrunFault (codes "selfrun" ∷ left_words left.old)) }
{
    let Some(first) = left.next_word() else {
        return Err(UsageFault::Missing("NUMBER"));
    };
    let Some(number) = number_of(first) else {
        return Err(UsageFault::BadValue(first));
    };
    let Some(second) = left.next_word() else {
        return Err(UsageFault::Missing("STEPS"));
    };
    let Some(steps) = steps_of(second) else {
        return Err(UsageFault::BadValue(second));
    };
    match left.next_word() {
        None => Ok(SelfrunWords { number, steps }),
        Some(third) => Err(UsageFault::UnknownWord(third)),
    }
}

/// The number of a word.
fn number_of(word: &str) -> Option<u32>
    ensures number { IfSome result (HasNumber word.now) }
    ensures none { IfNone result (IsNoNumber word.now) }
{
    match read_decimal(word.as_bytes(), GREATEST_NUMBER) {
        Some(number) => Some(number as u32),
        None => None,
    }
}

/// The steps of a word.
fn steps_of(word: &str) -> Option<u32>
    ensures steps { IfSome result (HasSteps word.now) }
    ensures none { IfNone result (IsNoSteps word.now) }
{
    match read_decimal(word.as_bytes(), MOST_STEPS) {
        Some(steps) if steps > 0 => Some(steps as u32),
        _ => None,
    }
}
