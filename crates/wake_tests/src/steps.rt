//! A step of a design, by the signals that change.

ghost use Rattle.std.specs.Prelude.{◌<◌, IfSome};
ghost use Rattle.early_sets.specs.WakeState.{state_of};

use crate::names::signal_named;
use design_model::Design;
use early_sets::{Uncounted, Wakes};
use four_state::Bit;

/// Takes a step, and says whether each word is the change of an input that the dump gives or of a signal that may become
/// single, or names a signal that the dump does not give.
pub(crate) fn take_step(design: &Design, wakes: &mut Wakes, words: &str) -> bool {
    wakes.clear(&mut Uncounted);
    for word in words.split_whitespace() {
        if !note(design, wakes, word) {
            return false;
        }
    }
    wakes.settle(&mut Uncounted);
    true
}

/// Notes the change that a word says, if it says one that is to be noted.
fn note(design: &Design, wakes: &mut Wakes, word: &str) -> bool {
    let Some((name, bits)) = word.split_once('=') else {
        return false;
    };
    let Some((old, new)) = change_of(bits.as_bytes()) else {
        return bits == "??";
    };
    match noted_signal(design, wakes, name.as_bytes()) {
        Some(signal) => {
            wakes.note(signal, old, new);
            true
        }
        None => false,
    }
}

/// The signal with this name, if its changes are to be noted.
fn noted_signal(design: &Design, wakes: &Wakes, name: &[u8]) -> Option<u32>
    ensures { IfSome result (λ signal. signal < (state_of wakes.now).tables.things) }
{
    let signal = signal_named(design, name)?;
    if wakes.is_told(signal) || wakes.is_candidate(signal) {
        Some(signal)
    } else {
        None
    }
}

/// The lowest bits before and after a change.
fn change_of(bits: &[u8]) -> Option<(Bit, Bit)> {
    match bits {
        [old, new] => Some((bit_of(*old)?, bit_of(*new)?)),
        _ => None,
    }
}

/// The bit with this digit.
fn bit_of(digit: u8) -> Option<Bit> {
    match digit {
        b'0' => Some(Bit::Zero),
        b'1' => Some(Bit::One),
        b'x' => Some(Bit::X),
        _ => None,
    }
}
