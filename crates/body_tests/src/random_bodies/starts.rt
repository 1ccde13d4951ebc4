//! What is known before a run, as digits: of the signals in order and then of the words. `0`, `1`, `x` and `z` are known, `?`
//! is not. None means want of memory.

use crate::random_bodies::random::Random;
use body_trials::{Given, Outcome, add_digits, known_of};
use design_model::Design;
use std::alloc::Global;

/// How many bits the signals and the words of a body's module have.
const DIGITS: usize = 23;

/// How many words its memory has, of two bits.
const WORDS: usize = 4;

/// How many bits are not known at most.
const UNSURE: usize = 4;

/// The digit with this number: 0, 1, x or z.
fn digit_of(number: usize) -> u8 {
    match number % 4 {
        0 => b'0',
        1 => b'1',
        2 => b'x',
        _ => b'z',
    }
}

/// Digits that look random. A 0 or 1 comes more often than x or z, and a few digits are `?`.
pub(crate) fn start_of(alloc: Global, random: &mut Random) -> Option<Vec<u8>> {
    let mut digits = Vec::with_capacity(alloc, DIGITS).ok()?;
    for _ in 0..DIGITS {
        let strange = random.below(6) / 5;
        digits.push(digit_of(random.below(2) + 2 * strange)).ok()?;
    }
    for _ in 0..random.below(UNSURE + 1) {
        let place = random.below(DIGITS);
        if let Some(digit) = digits.as_mut_slice().get_mut(place) {
            *digit = b'?';
        }
    }
    Some(digits)
}

/// The digits with each `?` replaced, by the digits of this number to the base of four.
pub(crate) fn allowed(alloc: Global, digits: &[u8], number: usize) -> Option<Vec<u8>> {
    let mut made = Vec::with_capacity(alloc, digits.len()).ok()?;
    let mut left = number;
    for digit in digits {
        if *digit == b'?' {
            made.push(digit_of(left)).ok()?;
            left /= 4;
        } else {
            made.push(*digit).ok()?;
        }
    }
    Some(made)
}

/// How many digits with each `?` replaced there are, where no more than `UNSURE` are `?`.
pub(crate) fn count_of(digits: &[u8]) -> usize {
    let mut count = 1;
    for digit in digits {
        if *digit == b'?' && count < 256 {
            count *= 4;
        }
    }
    count
}

/// Whether each digit is the other one or `?`.
pub(crate) fn allows(known: &[u8], exact: &[u8]) -> bool {
    if known.len() != exact.len() {
        return false;
    }
    for (known, exact) in known.iter().zip(exact) {
        if *known != b'?' && *known != *exact {
            return false;
        }
    }
    true
}

/// What the digits give of the signals and words.
pub(crate) fn given_of(alloc: Global, design: &Design, digits: &[u8]) -> Option<Vec<Given>> {
    let mut given = Vec::new(alloc);
    let mut rest = digits;
    for (place, signal) in design.signals.as_slice().iter().enumerate() {
        let width = usize::from(signal.width).min(rest.len());
        let (own, after) = rest.split_at(width);
        rest = after;
        given.push(one_given(place, 0, own)).ok()?;
    }
    for word in 0..WORDS {
        let (own, after) = rest.split_at(rest.len().min(2));
        rest = after;
        given.push(one_given(design.signals.len(), word, own)).ok()?;
    }
    Some(given)
}

/// What digits give of a signal or word.
fn one_given(thing: usize, place: usize, digits: &[u8]) -> Given {
    let thing = u32::try_from(thing).unwrap_or(0);
    Given {
        thing,
        place,
        value: known_of(digits, thing),
    }
}

/// The digits of what a run leaves.
pub(crate) fn left_by(alloc: Global, outcome: &Outcome) -> Option<Vec<u8>> {
    let mut digits = Vec::with_capacity(alloc, DIGITS).ok()?;
    for values in outcome.values.as_slice() {
        for value in values.as_slice() {
            add_digits(value, &mut digits).ok()?;
        }
    }
    Some(digits)
}
