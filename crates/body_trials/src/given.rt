//! What is known before a run, as a text.

use crate::digits::known_of;
use crate::things::thing_named;
use design_model::Design;
use known_state::Known;
use std::alloc::Global;

/// What is known of a signal, or of a word of a memory.
#[derive(Clone, Copy)]
pub struct Given {
    /// The number of the signal, or of the first memory.
    pub thing: u32,
    /// The place of the word among those of the memory, from the least index on; of no meaning for a signal.
    pub place: usize,
    pub value: Known,
}

/// What a text says is known: `NAME=DIGITS` for each signal, and `NAME=DIGITS,DIGITS,..` for each memory, whose words are in
/// the order of their indexes. None if it does not name signals and memories of the design.
pub fn given_of(alloc: Global, design: &Design, text: &str) -> Option<Vec<Given>> {
    let mut given = Vec::new(alloc);
    for word in text.split_whitespace() {
        if !push_given(design, word, &mut given) {
            return None;
        }
    }
    Some(given)
}

/// Adds what one word says. The answer is whether the design has what it names.
fn push_given(design: &Design, word: &str, given: &mut Vec<Given>) -> bool {
    let Some((name, values)) = word.split_once('=') else {
        return false;
    };
    let Some(thing) = thing_named(design, name.as_bytes()) else {
        return false;
    };
    for (place, digits) in values.split(',').enumerate() {
        let value = known_of(digits.as_bytes(), thing);
        if given
            .push(Given {
                thing,
                place,
                value,
            })
            .is_err()
        {
            return false;
        }
    }
    true
}
