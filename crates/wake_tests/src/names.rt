//! The names of signals and memories.

use cov_host::NoMemory;
use design_model::Design;
use std::alloc::Global;

/// The name of the signal or memory with this number.
pub(crate) fn name_of(design: &Design, thing: usize) -> &[u8] {
    match design.signals.get(thing) {
        Some(signal) => signal.name.as_slice(),
        None => match design.memories.get(thing - design.signals.len()) {
            Some(memory) => memory.name.as_slice(),
            None => "no thing".as_bytes(),
        },
    }
}

/// The number of the signal with this name.
pub(crate) fn signal_named(design: &Design, name: &[u8]) -> Option<u32> {
    for (place, signal) in design.signals.as_slice().iter().enumerate() {
        if signal.name.as_slice() == name {
            return u32::try_from(place).ok();
        }
    }
    None
}

/// For each signal whether the dump gives it: not where a word is its name and `=??`.
pub(crate) fn bound_signals(
    alloc: Global,
    design: &Design,
    words: &str,
) -> Result<Vec<bool>, NoMemory> {
    let mut bound = Vec::new(alloc);
    for signal in design.signals.as_slice() {
        bound.push(!is_missing(signal.name.as_slice(), words))?;
    }
    Ok(bound)
}

/// Whether one of the words is this name and `=??`.
fn is_missing(name: &[u8], words: &str) -> bool {
    for word in words.split_whitespace() {
        if word.as_bytes().strip_suffix(b"=??") == Some(name) {
            return true;
        }
    }
    false
}
