//! What a run of a body leaves.

ghost use Rattle.std.specs.Prelude.{◌≡◌, IfSome, true};
ghost use Rattle.design_model.specs.Design.{is_memory};
ghost use Rattle.design_model.specs.View.{design_view};

use crate::Mark;
use cov_host::NoMemory;
use design_model::Design;
use four_state::Four;
use known_state::Known;
use std::alloc::Global;
use term_replay::Reads;

/// What is kept after a run and the flush of what it queued, and what it noted.
#[derive(Drop)]
pub struct Outcome {
    /// Of each signal and memory, by its number: the value of a signal, or the words of a memory from the least index on.
    pub values: Vec<Vec<Known>>,
    /// The notes in order.
    pub marks: Vec<Mark>,
}

/// What bodies read of the signals and memories.
pub(crate) fn values_of<R: Reads>(
    alloc: Global,
    store: &R,
    design: &Design,
) -> Result<Vec<Vec<Known>>, NoMemory>
    requires { (R.scene store.now).design ≡ design_view design.now }
{
    let mut values = Vec::new(alloc);
    for place in 0..design.signals.len() {
        let mut value = Vec::new(alloc);
        if let Some(known) = signal_at(store, design, place) {
            value.push(known)?;
        }
        values.push(value)?;
    }
    for place in 0..design.memories.len() {
        values.push(words_of(alloc, store, design, place)?)?;
    }
    Ok(values)
}

/// What is known of the signal at a place of the design's signals.
fn signal_at<R: Reads>(store: &R, design: &Design, place: usize) -> Option<Known>
    requires { (R.scene store.now).design ≡ design_view design.now }
{
    let signal = u32::try_from(place).ok()?;
    if (signal as usize) < design.signals.len() {
        Some(store.signal(signal))
    } else {
        None
    }
}

/// What is known of the words of the memory at a place of the design's memories.
fn words_of<R: Reads>(
    alloc: Global,
    store: &R,
    design: &Design,
    place: usize,
) -> Result<Vec<Known>, NoMemory>
    requires { (R.scene store.now).design ≡ design_view design.now }
{
    let mut words = Vec::new(alloc);
    let Some(memory) = design.memories.get(place) else {
        return Ok(words);
    };
    let Some(number) = memory_number(design, place) else {
        return Ok(words);
    };
    for index in memory.first.min(memory.last)..=memory.first.max(memory.last) {
        words.push(store.word(number, &index_of(index)))?;
    }
    Ok(words)
}

/// The number of the memory at a place of the design's memories.
fn memory_number(design: &Design, place: usize) -> Option<u32>
    ensures { IfSome result (λ number. is_memory (design_view design.now) number ≡ true) }
{
    if place < design.memories.len() {
        u32::try_from(design.signals.len().checked_add(place)?).ok()
    } else {
        None
    }
}

/// The index of a word.
fn index_of(index: u32) -> Known {
    Known::whole(Four::make(32, false, u128::from(index), 0))
}
