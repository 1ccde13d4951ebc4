ghost use Rattle.std.specs.Prelude.{◌≡◌, ◌-◌, ◌^◌, ◌<◌, ◌≤◌, IfOk, None, if◌then◌else◌, length, not, replicate, slice_set};
ghost use Rattle.known_state.specs.Partly.{are_sure};
ghost use Rattle.written_words.specs.Written.{no_range, range_of};
ghost use Rattle.step_words.specs.Changes.{word_in, words_agree, words_differ};

use bit_changes::{differing, unsteady};
use cov_host::NoMemory;
use design_model::Memory;
use known_state::Known;
use std::alloc::Global;
use std::marker::Model;
use written_words::followed_range;

/// How a word has changed over a step.
#[derive(Clone, Copy)]
pub(crate) struct WordChange {
    /// Whether a bit has surely changed.
    pub(crate) is_sure: bool,
    /// Whether a bit is not surely the same.
    pub(crate) may_be: bool,
}

/// What was known of the words of a memory when a step began. Contracts see the list of
/// their bits.
#[derive(Drop)]
pub(crate) struct MemoryBefore {
    /// The words, from the least index up. A memory that is not followed has no words here.
    words: Vec<Known>,
    /// How many of the words are not wholly sure.
    unsure: usize,
}

impl Model for MemoryBefore {
    ghost use Rattle.std.specs.Prelude.{◌≡◌, ◌≤◌, List, length, map};
    ghost use Rattle.store_knowledge.specs.body_replay.KnownBits.{KnownBits};
    ghost use Rattle.step_words.specs.Changes.{count_unsure};

    ghost Value = { List KnownBits };

    ghost view = { λ b. map (λ w. w.bits) b.words.items };

    ghost invariant = { λ b. (b.unsure ≡ count_unsure (map (λ w. w.bits) b.words.items)) × (length b.words.items ≤ 4294967296) };
}

impl MemoryBefore {
    ghost use Rattle.step_words.specs.Changes.{are_whole};

    /// Nothing is known of a word of this memory, which has this number.
    pub(crate) fn new(
        alloc: Global,
        memory: &Memory,
        number: u32,
        is_followed: bool,
    ) -> Result<Self, NoMemory>
        requires at_least { 1 ≤ memory.now.width }
        requires at_most { memory.now.width ≤ 128 }
        ensures { IfOk result (λ made. made ≡ replicate (if is_followed then range_of memory.now else no_range).count (replicate memory.now.width None)) }
    {
        let count = followed_range(memory, is_followed).count;
        let unknown = Known::unknown(memory.width, memory.signed, number);
        Ok(MemoryBefore {
            words: vec![in alloc; unknown; count]?,
            unsure: count,
        })
    }

    /// Nothing is known of the words any more, which have this width.
    pub(crate) fn forget(&mut self, width: u8)
        requires at_least { 1 ≤ width }
        requires at_most { width ≤ 128 }
        ensures { self.new ≡ replicate (length self.old) (replicate width None) }
    {
        let unknown = Known::unknown(width, false, 0);
        fill_words(self.words.as_mut_slice(), unknown);
        self.unsure = self.words.len();
    }

    /// Whether each word is wholly sure.
    pub(crate) fn is_whole(&self) -> bool
        ensures { result ≡ are_whole self.now }
    {
        self.unsure == 0
    }

    /// Keeps what is known now of the word at a place, and says how that has changed.
    pub(crate) fn keep(&mut self, place: usize, now: &Known) -> WordChange
        requires place { place < length self.old }
        requires width { length (word_in self.old place) ≡ length now.now.bits }
        ensures words { self.new ≡ slice_set self.old place now.now.bits }
        ensures is_sure { result.is_sure ≡ words_differ (word_in self.old place) now.now.bits }
        ensures may_be { result.may_be ≡ not (words_agree (word_in self.old place) now.now.bits) }
    {
        let old = self.words[place];
        self.put(place, &old, now);
        change_of(&old, now)
    }

    /// Puts a word in the place of this one, and counts it where it is not wholly sure.
    fn put(&mut self, place: usize, old: &Known, now: &Known)
        requires place { place < length self.old }
        requires old { old.now.bits ≡ word_in self.old place }
        ensures { self.new ≡ slice_set self.old place now.now.bits }
    {
        self.unsure = self.unsure - unsure_count(old) + unsure_count(now);
        self.words[place] = *now;
    }
}

/// Puts one word in the place of each of these.
fn fill_words(words: &mut [Known], value: Known)
    ensures { words.new ≡ replicate (length words.old) value }
{
    words.fill(value);
}

/// 1 for a word that is not wholly sure.
fn unsure_count(word: &Known) -> usize
    ensures { result ≡ (if are_sure word.now.bits then 0 else 1) }
{
    if word.is_whole() { 0 } else { 1 }
}

/// How a word changes from one value to another.
fn change_of(old: &Known, now: &Known) -> WordChange
    requires { length old.now.bits ≡ length now.now.bits }
    ensures is_sure { result.is_sure ≡ words_differ old.now.bits now.now.bits }
    ensures may_be { result.may_be ≡ not (words_agree old.now.bits now.now.bits) }
{
    let places = places_below(old.width());
    WordChange {
        is_sure: differing(old, now) & places != 0,
        may_be: unsteady(old, now) & places != 0,
    }
}

/// The mask of the lowest places.
fn places_below(width: u8) -> u128
    requires at_least { 1 ≤ width }
    requires at_most { width ≤ 128 }
    ensures { result ≡ 2 ^ width - 1 }
{
    u128::MAX >> (128 - width)
}
