ghost use Rattle.std.specs.Prelude.{◌≡◌, ◌+◌, ◌-◌, ◌<◌, ◌≤◌, [], ℕ, IfOk, length, List, nat_le, None, replicate, slice_set, true};
ghost use Rattle.std.specs.List.{All};
ghost use Rattle.body_store.specs.Made.{HasWordWidth};
ghost use Rattle.design_model.specs.BodyLaws.{word_indexes};
ghost use Rattle.design_model.specs.Design.{Design as TheDesign, In, is_memory, memory_at};
ghost use Rattle.design_model.specs.View.{design_view};
ghost use Rattle.store_knowledge.specs.body_replay.Store.{Kept, kept_word};
ghost use Rattle.store_knowledge.specs.Knows.{Knows};
ghost use Rattle.written_words.specs.Written.{AreRanges, range_at};
ghost use Rattle.step_words.specs.Words.{AreWordChanges, FitsRanges, HasWords, after_places, after_word, has_changed as changed_of, is_still as still_of, put_if, words_of};
ghost use Rattle.step_words.specs.Changes.{word_in};
ghost use Rattle.step_words.specs.Unknown.{unknown_all};
ghost use Rattle.written_words.specs.Same.{FollowsAll, SameUnwritten};
ghost use Rattle.word_log.specs.Seen.{words_seen};
ghost use Rattle.written_words.specs.declared.range.WordRange.{WordRange};
ghost use Rattle.body_store.specs.Made.{nothing};

use crate::known::known_word;
use crate::memory::{MemoryBefore, WordChange};
use cov_host::NoMemory;
use design_model::{Design, Memory};
use index_sets::IndexSet;
use std::alloc::Global;
use std::marker::Model;
use store_knowledge::Store;
use written_words::WrittenWords;

/// The words of the memories that are followed, as they were known when the last step ended, and which of these memories have
/// changed in the step.
#[derive(Drop)]
pub struct StepWords {
    /// The number of the first memory.
    first: u32,
    /// For each memory what was known of its words.
    memories: Vec<MemoryBefore>,
    /// The places of the memories of which a bit of a word has surely changed.
    changed: IndexSet,
    /// The places of the memories of which a bit of a word that was written is not surely the same.
    unsteady: IndexSet,
}

impl Model for StepWords {
    ghost use Rattle.std.specs.Prelude.{◌≡◌, ◌+◌, ◌≤◌, length};
    ghost use Rattle.step_words.specs.Words.{StepState};

    ghost Value = { StepState };

    ghost view = { λ w. record { first = w.first; words = w.memories.items; changed = w.changed; unsteady = w.unsteady } };

    ghost invariant = { λ w. (w.changed.size ≡ length w.memories.items) × (w.unsteady.size ≡ length w.memories.items) × (w.first + length w.memories.items ≤ 4294967295) };
}

impl StepWords {
    /// Nothing is known of a word, and nothing has changed. `followed` says for each memory of the design whether its words are
    /// followed. All memory that is ever needed is taken here.
    pub fn new(alloc: Global, design: &Design, followed: &[bool]) -> Result<Self, NoMemory>
        requires widths { All HasWordWidth design.now.memories }
        requires count { length followed.now ≡ length design.now.memories }
        requires few { length design.now.signals + length design.now.memories ≤ 4294967295 }
        ensures { IfOk result (λ made. (ranges : List WordRange) → AreRanges design.now.memories followed.now ranges → FitsRanges (design_view design.now) ranges made × HasWords (design_view design.now) nothing ranges made) }
    {
        let first = design.signals.len() as u32;
        let memories = unknown_words(alloc, design.memories.as_slice(), first, followed)?;
        let changed = IndexSet::new(alloc, design.memories.len())?;
        let unsteady = IndexSet::new(alloc, design.memories.len())?;
        Ok(StepWords {
            first,
            memories,
            changed,
            unsteady,
        })
    }

    /// Nothing is known of a word any more. These are the memories of the design. It takes time for the words that are followed, and
    /// no memory.
    pub fn forget(&mut self, memories: &[Memory])
        requires widths { All HasWordWidth memories.now }
        requires count { length memories.now ≡ length self.old.words }
        ensures { (d : TheDesign) (ranges : List WordRange) → d.memories ≡ memories.now → FitsRanges d ranges self.old → FitsRanges d ranges self.new × HasWords d nothing ranges self.new }
    {
        for (place, memory) in memories.iter().enumerate() {
            self.forget_memory(place, memory.width);
        }
    }

    /// Nothing is known any more of the words of the memory at a place, which have this width.
    fn forget_memory(&mut self, memory: usize, width: u8)
        requires memory { memory < length self.old.words }
        requires at_least { 1 ≤ width }
        requires at_most { width ≤ 128 }
        ensures { self.new ≡ record self.old { words = slice_set self.old.words memory (replicate (length (words_of self.old memory)) (replicate width None)) } }
    {
        self.memories[memory].forget(width);
    }

    /// Compares what the store knows of the words that are written with what was known of them when the step began, and keeps it
    /// for the next step. It takes time for these words, and no memory.
    pub fn compare(&mut self, store: &Store, written: &WrittenWords)
        requires known { (d : TheDesign) × (k : Kept) × Knows d k store.now }
        requires fits { FitsRanges (design_view store.now.design.now) written.now.ranges self.old }
        requires first { written.now.first ≡ length store.now.design.now.signals }
        ensures fits { FitsRanges (design_view store.now.design.now) written.now.ranges self.new }
        ensures words { (d : TheDesign) (old new : Kept) → Knows d new store.now → SameUnwritten d old new written.now → HasWords d old written.now.ranges self.old → HasWords d new written.now.ranges self.new }
        ensures changes { (d : TheDesign) (old new : Kept) → Knows d new store.now → SameUnwritten d old new written.now → HasWords d old written.now.ranges self.old → AreWordChanges d (FollowsAll d written.now) old new self.new }
    {
        self.changed.clear();
        self.unsteady.clear();
        for listed in 0..written.memory_count() {
            self.compare_memory(written.memory(listed), store, written);
        }
    }

    /// Compares the words of the memory at a place in the list of memories.
    fn compare_memory(&mut self, memory: usize, store: &Store, written: &WrittenWords)
        requires known { (d : TheDesign) × (k : Kept) × Knows d k store.now }
        requires fits { FitsRanges (design_view store.now.design.now) written.now.ranges self.old }
        requires place { memory < length written.now.ranges }
        ensures fits { FitsRanges (design_view store.now.design.now) written.now.ranges self.new }
        ensures words { (d : TheDesign) (k : Kept) → Knows d k store.now → self.new ≡ after_places d k memory (range_at written.now.ranges memory).least (words_seen written.now.words memory) self.old }
    {
        let least = written.least(memory);
        for listed in 0..written.word_count(memory) {
            let place = written.place(memory, listed);
            self.compare_word(memory, place, least + place as u32, store);
        }
    }

    /// Compares the word at a place, which has this index.
    fn compare_word(&mut self, memory: usize, place: usize, index: u32, store: &Store)
        requires known { (d : TheDesign) × (k : Kept) × Knows d k store.now }
        requires first { self.old.first ≡ length store.now.design.now.signals }
        requires memory { memory < length store.now.design.now.memories }
        requires count { memory < length self.old.words }
        requires place { place < length (words_of self.old memory) }
        requires width { length (word_in (words_of self.old memory) place) ≡ (memory_at (design_view store.now.design.now) (self.old.first + memory)).width }
        requires index { In index (word_indexes (design_view store.now.design.now) (self.old.first + memory)) }
        ensures { (d : TheDesign) (k : Kept) → Knows d k store.now → self.new ≡ after_word memory place (kept_word d k (self.old.first + memory) index) self.old }
    {
        let now = known_word(store, self.first + memory as u32, index);
        let change = self.memories[memory].keep(place, &now);
        self.note(memory, change);
    }

    /// Notes the change of a word.
    fn note(&mut self, memory: usize, change: WordChange)
        requires { memory < length self.old.words }
        ensures { self.new ≡ record self.old { changed = put_if change.is_sure memory self.old.changed; unsteady = put_if change.may_be memory self.old.unsteady } }
    {
        put_in(&mut self.changed, memory, change.is_sure);
        put_in(&mut self.unsteady, memory, change.may_be);
    }

    /// Whether the signal or memory with this number is a memory.
    pub fn is_memory(&self, thing: u32) -> bool
        ensures { result ≡ nat_le self.now.first thing }
    {
        self.first <= thing
    }

    /// Whether a bit of a word of this memory has surely changed over the step. It takes constant time.
    pub fn has_changed(&self, memory: u32) -> bool
        requires first { self.now.first ≤ memory }
        requires within { memory < self.now.first + length self.now.words }
        ensures { result ≡ changed_of self.now memory }
    {
        self.changed.contains((memory - self.first) as usize)
    }

    /// Whether each bit of each word of this memory is surely the same as at the start of the step. It takes constant time.
    pub fn is_still(&self, memory: u32) -> bool
        requires first { self.now.first ≤ memory }
        requires within { memory < self.now.first + length self.now.words }
        ensures { result ≡ still_of self.now memory }
    {
        let place = (memory - self.first) as usize;
        !self.unsteady.contains(place) && self.memories[place].is_whole()
    }
}

/// Puts a number in, if the test holds.
fn put_in(set: &mut IndexSet, number: usize, passes: bool)
    requires { number < set.old.size }
    ensures value { set.new ≡ put_if passes number set.old }
    ensures size { set.new.size ≡ set.old.size }
{
    if passes {
        set.insert(number);
    }
}

/// Nothing is known of a word of these memories, which have the numbers from `first` up.
fn unknown_words(
    alloc: Global,
    memories: &[Memory],
    first: u32,
    followed: &[bool],
) -> Result<Vec<MemoryBefore>, NoMemory>
    requires widths { All HasWordWidth memories.now }
    requires count { length followed.now ≡ length memories.now }
    requires few { first + length memories.now ≤ 4294967295 }
    ensures { IfOk result (λ made. made.items ≡ unknown_all memories.now followed.now) }
{
    let mut words = Vec::with_capacity(alloc, memories.len())?;
    for (place, memory) in memories.iter().enumerate() {
        let number = first + place as u32;
        words.push(MemoryBefore::new(alloc, memory, number, followed[place])?)?;
    }
    Ok(words)
}
