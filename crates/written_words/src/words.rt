ghost use Rattle.std.specs.Prelude.{◌≡◌, ◌≤◌, ◌+◌, ◌<◌, ◌||◌, ◌&&◌, ◌==◌, ℕ, [], IfOk, Bool, List, false, if◌then◌else◌, length, map, slice_index};
ghost use Rattle.index_sets.specs.Members.{Members};
ghost use Rattle.write_log.specs.Entries.{has};
ghost use Rattle.word_log.specs.Seen.{words_seen};
ghost use Rattle.written_words.specs.Written.{AreRanges, AreSmall, WrittenState, has_word, is_followed, range_at, sizes_of};

use crate::range::{WordRange, followed_range};
use cov_host::NoMemory;
use design_model::{Design, Memory};
use index_sets::IndexSet;
use std::alloc::Global;
use std::marker::Model;

/// The words that were written, or may have been, since the set was emptied. It has room for the words of the memories that are
/// followed, and words of others are left out.
#[derive(Drop)]
pub struct WrittenWords {
    /// The number of the first memory.
    first: u32,
    /// For each memory its words.
    ranges: Vec<WordRange>,
    /// The memories of which a word is written, by their places in the list of memories.
    memories: IndexSet,
    /// For each memory the words that are written, by their places from the least index up.
    words: Vec<IndexSet>,
}

impl Model for WrittenWords {
    ghost use Rattle.written_words.specs.Written.{AreWritten, WrittenState};

    ghost Value = { WrittenState };

    ghost view = { λ w. record { first = w.first; ranges = w.ranges.items; memories = w.memories; words = w.words.items } };

    ghost invariant = { λ w. AreWritten w.ranges.items w.memories w.words.items };
}

impl WrittenWords {
    ghost use Rattle.written_words.specs.Written.{AreWritten};

    /// No word is written. `followed` says for each memory of the design whether its words are followed. All memory that is ever
    /// needed is taken here.
    pub fn new(alloc: Global, design: &Design, followed: &[bool]) -> Result<Self, NoMemory>
        requires count { length followed.now ≡ length design.now.memories }
        requires few { length design.now.signals ≤ 65536 }
        ensures first { IfOk result (λ w. w.first ≡ length design.now.signals) }
        ensures ranges { IfOk result (λ w. AreRanges design.now.memories followed.now w.ranges) }
        ensures none { IfOk result (λ w. (m i : ℕ) → has_word w m i ≡ false) }
    {
        let ranges = ranges_of(alloc, design.memories.as_slice(), followed)?;
        let words = sets_for(alloc, ranges.as_slice())?;
        let memories = IndexSet::new(alloc, design.memories.len())?;
        Ok(WrittenWords {
            first: design.signals.len() as u32,
            ranges,
            memories,
            words,
        })
    }

    /// The word with this index of the memory with this number is written, if it is followed. It takes constant time and no memory.
    pub fn add(&mut self, memory: u32, index: u32)
        ensures first { self.new.first ≡ self.old.first }
        ensures ranges { self.new.ranges ≡ self.old.ranges }
        ensures words { (m i : ℕ) → has_word self.new m i ≡ (has_word self.old m i || (is_followed self.old m i && ((memory == m) && (index == i)))) }
    {
        if let Some(place) = memory.checked_sub(self.first) {
            self.add_word(place as usize, index);
        }
    }

    /// The word with this index is written of the memory at a place in the list of memories.
    fn add_word(&mut self, memory: usize, index: u32)
        ensures first { self.new.first ≡ self.old.first }
        ensures ranges { self.new.ranges ≡ self.old.ranges }
        ensures words { (m i : ℕ) → has_word self.new m i ≡ (has_word self.old m i || (is_followed self.old m i && ((self.old.first + memory == m) && (index == i)))) }
    {
        let Some(range) = self.ranges.get(memory) else {
            return;
        };
        if let Some(place) = range.place_of(index) {
            self.words[memory].insert(place);
            self.memories.insert(memory);
        }
    }

    /// How many memories there are of which a word is written.
    pub fn memory_count(&self) -> usize
        ensures value { result ≡ length self.now.memories.items }
        ensures sets { AreWritten self.now.ranges self.now.memories self.now.words }
    {
        self.memories.len()
    }

    /// One of the memories of which a word is written, by its place in the list of memories.
    pub fn memory(&self, listed: usize) -> usize
        requires { listed < length self.now.memories.items }
        ensures value { result ≡ slice_index self.now.memories.items listed }
        ensures below { result < length self.now.ranges }
    {
        self.memories.get(listed)
    }

    /// How many words are written of the memory at a place.
    pub fn word_count(&self, memory: usize) -> usize
        requires { memory < length self.now.ranges }
        ensures { result ≡ length (words_seen self.now.words memory) }
    {
        self.words[memory].len()
    }

    /// One of the words that are written of the memory at a place, by its place from the least index up.
    pub fn place(&self, memory: usize, listed: usize) -> usize
        requires memory { memory < length self.now.ranges }
        requires listed { listed < length (words_seen self.now.words memory) }
        ensures value { result ≡ slice_index (words_seen self.now.words memory) listed }
        ensures below { result < (range_at self.now.ranges memory).count }
        ensures small { (range_at self.now.ranges memory).least + result ≤ 4294967295 }
    {
        self.words[memory].get(listed)
    }

    /// The least index of the words of the memory at a place.
    pub fn least(&self, memory: usize) -> u32
        requires { memory < length self.now.ranges }
        ensures { result ≡ (range_at self.now.ranges memory).least }
    {
        self.ranges[memory].least
    }

    /// No word is written any more. It takes time for the memories of which there were words.
    pub fn clear(&mut self)
        ensures first { self.new.first ≡ self.old.first }
        ensures ranges { self.new.ranges ≡ self.old.ranges }
        ensures none { (m i : ℕ) → has_word self.new m i ≡ false }
    {
        clear_all(&mut self.words, &self.memories);
        self.memories.clear();
    }
}

/// The words of these memories that are followed.
fn ranges_of(
    alloc: Global,
    memories: &[Memory],
    followed: &[bool],
) -> Result<Vec<WordRange>, NoMemory>
    requires { length followed.now ≡ length memories.now }
    ensures value { IfOk result (λ ranges. AreRanges memories.now followed.now ranges.items) }
    ensures small { IfOk result (λ ranges. AreSmall ranges.items) }
{
    let mut ranges = Vec::with_capacity(alloc, memories.len())?;
    for (place, memory) in memories.iter().enumerate() {
        ranges.push(followed_range(memory, followed[place]))?;
    }
    Ok(ranges)
}

/// For each memory an empty set of its words.
fn sets_for(alloc: Global, ranges: &[WordRange]) -> Result<Vec<IndexSet>, NoMemory>
    ensures sizes { IfOk result (λ sets. map (λ s. s.size) sets.items ≡ sizes_of ranges.now) }
    ensures empty { IfOk result (λ sets. (i : ℕ) → words_seen sets.items i ≡ []) }
{
    let mut sets = Vec::with_capacity(alloc, ranges.len())?;
    for range in ranges {
        sets.push(IndexSet::new(alloc, range.count)?)?;
    }
    Ok(sets)
}

/// Takes all members out of each of the sets whose numbers are members.
fn clear_all(sets: &mut Vec<IndexSet>, numbers: &IndexSet)
    requires { numbers.now.size ≡ length sets.old.items }
    ensures sizes { map (λ s. s.size) sets.new.items ≡ map (λ s. s.size) sets.old.items }
    ensures cleared { (i : ℕ) → words_seen sets.new.items i ≡ (if has numbers.now.items i then [] else words_seen sets.old.items i) }
{
    for place in 0..numbers.len() {
        sets[numbers.get(place)].clear();
    }
}
