ghost use Rattle.std.specs.Prelude.{◌≡◌, ◌<◌, ◌≤◌, ◌&&◌, ◌||◌, IfOk, if◌then◌else◌, length};
ghost use Rattle.known_state.specs.Partly.{with_blame};
ghost use Rattle.known_state.specs.Join.{joined};
ghost use Rattle.memory_rebuild.specs.Words.{count};
ghost use Rattle.word_log.specs.Memories.{with_word, word_in};

use crate::OverwrittenWord;
use crate::joins::common;
use crate::seen::First;
use cov_host::NoMemory;
use known_state::Known;
use memory_rebuild::Rebuilt;
use std::alloc::Global;
use write_log::Memory;

/// What a store holds of a memory.
pub struct StoredMemory {
    /// What is known of its words.
    pub words: Rebuilt,
    /// Whether the run of a body has written it by a blocking assignment.
    pub written: bool,
}

// Written out so that a crate which lets one go does not prove again how each of its parts is let go.
impl Drop for StoredMemory {
    fn drop(self) {
        let StoredMemory {
            words: _,
            written: _,
        } = self;
    }
}

impl StoredMemory {
    ghost use Rattle.word_log.specs.Memories.{unknown_memory};

    /// A memory none of whose words is known, and which no run has written. This number is to blame for it.
    pub fn new(alloc: Global, memory: &Memory, number: u32) -> Result<Self, NoMemory>
        requires at_least { 1 ≤ memory.now.width }
        requires at_most { memory.now.width ≤ 128 }
        ensures { IfOk result (λ made. made ≡ unknown_memory memory.now number) }
    {
        Ok(StoredMemory {
            words: Rebuilt::new(
                alloc,
                memory.first,
                memory.last,
                memory.width,
                memory.signed,
                number,
            )?,
            written: false,
        })
    }

    /// What there is to overwrite of the word at a place.
    pub(crate) fn entry(&self, memory: usize, place: usize) -> OverwrittenWord
        requires { place < count self.now.words.shape }
        ensures value { result ≡ record { memory = memory; place = place; value = with_blame (word_in self.now place) self.now.words.shape.signed self.now.words.shape.blame; written = self.now.written } }
        ensures width { length (word_in self.now place) ≡ self.now.words.shape.width }
        ensures size { length self.now.words.words ≡ count self.now.words.shape }
    {
        let _shape = self.words.shape();
        OverwrittenWord {
            memory,
            place,
            value: self.words.word(place),
            written: self.written,
        }
    }

    /// Puts bits into the word at a place, and says whether the memory is written.
    pub(crate) fn put(&mut self, place: usize, value: &Known, written: bool)
        requires place { place < count self.old.words.shape }
        requires width { length value.now.bits ≡ self.old.words.shape.width }
        requires sign { value.now.signed ≡ self.old.words.shape.signed }
        ensures { self.new ≡ with_word self.old place value.now.bits written }
    {
        self.words.set_word(place, value);
        self.written = written;
    }

    /// Puts the word of an entry back, and returns what is overwritten by that.
    pub(crate) fn swap(&mut self, entry: &OverwrittenWord) -> OverwrittenWord
        requires place { entry.now.place < count self.old.words.shape }
        requires width { length entry.now.value.bits ≡ self.old.words.shape.width }
        requires sign { entry.now.value.signed ≡ self.old.words.shape.signed }
        ensures stored { self.new ≡ with_word self.old entry.now.place entry.now.value.bits entry.now.written }
        ensures value { result ≡ record { memory = entry.now.memory; place = entry.now.place; value = with_blame (word_in self.old entry.now.place) self.old.words.shape.signed self.old.words.shape.blame; written = self.old.written } }
        ensures width { length (word_in self.old entry.now.place) ≡ self.old.words.shape.width }
    {
        let old = self.entry(entry.memory, entry.place);
        self.put(entry.place, &entry.value, entry.written);
        old
    }

    /// Joins what an entry says with what there is: the word where that is seen for the first time, and whether the memory is
    /// written where the memory is.
    pub(crate) fn join(&mut self, entry: &OverwrittenWord, first: First)
        requires place { entry.now.place < count self.old.words.shape }
        requires width { length entry.now.value.bits ≡ self.old.words.shape.width }
        requires sign { entry.now.value.signed ≡ self.old.words.shape.signed }
        ensures stored { self.new ≡ with_word self.old entry.now.place (if first.word then joined entry.now.value.bits (word_in self.old entry.now.place) else word_in self.old entry.now.place) (self.old.written || (first.memory && entry.now.written)) }
        ensures width { length (word_in self.old entry.now.place) ≡ self.old.words.shape.width }
    {
        let now = self.entry(entry.memory, entry.place);
        let value = common(&entry.value, &now.value, first.word);
        let written = now.written || (first.memory && entry.written);
        self.put(entry.place, &value, written);
    }
}
