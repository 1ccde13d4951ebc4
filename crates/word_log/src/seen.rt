ghost use Rattle.std.specs.Prelude.{◌≡◌, ◌<◌, ◌==◌, ◌&&◌, ◌||◌, ◌++◌, ◌∷◌, [], ℕ, IfOk, OnOk, false, length, map, if◌then◌else◌, not, slice_index_or};
ghost use Rattle.write_log.specs.Entries.{has};
ghost use Rattle.word_log.specs.Logs.{sizes_of};
ghost use Rattle.word_log.specs.Seen.{seen_sizes, sees_memory, sees_word, words_seen};

use crate::StoredMemory;
use cov_host::NoMemory;
use index_sets::IndexSet;
use std::alloc::Global;
use std::marker::Model;

/// The words, and their memories, that the end of an undecided test has joined.
pub(crate) struct Seen {
    /// The memories.
    memories: IndexSet,
    /// For each memory its words.
    words: Vec<IndexSet>,
}

// Written out so that a function which lets one go does not prove again how each of its parts is let go.
impl Drop for Seen {
    fn drop(self) {
        let Seen {
            memories: _,
            words: _,
        } = self;
    }
}

/// What was seen for the first time.
#[derive(Clone, Copy)]
pub(crate) struct First {
    /// The memory.
    pub(crate) memory: bool,
    /// The word.
    pub(crate) word: bool,
}

impl Model for Seen {
    ghost use Rattle.word_log.specs.Seen.{AreSeen, SeenWords};

    ghost Value = { SeenWords };

    ghost view = { λ s. record { memories = s.memories; words = s.words.items } };

    ghost invariant = { λ s. AreSeen s.memories s.words.items };
}

impl Seen {
    /// Nothing is seen yet of these memories.
    pub(crate) fn new(alloc: Global, memories: &[StoredMemory]) -> Result<Self, NoMemory>
        ensures sizes { IfOk result (λ seen. seen_sizes seen ≡ sizes_of memories.now) }
        ensures words { IfOk result (λ seen. (k : ℕ × ℕ) → sees_word seen k ≡ false) }
        ensures memories { IfOk result (λ seen. (i : ℕ) → sees_memory seen i ≡ false) }
    {
        Ok(Seen {
            memories: IndexSet::new(alloc, memories.len())?,
            words: sets_of(alloc, memories)?,
        })
    }

    /// Sees a word, and says whether it and its memory are seen for the first time.
    pub(crate) fn see(&mut self, memory: usize, place: usize) -> First
        requires memory { memory < length (seen_sizes self.old) }
        requires place { place < slice_index_or (seen_sizes self.old) memory 0 }
        ensures of_memory { result.memory ≡ not (sees_memory self.old memory) }
        ensures of_word { result.word ≡ not (sees_word self.old (memory, place)) }
        ensures memories { (i : ℕ) → sees_memory self.new i ≡ (sees_memory self.old i || (memory == i)) }
        ensures words { (k : ℕ × ℕ) → sees_word self.new k ≡ (sees_word self.old k || ((memory == k.0) && (place == k.1))) }
        ensures sizes { seen_sizes self.new ≡ seen_sizes self.old }
    {
        First {
            memory: self.memories.insert(memory),
            word: self.words[memory].insert(place),
        }
    }

    /// Nothing is seen any more.
    pub(crate) fn clear(&mut self)
        ensures words { (k : ℕ × ℕ) → sees_word self.new k ≡ false }
        ensures memories { (i : ℕ) → sees_memory self.new i ≡ false }
        ensures sizes { seen_sizes self.new ≡ seen_sizes self.old }
    {
        clear_all(&mut self.words, &self.memories);
        self.memories.clear();
    }
}

/// For each memory an empty set of its words.
fn sets_of(alloc: Global, memories: &[StoredMemory]) -> Result<Vec<IndexSet>, NoMemory>
    ensures sizes { IfOk result (λ sets. map (λ s. s.size) sets.items ≡ sizes_of memories.now) }
    ensures empty { IfOk result (λ sets. (i : ℕ) → words_seen sets.items i ≡ []) }
{
    let mut sets = Vec::with_capacity(alloc, memories.len())?;
    for memory in memories {
        add_set(alloc, &mut sets, memory.words.len())?;
    }
    Ok(sets)
}

/// Adds an empty set of numbers below `size`.
fn add_set(alloc: Global, sets: &mut Vec<IndexSet>, size: usize) -> Result<(), NoMemory>
    ensures sizes { OnOk result (map (λ s. s.size) sets.new.items ≡ map (λ s. s.size) sets.old.items ++ size ∷ []) }
    ensures empty { OnOk result (((i : ℕ) → words_seen sets.old.items i ≡ []) → (i : ℕ) → words_seen sets.new.items i ≡ []) }
{
    sets.push(IndexSet::new(alloc, size)?)?;
    Ok(())
}

/// Takes all members out of each of the sets whose numbers are members.
fn clear_all(sets: &mut Vec<IndexSet>, numbers: &IndexSet)
    requires { numbers.now.size ≡ length sets.old.items }
    ensures sizes { map (λ s. s.size) sets.new.items ≡ map (λ s. s.size) sets.old.items }
    ensures cleared { (i : ℕ) → words_seen sets.new.items i ≡ (if has numbers.now.items i then [] else words_seen sets.old.items i) }
{
    for place in 0..numbers.len() {
        sets[numbers.get(place)].clear();
    }
}
