ghost use Rattle.std.specs.Prelude.{◌≡◌, ◌+◌, ◌<◌, ◌≤◌, ◌∷◌, [], ℕ, IfOk, None, Some, List, drop, false, length, slice_set, true, vec_capacity};
ghost use Rattle.write_log.specs.design_model.Design.{Design};
ghost use Rattle.memory_rebuild.specs.body_replay.Store.{Kept as KeptCells, keep_all, write_word};
ghost use Rattle.memory_rebuild.specs.Words.{StandsFor, count};
ghost use Rattle.write_log.specs.Logs.{is_first, is_inside, is_second};
ghost use Rattle.word_log.specs.Entries.{IsCommon};
ghost use Rattle.word_log.specs.Keeps.{AfterWrite};
ghost use Rattle.word_log.specs.Logs.{IsWordLogOf, around, innermost, left_of, sizes_of};
ghost use Rattle.word_log.specs.Memories.{SameShapes, memory_in};

use crate::joins::join_all;
use crate::kept::keep;
use crate::moves::put_all_back;
use crate::seen::Seen;
use crate::{OverwrittenWord, StoredMemory};
use cov_host::NoMemory;
use known_state::Known;
use std::alloc::Global;
use std::marker::Model;
use write_log::Test;

/// What the branches of undecided tests have overwritten of the words of memories. Only `new` takes memory; a test costs what
/// its branches write.
#[derive(Drop)]
pub struct WordLog {
    /// What the branches that run now overwrote, in order.
    done: Vec<OverwrittenWord>,
    /// What was undone of first branches, the last write first, with what they wrote.
    undone: Vec<OverwrittenWord>,
    /// The undecided tests around, the innermost last.
    tests: Vec<Test>,
    /// How many entries there is room for.
    room: usize,
    /// How many tests there is room for.
    depth: usize,
    /// What the end of a test has joined. Nothing is seen outside of `end_test`.
    seen: Seen,
}

impl Model for WordLog {
    ghost use Rattle.std.specs.Prelude.{reverse, vec_capacity};
    ghost use Rattle.word_log.specs.Logs.{HasRoom, WordLogState};
    ghost use Rattle.word_log.specs.Seen.{seen_sizes};

    ghost Value = { WordLogState };

    ghost view = { λ l. record { done = l.done.items; undone = l.undone.items; tests = reverse l.tests.items; room = l.room; depth = l.depth; sizes = seen_sizes l.seen } };

    ghost invariant = { λ l. HasRoom l.done.items l.undone.items (reverse l.tests.items) l.room l.depth (vec_capacity l.done) (vec_capacity l.undone) (vec_capacity l.tests) l.seen };
}

impl WordLog {
    /// A log of these memories, outside of undecided tests, with room for so many entries and so many tests in one another.
    pub fn new(
        alloc: Global,
        memories: &[StoredMemory],
        room: usize,
        depth: usize,
    ) -> Result<Self, NoMemory>
        ensures { IfOk result (λ log. log ≡ record { done = []; undone = []; tests = []; room = room; depth = depth; sizes = sizes_of memories.now }) }
    {
        let seen = Seen::new(alloc, memories)?;
        let tests = Vec::with_capacity(alloc, depth)?;
        let (done, undone) = two_lists(alloc, room)?;
        Ok(WordLog {
            done,
            undone,
            tests,
            room,
            depth,
            seen,
        })
    }

    /// Outside of undecided tests nothing is logged. It does nothing.
    pub fn outside(&self)
        ensures done { is_inside self.now.tests ≡ false → self.now.done ≡ [] }
        ensures undone { is_inside self.now.tests ≡ false → self.now.undone ≡ [] }
    {
        let _tests = self.tests.as_slice();
    }

    /// A body writes a word of a memory by a blocking assignment, the one that this index names, or by an index that is not sure
    /// perhaps each one that it may name. In an undecided test the words that may change are logged first; outside of such
    /// tests nothing is.
    pub fn write(
        &mut self,
        memories: &mut [StoredMemory],
        memory: usize,
        index: &Known,
        value: &Known,
    )
        requires place { memory < length memories.old }
        requires width { length value.now.bits ≡ (memory_in memories.old memory).words.shape.width }
        requires sign { value.now.signed ≡ (memory_in memories.old memory).words.shape.signed }
        requires room { is_inside self.old.tests ≡ true → length self.old.done + length self.old.undone + count (memory_in memories.old memory).words.shape + 1 ≤ self.old.room }
        requires fits { IsWordLogOf memories.old self.old }
        ensures fits { IsWordLogOf memories.new self.new }
        ensures shapes { SameShapes memories.old memories.new }
        ensures others { memories.new ≡ slice_set memories.old memory (memory_in memories.new memory) }
        ensures written { (memory_in memories.new memory).written ≡ true }
        ensures stands { (d : Design) (k : KeptCells) (m : ℕ) → StandsFor d k m (memory_in memories.old memory).words → StandsFor d (keep_all k (write_word d m index.now.signed index.now.bits value.now.bits)) m (memory_in memories.new memory).words }
        ensures room { self.new.room ≡ self.old.room }
        ensures depth { self.new.depth ≡ self.old.depth }
        ensures tests { self.new.tests ≡ self.old.tests }
        ensures undone { self.new.undone ≡ self.old.undone }
        ensures outside { is_inside self.old.tests ≡ false → self.new.done ≡ self.old.done }
        ensures few { length self.new.done ≤ length self.old.done + count (memory_in memories.old memory).words.shape + 1 }
        ensures around { around self.new memories.new ≡ around self.old memories.old }
    {
        self.keep(memories, memory, index);
        let stored = &mut memories[memory];
        stored.words.write(index, value, true);
        stored.written = true;
    }

    /// Logs the words that a write by this index may change, in an undecided test.
    fn keep(&mut self, memories: &[StoredMemory], memory: usize, index: &Known)
        requires place { memory < length memories.now }
        requires room { is_inside self.old.tests ≡ true → length self.old.done + length self.old.undone + count (memory_in memories.now memory).words.shape + 1 ≤ self.old.room }
        requires fits { IsWordLogOf memories.now self.old }
        ensures fits { IsWordLogOf memories.now self.new }
        ensures room { self.new.room ≡ self.old.room }
        ensures depth { self.new.depth ≡ self.old.depth }
        ensures tests { self.new.tests ≡ self.old.tests }
        ensures undone { self.new.undone ≡ self.old.undone }
        ensures outside { is_inside self.old.tests ≡ false → self.new.done ≡ self.old.done }
        ensures few { length self.new.done ≤ length self.old.done + count (memory_in memories.now memory).words.shape + 1 }
        ensures around { (now : List StoredMemory) → AfterWrite memory index.now memories.now now → around self.new now ≡ around self.old memories.now }
    {
        if !self.tests.is_empty() {
            keep(&mut self.done, &memories[memory], memory, index);
        }
    }

    /// An undecided test begins, with its first branch.
    pub fn begin_test(&mut self, test: u32)
        requires { length self.old.tests < self.old.depth }
        ensures log { self.new ≡ record self.old { tests = record { done = length self.old.done; undone = length self.old.undone; second = false; test = test } ∷ self.old.tests } }
        ensures around { (now : List StoredMemory) → around self.new now ≡ record { before = now; left = None } ∷ around self.old now }
    {
        self.tests.push_reserved(Test {
            done: self.done.len(),
            undone: self.undone.len(),
            second: false,
            test,
        });
    }

    /// The second branch of the innermost undecided test begins, from what the memories held when the test began.
    pub fn second_branch(&mut self, memories: &mut [StoredMemory])
        requires first { is_first self.old.tests ≡ true }
        requires fits { IsWordLogOf memories.old self.old }
        ensures fits { IsWordLogOf memories.new self.new }
        ensures shapes { SameShapes memories.old memories.new }
        ensures room { self.new.room ≡ self.old.room }
        ensures depth { self.new.depth ≡ self.old.depth }
        ensures tests { length self.new.tests ≡ length self.old.tests }
        ensures used { length self.new.done + length self.new.undone ≡ length self.old.done + length self.old.undone }
        ensures before { memories.new ≡ (innermost (around self.old memories.old)).before }
        ensures around { around self.new memories.new ≡ record { before = (innermost (around self.old memories.old)).before; left = Some memories.old } ∷ drop 1 (around self.old memories.old) }
    {
        let Some(test) = self.tests.pop() else {
            unreachable!()
        };
        put_all_back(&mut self.done, &mut self.undone, test.done, memories);
        self.tests.push_reserved(Test {
            second: true,
            ..test
        });
    }

    /// The innermost undecided test ends: of each word is known what both branches leave in common, and a memory counts as
    /// written where one of them has written it.
    pub fn end_test(&mut self, memories: &mut [StoredMemory])
        requires second { is_second self.old.tests ≡ true }
        requires fits { IsWordLogOf memories.old self.old }
        ensures fits { IsWordLogOf memories.new self.new }
        ensures shapes { SameShapes memories.old memories.new }
        ensures room { self.new.room ≡ self.old.room }
        ensures depth { self.new.depth ≡ self.old.depth }
        ensures tests { length self.new.tests + 1 ≡ length self.old.tests }
        ensures used { length self.new.done + length self.new.undone ≤ length self.old.done + length self.old.undone }
        ensures common { IsCommon (left_of (around self.old memories.old)) memories.old memories.new }
        ensures around { around self.new memories.new ≡ drop 1 (around self.old memories.old) }
    {
        let Some(ended) = self.tests.pop() else {
            unreachable!()
        };
        let middle = self.done.len();
        put_all_back(&mut self.undone, &mut self.done, ended.undone, memories);
        let entries = self.done.as_slice();
        join_all(&entries[middle..], &mut self.seen, memories);
        join_all(&entries[ended.done..middle], &mut self.seen, memories);
        self.seen.clear();
        if self.tests.is_empty() {
            self.done.clear();
        }
    }
}

/// Two empty lists with room for so many entries each.
fn two_lists(
    alloc: Global,
    room: usize,
) -> Result<(Vec<OverwrittenWord>, Vec<OverwrittenWord>), NoMemory>
    ensures empty { IfOk result (λ lists. (lists.0.items ≡ []) × (lists.1.items ≡ [])) }
    ensures room { IfOk result (λ lists. (room ≤ vec_capacity lists.0) × (room ≤ vec_capacity lists.1)) }
{
    let done = Vec::with_capacity(alloc, room)?;
    let undone = Vec::with_capacity(alloc, room)?;
    Ok((done, undone))
}
