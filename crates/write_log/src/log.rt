ghost use Rattle.std.specs.Prelude.{◌≡◌, ◌+◌, ◌<◌, ◌==◌, ◌≤◌, ◌∷◌, [], ℕ, IfOk, None, Some, false, drop, if◌then◌else◌, length, true};
ghost use Rattle.value_store.specs.Signals.{HasShape, SameUnder, assigned, read_at, shape_at};
ghost use Rattle.write_log.specs.Entries.{IsCommon};
ghost use Rattle.write_log.specs.Logs.{IsLogOf, Readings, around, innermost, is_first, is_inside, is_second, kept_log, left_of, reads_of};

use crate::common::join_all;
use crate::moves::put_all_back;
use crate::{Overwritten, Test};
use cov_host::NoMemory;
use index_sets::IndexSet;
use known_state::Known;
use std::alloc::Global;
use std::marker::Model;
use value_store::Signals;

/// What the branches of undecided tests have overwritten. Only `new` takes memory; a test costs what its branches write.
#[derive(Drop)]
pub struct Log {
    /// What the branches that run now overwrote, in order.
    done: Vec<Overwritten>,
    /// What was undone of first branches, the last write first, with what they wrote.
    undone: Vec<Overwritten>,
    /// The undecided tests around, the innermost last.
    tests: Vec<Test>,
    /// How many entries there is room for.
    room: usize,
    /// How many tests there is room for.
    depth: usize,
    /// The signals that the end of a test has joined. It is empty outside of `end_test`.
    seen: IndexSet,
}

impl Model for Log {
    ghost use Rattle.std.specs.Prelude.{reverse, vec_capacity};
    ghost use Rattle.write_log.specs.Logs.{LogState};
    ghost use Rattle.write_log.specs.Rooms.{HasRoom};

    ghost Value = { LogState };

    ghost view = { λ l. record { done = l.done.items; undone = l.undone.items; tests = reverse l.tests.items; room = l.room; depth = l.depth; signals = l.seen.size } };

    ghost invariant = { λ l. HasRoom l.done.items l.undone.items (reverse l.tests.items) l.room l.depth (vec_capacity l.done) (vec_capacity l.undone) (vec_capacity l.tests) l.seen.items };
}

impl Log {
    /// A log of so many signals, outside of undecided tests, with room for so many entries and so many tests in one another.
    pub fn new(alloc: Global, signals: usize, room: usize, depth: usize) -> Result<Self, NoMemory>
        ensures { IfOk result (λ log. log ≡ record { done = []; undone = []; tests = []; room = room; depth = depth; signals = signals }) }
    {
        Ok(Log {
            done: Vec::with_capacity(alloc, room)?,
            undone: Vec::with_capacity(alloc, room)?,
            tests: Vec::with_capacity(alloc, depth)?,
            room,
            depth,
            seen: IndexSet::new(alloc, signals)?,
        })
    }

    /// Outside of undecided tests nothing is logged. It does nothing.
    pub fn outside(&self)
        ensures done { is_inside self.now.tests ≡ false → self.now.done ≡ [] }
        ensures undone { is_inside self.now.tests ≡ false → self.now.undone ≡ [] }
    {
        let _tests = self.tests.as_slice();
    }

    /// A body assigns a value to a signal by a blocking assignment. In an undecided test what bodies read of the signal
    /// before is logged; outside of such tests nothing is.
    pub fn assign(&mut self, signals: &mut Signals, signal: u32, value: Known)
        requires place { signal < length signals.old.kept }
        requires shape { HasShape (shape_at signals.old signal) value }
        requires room { is_inside self.old.tests ≡ true → length self.old.done + length self.old.undone < self.old.room }
        requires fits { IsLogOf signals.old self.old }
        ensures log { self.new ≡ kept_log self.old signals.old signal }
        ensures signals { signals.new ≡ assigned signals.old signal value }
        ensures reads { (x : ℕ) → read_at signals.new x ≡ (if signal == x then value else read_at signals.old x) }
        ensures under { SameUnder signals.old signals.new }
        ensures fits { IsLogOf signals.new self.new }
        ensures around { around self.new (reads_of signals.new) ≡ around self.old (reads_of signals.old) }
    {
        self.keep(signals, signal);
        signals.assign(signal, value);
    }

    /// Logs what bodies read of a signal, in an undecided test.
    fn keep(&mut self, signals: &Signals, signal: u32)
        requires place { signal < length signals.now.kept }
        requires room { is_inside self.old.tests ≡ true → length self.old.done + length self.old.undone < self.old.room }
        requires fits { IsLogOf signals.now self.old }
        ensures log { self.new ≡ kept_log self.old signals.now signal }
        ensures fits { IsLogOf signals.now self.new }
        ensures around { (now : Readings) → ((x : ℕ) → (signal == x) ≡ false → now x ≡ read_at signals.now x) → around self.new now ≡ around self.old (reads_of signals.now) }
    {
        if !self.tests.is_empty() {
            let value = signals.read(signal);
            self.done.push_reserved(Overwritten { signal, value });
        }
    }

    /// An undecided test begins, with its first branch. The thing is to blame where the branches leave different values.
    pub fn begin_test(&mut self, test: u32)
        requires { length self.old.tests < self.old.depth }
        ensures log { self.new ≡ record self.old { tests = record { done = length self.old.done; undone = length self.old.undone; second = false; test = test } ∷ self.old.tests } }
        ensures around { (now : Readings) → around self.new now ≡ record { test = test; before = now; left = None } ∷ around self.old now }
    {
        self.tests.push_reserved(Test {
            done: self.done.len(),
            undone: self.undone.len(),
            second: false,
            test,
        });
    }

    /// The second branch of the innermost undecided test begins, from what the signals were when the test began.
    pub fn second_branch(&mut self, signals: &mut Signals)
        requires first { is_first self.old.tests ≡ true }
        requires fits { IsLogOf signals.old self.old }
        ensures fits { IsLogOf signals.new self.new }
        ensures under { SameUnder signals.old signals.new }
        ensures room { self.new.room ≡ self.old.room }
        ensures depth { self.new.depth ≡ self.old.depth }
        ensures tests { length self.new.tests ≡ length self.old.tests }
        ensures used { length self.new.done + length self.new.undone ≡ length self.old.done + length self.old.undone }
        ensures reads { (x : ℕ) → read_at signals.new x ≡ (innermost (around self.old (reads_of signals.old))).before x }
        ensures around { around self.new (reads_of signals.new) ≡ record { test = (innermost (around self.old (reads_of signals.old))).test; before = (innermost (around self.old (reads_of signals.old))).before; left = Some (reads_of signals.old) } ∷ drop 1 (around self.old (reads_of signals.old)) }
    {
        let Some(test) = self.tests.pop() else {
            unreachable!()
        };
        put_all_back(&mut self.done, &mut self.undone, test.done, signals);
        self.tests.push_reserved(Test {
            done: test.done,
            undone: test.undone,
            second: true,
            test: test.test,
        });
    }

    /// The innermost undecided test ends: each signal has what both branches leave, and where they leave different values
    /// what these have in common, blamed on the test.
    pub fn end_test(&mut self, signals: &mut Signals)
        requires second { is_second self.old.tests ≡ true }
        requires fits { IsLogOf signals.old self.old }
        ensures fits { IsLogOf signals.new self.new }
        ensures under { SameUnder signals.old signals.new }
        ensures room { self.new.room ≡ self.old.room }
        ensures depth { self.new.depth ≡ self.old.depth }
        ensures tests { length self.new.tests + 1 ≡ length self.old.tests }
        ensures used { length self.new.done + length self.new.undone ≤ length self.old.done + length self.old.undone }
        ensures common { (x : ℕ) → IsCommon (innermost (around self.old (reads_of signals.old))).test (left_of (around self.old (reads_of signals.old)) x) (read_at signals.old x) (read_at signals.new x) }
        ensures around { around self.new (reads_of signals.new) ≡ drop 1 (around self.old (reads_of signals.old)) }
    {
        let Some(ended) = self.tests.pop() else {
            unreachable!()
        };
        let test = ended.test;
        let middle = self.done.len();
        put_all_back(&mut self.undone, &mut self.done, ended.undone, signals);
        let entries = self.done.as_slice();
        join_all(&entries[middle..], &mut self.seen, signals, test);
        join_all(&entries[ended.done..middle], &mut self.seen, signals, test);
        self.seen.clear();
        if self.tests.is_empty() {
            self.done.clear();
        }
    }
}
