ghost use Rattle.std.specs.Prelude.{◌≡◌, ◌<◌, ◌++◌, [], ℕ, List, None, IfNone, IfOk, IfSome, flat_map, length, slice_index_or};
ghost use Rattle.std.specs.List.{All, Contains};
ghost use Rattle.index_sets.specs.Rows.{row_at};
ghost use Rattle.dump_check.specs.Checks.{AgreesAt, FitsAt, IsDifference, IsFirstDifference, last_of_each};

use code_values::CodeValues;
use cov_host::NoMemory;
use four_state::Four;
use index_sets::{IndexSet, Rows};
use known_state::Known;
use std::alloc::Global;
use std::marker::Model;

/// A signal of which what was made differs from what the dump says, in a bit that is sure.
#[derive(Clone, Copy)]
pub struct Difference {
    pub signal: u32,
    /// What the dump says.
    pub dumped: Four,
    /// What was made.
    pub computed: Known,
}

/// The signals of a step that are compared with the dump, each once, in order.
#[derive(Drop)]
pub struct CheckOrder {
    /// The last one first.
    signals: IndexSet,
}

impl Model for CheckOrder {
    ghost use Rattle.std.specs.Prelude.{◌<◌, ◌^◌, reverse};
    ghost use Rattle.dump_check.specs.Checks.{Checks};

    ghost Value = { Checks };

    ghost view = { λ c. record { size = c.signals.size; order = reverse c.signals.items } };

    ghost invariant = { λ c. c.signals.size < 2 ^ 32 };
}

impl CheckOrder {
    /// None of so many signals.
    pub fn new(alloc: Global, signals: u32) -> Result<Self, NoMemory>
        ensures { IfOk result (λ made. made ≡ record { size = signals; order = [] }) }
    {
        let signals = IndexSet::new(alloc, signals as usize)?;
        Ok(CheckOrder { signals })
    }

    /// The targets of the processes that ran, in the order in which they ran, each at the last of those that drive it.
    /// `targets` has those of each process. It takes no memory.
    pub fn collect(&mut self, runs: &[usize], targets: &Rows<u32>)
        requires rows { All (λ p. p < length targets.now) runs.now }
        requires below { (p s : ℕ) → Contains (row_at targets.now p) s → s < self.old.size }
        ensures size { self.new.size ≡ self.old.size }
        ensures order { self.new.order ≡ last_of_each (flat_map (row_at targets.now) runs.now) }
    {
        self.signals.clear();
        for place in (0..runs.len()).rev() {
            self.put_before(targets.row(runs[place]));
        }
    }

    /// The first of the signals of which what was made differs from what the dump says, if there is one. `codes` has the
    /// code of each signal, and `made` what was made of it.
    pub fn first_difference(
        &self,
        codes: &[Option<u32>],
        dump: &CodeValues,
        made: &[Known],
    ) -> Option<Difference>
        requires { All (FitsAt codes.now dump.now.last made.now) self.now.order }
        ensures some { IfSome result (IsFirstDifference codes.now dump.now.last made.now self.now.order) }
        ensures none { IfNone result (All (AgreesAt codes.now dump.now.last made.now) self.now.order) }
    {
        for place in (0..self.signals.len()).rev() {
            let signal = self.signals.get(place);
            let found = compare(signal as u32, codes, dump, made);
            if found.is_some() {
                return found;
            }
        }
        None
    }

    /// Puts signals before the others, each where it is last.
    fn put_before(&mut self, signals: &[u32])
        requires { (s : ℕ) → Contains signals.now s → s < self.old.size }
        ensures size { self.new.size ≡ self.old.size }
        ensures order { (after : List ℕ) → self.old.order ≡ last_of_each after → self.new.order ≡ last_of_each (signals.now ++ after) }
    {
        for place in (0..signals.len()).rev() {
            let _ = self.signals.insert(signals[place] as usize);
        }
    }
}

/// What was made of a signal, and what the dump says, where they differ.
fn compare(
    signal: u32,
    codes: &[Option<u32>],
    dump: &CodeValues,
    made: &[Known],
) -> Option<Difference>
    requires { FitsAt codes.now dump.now.last made.now signal }
    ensures some { IfSome result (λ found. (found.signal ≡ signal) × IsDifference codes.now dump.now.last made.now found) }
    ensures none { IfNone result (AgreesAt codes.now dump.now.last made.now signal) }
{
    let code = code_of(codes, signal)?;
    let dumped = dump.value(code)?;
    let computed = made[signal as usize];
    if !computed.differs(&dumped) {
        return None;
    }
    Some(Difference {
        signal,
        dumped,
        computed,
    })
}

/// The code of a signal, if it has one.
fn code_of(codes: &[Option<u32>], signal: u32) -> Option<u32>
    ensures { result ≡ slice_index_or codes.now signal None }
{
    match codes.get(signal as usize) {
        Some(code) => *code,
        None => None,
    }
}
