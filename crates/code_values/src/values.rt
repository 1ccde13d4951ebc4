ghost use Rattle.std.specs.Prelude.{◌≡◌, ◌≤◌, ◌<◌, ◌↔◌, ℕ, None, Some, false, IfNone, IfOk, IfSome, IsTrue, length, slice_set};
ghost use Rattle.std.specs.List.{Contains};
ghost use Rattle.index_sets.specs.Rows.{row_at};
ghost use Rattle.code_values.specs.Values.{AddsChanged, AddsRow, IsChanged, IsFirstMissing, lacks_code, lacks_value, no_values, value_of};

use cov_host::NoMemory;
use four_state::Four;
use index_sets::{IndexSet, Rows};
use std::alloc::Global;
use std::marker::Model;

/// The values of the codes of a dump: at the last closed step, and as the dump gave them last.
pub struct CodeValues {
    /// By code, at the last closed step. None where the code had no value yet.
    closed: Vec<Option<Four>>,
    /// By code, as the dump gave them last.
    last: Vec<Option<Four>>,
    /// The codes that may have another value than at the last closed step.
    given: IndexSet,
}

// Written out so that a crate which lets one go does not prove again how each of its parts is let go.
impl Drop for CodeValues {
    fn drop(self) {
        let CodeValues {
            closed: _,
            last: _,
            given: _,
        } = self;
    }
}

impl Model for CodeValues {
    ghost use Rattle.code_values.specs.Values.{AreChanged, Values};

    ghost Value = { Values };

    ghost view = { λ v. record { closed = v.closed.items; last = v.last.items } };

    ghost invariant = { λ v. AreChanged v.closed.items v.last.items v.given };
}

impl CodeValues {
    /// So many codes, none of which has a value.
    pub fn new(alloc: Global, codes: usize) -> Result<Self, NoMemory>
        ensures { IfOk result (λ given. given ≡ no_values codes) }
    {
        let closed = vec![in alloc; None; codes]?;
        let last = vec![in alloc; None; codes]?;
        let given = IndexSet::new(alloc, codes)?;
        Ok(CodeValues {
            closed,
            last,
            given,
        })
    }

    /// The code has this value from now on. It takes constant time and no memory. A code past the last one changes nothing.
    pub fn set(&mut self, code: u32, value: Four)
        ensures closed { self.new.closed ≡ self.old.closed }
        ensures last { self.new.last ≡ slice_set self.old.last code (Some value) }
    {
        let place = code as usize;
        if place >= self.last.len() || is_value(&self.last[place], &value) {
            return;
        }
        let _ = self.given.insert(place);
        self.last[place] = Some(value);
    }

    /// The value of a code as the dump gave it last. It takes constant time.
    pub fn value(&self, code: u32) -> Option<Four>
        ensures { result ≡ value_of self.now.last code }
    {
        match self.last.get(code as usize) {
            Some(value) => *value,
            None => None,
        }
    }

    /// The value of a code at the last closed step. It takes constant time.
    pub fn closed_value(&self, code: u32) -> Option<Four>
        ensures { result ≡ value_of self.now.closed code }
    {
        match self.closed.get(code as usize) {
            Some(value) => *value,
            None => None,
        }
    }

    /// Puts the signals in whose code has another value than at the last closed step, where `signals` has for each code
    /// those that are bound to it. It takes no memory, and time for the codes that were given a value and their signals.
    pub fn add_changed(&self, signals: &Rows<u32>, changed: &mut IndexSet)
        requires rows { length signals.now ≡ length self.now.last }
        requires below { (code s : ℕ) → Contains (row_at signals.now code) s → s < changed.old.size }
        ensures size { changed.new.size ≡ changed.old.size }
        ensures changed { AddsChanged self.now signals.now changed.old.items changed.new.items }
    {
        for place in 0..self.given.len() {
            let code = self.given.get(place);
            if self.is_changed(code) {
                insert_row(signals.row(code), changed);
            }
        }
    }

    /// Closes a step: its values are those given last. It takes no memory, and time for the codes that were given a value.
    pub fn close(&mut self)
        ensures { self.new ≡ record { closed = self.old.last; last = self.old.last } }
    {
        for place in 0..self.given.len() {
            let code = self.given.get(place);
            self.closed[code] = self.last[code];
        }
        self.given.clear();
    }

    /// No code has a value any more, as if the dump had given none. It takes time for the codes, and no memory.
    pub fn forget(&mut self)
        ensures { self.new ≡ no_values (length self.old.last) }
    {
        self.closed.fill(None);
        self.last.fill(None);
        self.given.clear();
    }

    /// The first signal that has a code without a value, by the codes of the signals. It takes time for all signals.
    pub fn first_missing(&self, codes: &[Option<u32>]) -> Option<usize>
        ensures some { IfSome result (IsFirstMissing self.now.last codes.now) }
        ensures none { IfNone result ((s : ℕ) → s < length codes.now → lacks_value self.now.last codes.now s ≡ false) }
    {
        for (signal, code) in codes.iter().enumerate() {
            if self.lacks(*code) {
                return Some(signal);
            }
        }
        None
    }

    /// Whether the code has another value than at the last closed step.
    fn is_changed(&self, code: usize) -> bool
        requires { code < length self.now.last }
        ensures { IsTrue result ↔ IsChanged self.now code }
    {
        match (&self.closed[code], &self.last[code]) {
            (None, None) => false,
            (Some(closed), Some(last)) => !is_same(closed, last),
            _ => true,
        }
    }

    /// Whether this is a code without a value.
    fn lacks(&self, code: Option<u32>) -> bool
        ensures { result ≡ lacks_code self.now.last code }
    {
        match code {
            Some(code) => self.value(code).is_none(),
            None => false,
        }
    }
}

/// Whether this is the value.
fn is_value(held: &Option<Four>, value: &Four) -> bool
    ensures { IsTrue result → held.now ≡ Some value.now }
{
    match held {
        Some(held) => is_same(held, value),
        None => false,
    }
}

/// Whether two vectors are the same, their signs too.
fn is_same(a: &Four, b: &Four) -> bool
    ensures { IsTrue result ↔ (a.now ≡ b.now) }
{
    if a.ones() != b.ones() || a.strange() != b.strange() {
        return false;
    }
    if a.width() != b.width() {
        return false;
    }
    a.is_signed() == b.is_signed()
}

/// Puts the signals of a row in.
fn insert_row(signals: &[u32], changed: &mut IndexSet)
    requires { (s : ℕ) → Contains signals.now s → s < changed.old.size }
    ensures size { changed.new.size ≡ changed.old.size }
    ensures added { AddsRow signals.now changed.old.items changed.new.items }
{
    for signal in signals {
        let _ = changed.insert(*signal as usize);
    }
}
