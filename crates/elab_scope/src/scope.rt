ghost use Rattle.std.specs.Prelude.{◌≡◌, OnOk, IfSome, Some};
ghost use Rattle.std.specs.Option.{option_copied};
ghost use Rattle.elab_const.specs.Scope as constants;
ghost use Rattle.design_model.specs.Lawful.{span as spec_span};
ghost use Rattle.flat_design.specs.Scope.{binding_of, names, no_names, range_or as spec_range_or, value_entry as spec_value_entry, with_entry};
ghost use Rattle.elab_scope.specs.Entries.{IsEntry, IsRange, without_entry};

use cov_host::{Name, NoMemory};
use design_model::Range;
use flat_design::Entry;
use indexmap::IndexMap;
use std::alloc::Global;
use std::marker::Model;

/// What each name of an instance means, and the same names as constants, widths and loops see them.
#[derive(Drop)]
pub struct Scope {
    alloc: Global,
    entries: IndexMap<Vec<u8>, Entry>,
    values: elab_const::Scope,
}

impl Model for Scope {
    ghost use Rattle.std.specs.Prelude.{ℕ, ◌≡◌, List, map, All};
    ghost use Rattle.elab_const.specs.Scope as constants;
    ghost use Rattle.flat_design.specs.Scope.{Bindings, binding_of, names};
    ghost use Rattle.elab_scope.specs.Entries.{IsEntry};

    ghost Value = { Bindings };

    ghost view = { λ s. map (λ bound. (bound.0.items, bound.1)) s.entries.entries };

    ghost invariant = { λ s. All (λ bound. IsEntry bound.1) s.entries.entries × (constants.look_up s.values ≡ names (binding_of (map (λ bound. (bound.0.items, bound.1)) s.entries.entries))) };
}

impl Scope {
    /// No names yet. It takes no memory.
    pub fn new(alloc: Global) -> Scope
        ensures { binding_of result ≡ no_names }
    {
        Scope {
            alloc,
            entries: IndexMap::new(alloc),
            values: elab_const::Scope::new(alloc),
        }
    }

    /// Gives a name this meaning, in place of the one it had.
    pub fn insert(&mut self, name: &Name, entry: Entry) -> Result<(), NoMemory>
        requires { IsEntry entry }
        ensures { OnOk result (binding_of self.new ≡ with_entry name.now entry (binding_of self.old)) }
    {
        let key = Vec::from_slice(self.alloc, name.as_slice())?;
        self.entries.reserve(1)?;
        match value_entry(&entry) {
            Some(value) => self.values.insert_name(name, value)?,
            None => self.values.remove(name),
        }
        let _ = self.entries.insert(key, entry)?;
        Ok(())
    }

    /// Takes the meaning of a name away.
    pub fn remove(&mut self, name: &Name)
        ensures { binding_of self.new ≡ without_entry name.now (binding_of self.old) }
    {
        self.values.remove(name);
        let _ = self.entries.swap_remove(name.as_slice());
    }

    /// What a name means.
    pub fn get(&self, name: &[u8]) -> Option<&Entry>
        ensures value { option_copied result ≡ binding_of self.now name.now }
        ensures within { IfSome result (λ entry. IsEntry entry.now) }
    {
        self.entries.get(name)
    }

    /// The allocator.
    pub fn alloc(&self) -> Global {
        self.alloc
    }

    /// The names that have a value.
    pub fn values(&self) -> &elab_const::Scope
        ensures { constants.look_up result.now ≡ names (binding_of self.now) }
    {
        &self.values
    }
}

/// An entry as constants, widths and loops see it.
fn value_entry(entry: &Entry) -> Option<elab_const::Entry>
    requires { IsEntry entry.now }
    ensures value { result ≡ spec_value_entry (Some entry.now) }
    ensures within { IfSome result constants.IsEntry }
{
    match entry {
        Entry::Constant(value) => Some(elab_const::Entry::Constant(*value)),
        Entry::Turn(value) => Some(elab_const::Entry::Turn(*value)),
        Entry::Signal(signal) => {
            let bits = range_or(signal.range);
            Some(elab_const::Entry::Signal {
                high: bits.high,
                low: bits.low,
                ranged: signal.range.is_some(),
                width: span(bits) as u8,
                signed: signal.signed,
            })
        }
        Entry::Memory(memory) => {
            let bits = range_or(memory.range);
            Some(elab_const::Entry::Memory {
                first: memory.words.high,
                last: memory.words.low,
                high: bits.high,
                low: bits.low,
                ranged: memory.range.is_some(),
                width: span(bits) as u8,
                signed: memory.signed,
            })
        }
        _ => None,
    }
}

/// The range, `[0:0]` for what has no range.
pub fn range_or(range: Option<Range>) -> Range
    ensures { result ≡ spec_range_or range }
{
    match range {
        Some(range) => range,
        None => Range { high: 0, low: 0 },
    }
}

/// How many numbers a range has.
pub fn span(range: Range) -> u32
    requires { IsRange range }
    ensures { result ≡ spec_span range.high range.low }
{
    range.high.abs_diff(range.low) + 1
}
