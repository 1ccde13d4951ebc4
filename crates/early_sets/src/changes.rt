//! What is known of the changes of a step.

ghost use Rattle.std.specs.Prelude.{◌≡◌, ◌<◌, ◌≤◌, ◌+◌, ◌||◌, [], IfOk, false, length, slice_set};
ghost use Rattle.std.specs.List.{Contains};
ghost use Rattle.early_sets.specs.Adds.{Adds};
ghost use Rattle.early_sets.specs.Has.{is_in};
ghost use Rattle.early_sets.specs.Sizes.{AreChangeSizes};

use crate::closure::{insert_members, insert_where};
use crate::sets::two_sets;
use crate::{Edges, Turns};
use cov_host::NoMemory;
use index_sets::IndexSet;
use std::alloc::Global;

/// What is known of the changes of the signals and memories in a step.
pub(crate) struct Changes {
    /// For each signal or memory whether it is an input whose changes are reported.
    pub(crate) told: Vec<bool>,
    /// For each the edges of the change that was reported last.
    pub(crate) own: Vec<Edges>,
    /// Those, except such inputs, whose change was reported in this step.
    pub(crate) changed: IndexSet,
    /// Those, except such inputs, that were found to change at most once in this step.
    pub(crate) derived: IndexSet,
    ghost sizes: { AreChangeSizes told.items own.items changed derived },
}

// Written out so that a function which lets one go does not prove again how each of its parts is let go.
impl Drop for Changes {
    fn drop(self) {
        let Changes {
            told: _,
            own: _,
            changed: _,
            derived: _,
        } = self;
    }
}

impl Changes {
    ghost use Rattle.early_sets.specs.Changes.{edges_of, is_single_by, is_told_by, own_edges_by};

    /// Before the first step: for each signal or memory whether it is an input whose changes are reported.
    pub(crate) fn new(alloc: Global, told: Vec<bool>) -> Result<Self, NoMemory>
        ensures told { IfOk result (λ changes. changes.told ≡ told) }
        ensures changed { IfOk result (λ changes. changes.changed.items ≡ []) }
        ensures derived { IfOk result (λ changes. changes.derived.items ≡ []) }
    {
        let own = vec![in alloc; Edges::NONE; told.len()]?;
        let (changed, derived) = two_sets(alloc, told.len())?;
        Ok(Changes {
            told,
            own,
            changed,
            derived,
        })
    }

    /// Begins a step.
    pub(crate) fn clear(&mut self)
        ensures told { self.new.told ≡ self.old.told }
        ensures own { self.new.own ≡ self.old.own }
        ensures changed { self.new.changed.items ≡ [] }
        ensures derived { self.new.derived.items ≡ [] }
    {
        self.changed.clear();
        self.derived.clear();
    }

    /// Begins the rounds of a step, with the inputs whose changes are reported as all that is single.
    pub(crate) fn forget_derived(&mut self)
        ensures told { self.new.told ≡ self.old.told }
        ensures own { self.new.own ≡ self.old.own }
        ensures changed { self.new.changed ≡ self.old.changed }
        ensures derived { self.new.derived.items ≡ [] }
    {
        self.derived.clear();
    }

    /// A signal changes in this step by these edges.
    pub(crate) fn tell(&mut self, signal: usize, edges: Edges)
        requires { signal < length self.old.told.items }
        ensures told { self.new.told ≡ self.old.told }
        ensures own { self.new.own.items ≡ slice_set self.old.own.items signal edges }
        ensures changed { Adds (λ x. (is_told_by self.old.told.items signal ≡ false) × (signal ≡ x)) self.old.changed.items self.new.changed.items }
        ensures derived { self.new.derived ≡ self.old.derived }
    {
        self.own[signal] = edges;
        let other = !self.told[signal];
        insert_where(other, signal, None, &mut self.changed);
    }

    /// Adds signals to those that change at most once in this step.
    pub(crate) fn add_derived<T: Turns>(&mut self, signals: &IndexSet, turns: &mut T)
        requires { signals.now.size ≡ length self.old.told.items }
        ensures told { self.new.told ≡ self.old.told }
        ensures own { self.new.own ≡ self.old.own }
        ensures changed { self.new.changed ≡ self.old.changed }
        ensures derived { Adds (λ x. Contains signals.now.items x) self.old.derived.items self.new.derived.items }
        ensures within { length self.new.derived.items ≤ length self.new.told.items }
        ensures turns { T.counted turns.new ≤ T.counted turns.old + length signals.now.items }
    {
        insert_members(signals, &mut self.derived, turns);
        let count = self.derived.len();
        prove!(count <= self.told.len());
    }

    /// Whether the thing changes at most once in this step.
    pub(crate) fn is_single(&self, thing: usize) -> bool
        requires { thing < length self.now.told.items }
        ensures { result ≡ is_single_by self.now.told.items self.now.derived.items thing }
    {
        self.told[thing] || self.derived.contains(thing)
    }

    /// The edges that a change of the thing may be in this step.
    pub(crate) fn edges(&self, thing: usize) -> Edges
        requires { thing < length self.now.told.items }
        ensures { result ≡ edges_of self.now thing }
    {
        if self.is_single(thing) {
            self.own_edges(thing)
        } else {
            Edges::ANY
        }
    }

    /// The edges of the change of the thing as it was reported in this step.
    fn own_edges(&self, thing: usize) -> Edges
        requires { thing < length self.now.told.items }
        ensures { result ≡ own_edges_by self.now.told.items self.now.own.items self.now.changed.items thing }
    {
        if self.may_be_told(thing) {
            self.own[thing]
        } else {
            Edges::NONE
        }
    }

    /// Whether the thing is an input whose changes are reported, or its change was reported in this step.
    fn may_be_told(&self, thing: usize) -> bool
        requires { thing < length self.now.told.items }
        ensures { result ≡ (is_told_by self.now.told.items thing || is_in self.now.changed.items thing) }
    {
        self.told[thing] || self.changed.contains(thing)
    }
}
