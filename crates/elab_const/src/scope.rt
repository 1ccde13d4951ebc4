ghost use Rattle.std.specs.Prelude.{◌≡◌, None, Some, OnOk, OnErr, IfSome};
ghost use Rattle.std.specs.Option.{option_copied};
ghost use Rattle.elab_const.specs.Scope.{IsEntry, look_up, with_entry, without_entry};

use crate::Entry;
use cov_host::{Name, NoMemory};
use indexmap::IndexMap;
use std::alloc::Global;
use std::marker::Model;

/// What each name means.
#[derive(Drop)]
pub struct Scope {
    alloc: Global,
    entries: IndexMap<Vec<u8>, Entry>,
}

impl Model for Scope {
    ghost use Rattle.std.specs.Prelude.{ℕ, List, map};
    ghost use Rattle.std.specs.Prelude.{All};
    ghost use Rattle.elab_const.specs.Scope.{Entry, IsEntry};

    ghost Value = { List (List ℕ × Entry) };

    ghost view = { λ s. map (λ bound. (bound.0.items, bound.1)) s.entries.entries };

    ghost invariant = { λ s. All (λ bound. IsEntry bound.1) s.entries.entries };
}

impl Scope {
    /// No names yet. It takes no memory.
    pub fn new(alloc: Global) -> Scope
        ensures { look_up result ≡ (λ name. None) }
    {
        Scope {
            alloc,
            entries: IndexMap::new(alloc),
        }
    }

    /// Gives a name this meaning, in place of the one it had. After a refusal nothing has changed.
    pub fn insert(&mut self, name: &str, entry: Entry) -> Result<(), NoMemory>
        requires { IsEntry entry }
        ensures ok { OnOk result (look_up self.new ≡ with_entry name.now entry (look_up self.old)) }
        ensures err { OnErr result (self.new ≡ self.old) }
    {
        self.insert_bytes(name.as_bytes(), entry)
    }

    /// Gives the name of a token this meaning, in place of the one it had. After a refusal nothing has changed.
    pub fn insert_name(&mut self, name: &Name, entry: Entry) -> Result<(), NoMemory>
        requires { IsEntry entry }
        ensures ok { OnOk result (look_up self.new ≡ with_entry name.now entry (look_up self.old)) }
        ensures err { OnErr result (self.new ≡ self.old) }
    {
        self.insert_bytes(name.as_slice(), entry)
    }

    fn insert_bytes(&mut self, name: &[u8], entry: Entry) -> Result<(), NoMemory>
        requires { IsEntry entry }
        ensures ok { OnOk result (look_up self.new ≡ with_entry name.now entry (look_up self.old)) }
        ensures err { OnErr result (self.new ≡ self.old) }
    {
        let key = Vec::from_slice(self.alloc, name)?;
        let _ = self.entries.insert(key, entry)?;
        Ok(())
    }

    /// Takes the meaning of a name away.
    pub fn remove(&mut self, name: &Name)
        ensures { look_up self.new ≡ without_entry name.now (look_up self.old) }
    {
        let _ = self.entries.swap_remove(name.as_slice());
    }

    /// What a name means.
    pub(crate) fn get(&self, name: &[u8]) -> Option<&Entry>
        ensures value { option_copied result ≡ look_up self.now name.now }
        ensures within { IfSome result (λ entry. IsEntry entry.now) }
    {
        self.entries.get(name)
    }
}
