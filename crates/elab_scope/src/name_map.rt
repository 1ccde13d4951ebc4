ghost use Rattle.std.specs.Prelude.{◌≡◌, None, OnOk};
ghost use Rattle.std.specs.Option.{option_copied};
ghost use Rattle.elab_scope.specs.NameMap.{bound_to, with_binding};

use cov_host::NoMemory;
use indexmap::IndexMap;
use std::alloc::Global;
use std::marker::Model;

/// What each of some names is bound to.
#[derive(Drop)]
pub struct NameMap<V: Drop> {
    alloc: Global,
    entries: IndexMap<Vec<u8>, V>,
}

impl<V: Drop> Model for NameMap<V> {
    ghost use Rattle.std.specs.Prelude.{ℕ, List, map};

    ghost Value = { List (List ℕ × V) };

    ghost view = { λ m. map (λ bound. (bound.0.items, bound.1)) m.entries.entries };
}

impl<V: Drop> NameMap<V> {
    /// No name yet. It takes no memory.
    pub fn new(alloc: Global) -> NameMap<V>
        ensures { bound_to result ≡ (λ name. None) }
    {
        NameMap {
            alloc,
            entries: IndexMap::new(alloc),
        }
    }

    /// Binds a name to a value, in the place of what it was bound to.
    pub fn insert(&mut self, name: &[u8], value: V) -> Result<(), NoMemory>
        ensures { OnOk result (bound_to self.new ≡ with_binding name.now value (bound_to self.old)) }
    {
        let key = Vec::from_slice(self.alloc, name)?;
        let _ = self.entries.insert(key, value)?;
        Ok(())
    }

    /// What a name is bound to.
    pub fn get(&self, name: &[u8]) -> Option<&V>
        ensures { option_copied result ≡ bound_to self.now name.now }
    {
        self.entries.get(name)
    }
}
