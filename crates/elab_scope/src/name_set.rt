ghost use Rattle.std.specs.Prelude.{◌≡◌, [], ◌∷◌, not, IfOk, OnOk};
ghost use Rattle.elab_scope.specs.NameSet.{has};

use cov_host::NoMemory;
use indexmap::IndexSet;
use std::alloc::Global;
use std::marker::Model;

/// Names, each found at once.
#[derive(Drop)]
pub struct NameSet<'a> {
    names: IndexSet<&'a [u8]>,
}

impl<'a> Model for NameSet<'a> {
    ghost use Rattle.std.specs.Prelude.{ℕ, List, map};

    ghost Value = { List (List ℕ) };

    ghost view = { λ s. map (λ name. name.now) s.names.keys };
}

impl<'a> NameSet<'a> {
    /// No names yet. It takes no memory.
    pub fn new(alloc: Global) -> NameSet<'a>
        ensures { result ≡ [] }
    {
        NameSet {
            names: IndexSet::new(alloc),
        }
    }

    /// Whether it is one of the names.
    pub fn has(&self, name: &[u8]) -> bool
        ensures { result ≡ has self.now name.now }
    {
        self.names.contains(name)
    }

    /// Adds a name, and says whether it is new.
    pub fn add(&mut self, name: &'a [u8]) -> Result<bool, NoMemory>
        ensures added { IfOk result (λ new. new ≡ not (has self.old name.now)) }
        ensures names { OnOk result (has self.new ≡ has (name.now ∷ self.old)) }
    {
        Ok(self.names.insert(name)?)
    }
}
