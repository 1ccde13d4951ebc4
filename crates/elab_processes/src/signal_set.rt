ghost use Rattle.std.specs.Prelude.{◌≡◌, [], ◌∷◌, OnOk};
ghost use Rattle.elab_processes.specs.Listed.{has};

use cov_host::NoMemory;
use std::alloc::Global;
use std::collections::HashSet;
use std::marker::Model;

/// Numbers of signals, each found at once.
#[derive(Drop)]
pub(crate) struct SignalSet {
    numbers: HashSet<u32>,
}

impl Model for SignalSet {
    ghost use Rattle.std.specs.Prelude.{ℕ, List};

    ghost Value = { List ℕ };

    ghost view = { λ s. s.numbers.keys };
}

impl SignalSet {
    /// No numbers yet. It takes no memory.
    pub(crate) fn new(alloc: Global) -> SignalSet
        ensures { result ≡ [] }
    {
        SignalSet {
            numbers: HashSet::new(alloc),
        }
    }

    /// Whether it is one of the numbers.
    pub(crate) fn has(&self, number: u32) -> bool
        ensures { result ≡ has self.now number }
    {
        self.numbers.contains(&number)
    }

    /// Adds a number.
    pub(crate) fn add(&mut self, number: u32) -> Result<(), NoMemory>
        ensures { OnOk result (has self.new ≡ has (number ∷ self.old)) }
    {
        let _ = self.numbers.insert(number)?;
        Ok(())
    }
}
