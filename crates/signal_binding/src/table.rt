ghost use Rattle.std.specs.Prelude.{◌≡◌, ◌++◌, ◌∷◌, ℕ, List, IfOk, OnOk};
ghost use Rattle.std.specs.Option.{option_copied};
ghost use Rattle.vcd_reader.specs.declared.vars.Var.{Var as SpecVar};
ghost use Rattle.signal_binding.specs.Table.{AreCodesUnder, code_in};

use crate::kind::holds_value;
use crate::scope::behind_front;
use cov_host::NoMemory;
use indexmap::IndexMap;
use std::alloc::Global;
use vcd_reader::Var;

/// A name in a scope below the instance, with a size.
#[derive(Clone, Copy, PartialEq, Eq, Hash)]
pub(crate) struct Key<'a> {
    /// What the scope has after the path of the instance.
    pub(crate) below: &'a [u8],
    pub(crate) name: &'a [u8],
    pub(crate) size: u32,
}

/// For each name and size the code of the first variable that has both and holds a value of a signal.
#[derive(Drop)]
pub(crate) struct Table<'a> {
    codes: IndexMap<Key<'a>, u32>,
}

impl<'a> Table<'a> {
    /// The table of these variables, as names below the instance.
    pub(crate) fn new(alloc: Global, vars: &'a [Var], instance: &str) -> Result<Self, NoMemory>
        ensures { IfOk result (λ table. AreCodesUnder table vars.now instance.now) }
    {
        let mut table = Table {
            codes: IndexMap::new(alloc),
        };
        for place in (0..vars.len()).rev() {
            table.put(&vars[place], instance)?;
        }
        Ok(table)
    }

    /// Puts a variable before those that are there.
    fn put(&mut self, var: &'a Var, instance: &str) -> Result<(), NoMemory>
        ensures { OnOk result ((vars : List SpecVar) → AreCodesUnder self.old vars instance.now → AreCodesUnder self.new (var.now ∷ vars) instance.now) }
    {
        let Some(below) = behind_front(var.scope.as_slice(), instance.as_bytes()) else {
            return Ok(());
        };
        if !holds_value(var.kind.as_slice()) {
            return Ok(());
        }
        let key = Key {
            below,
            name: var.name.as_slice(),
            size: var.size,
        };
        let _ = self.codes.insert(key, var.code)?;
        Ok(())
    }

    /// The code under this name.
    pub(crate) fn get(&self, key: &Key<'a>) -> Option<u32>
        ensures { result ≡ code_in self.now key.now.below.now key.now.name.now key.now.size }
    {
        self.codes.get(key).copied()
    }
}
