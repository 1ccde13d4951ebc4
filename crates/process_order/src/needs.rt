//! What each process needs before it: the others that drive an unbound signal or memory which it watches. Since many
//! processes may drive one that many watch, each signal or memory has a gate. The gate needs those that drive it, and
//! those that watch it need the gate. The gates are numbered after the processes.

ghost use Rattle.std.specs.Prelude.{◌≡◌, ◌<◌, ◌≤◌, ◌⊎◌, ◌+◌, ◌^◌, ◌==◌, ◌++◌, ◌∷◌, [], ℕ, IfOk, OnOk, if◌then◌else◌, length};
ghost use Rattle.std.specs.List.{Contains};
ghost use Rattle.index_sets.specs.Rows.{row_at};
ghost use Rattle.process_order.specs.Names.{lists_of};
ghost use Rattle.process_order.specs.Needs.{AddsNeeds, AddsOthers, AreNeeds, HasNeeds, is_bound};

use crate::owners::is_alone;
use cov_host::NoMemory;
use index_sets::Rows;
use std::alloc::Global;

/// Who drives each signal or memory, and who both watches and drives it.
#[derive(Drop)]
pub(crate) struct Links {
    pub(crate) drivers: Rows<u32>,
    pub(crate) owners: Rows<u32>,
}

impl Links {
    /// The needs of the processes, which watch these, and then of the gates.
    pub(crate) fn all_needs(
        &self,
        alloc: Global,
        watched: &[Vec<u32>],
        bound: &[bool],
        count: usize,
    ) -> Result<Vec<Vec<usize>>, NoMemory>
        requires few { length watched.now ≤ 2 ^ 32 }
        requires drivers { length self.now.drivers ≡ count }
        requires owners { length self.now.owners ≡ count }
        requires watched { (p x : ℕ) → Contains (row_at (lists_of watched.now) p) x → x < count }
        ensures { IfOk result (λ needs. AreNeeds self.now (is_bound bound.now) (lists_of watched.now) (lists_of needs.items)) }
    {
        let mut needs = self.process_needs(alloc, watched, bound)?;
        for thing in 0..count {
            let gate = numbers(alloc, self.drivers.row(thing))?;
            needs.push(gate)?;
        }
        Ok(needs)
    }

    /// The needs of the processes, which watch these.
    fn process_needs(
        &self,
        alloc: Global,
        watched: &[Vec<u32>],
        bound: &[bool],
    ) -> Result<Vec<Vec<usize>>, NoMemory>
        requires few { length watched.now ≤ 2 ^ 32 }
        requires drivers { (p x : ℕ) → Contains (row_at (lists_of watched.now) p) x → x < length self.now.drivers }
        requires owners { (p x : ℕ) → Contains (row_at (lists_of watched.now) p) x → x < length self.now.owners }
        ensures size { IfOk result (λ needs. length needs.items ≡ length watched.now) }
        ensures needs { IfOk result (λ needs. (p : ℕ) → p < length watched.now → HasNeeds self.now (is_bound bound.now) (length watched.now) p (row_at (lists_of watched.now) p) (row_at (lists_of needs.items) p)) }
    {
        let mut needs = Vec::new(alloc);
        for process in 0..watched.len() {
            let list = self.needs_of(
                alloc,
                process as u32,
                watched[process].as_slice(),
                bound,
                watched.len(),
            )?;
            needs.push(list)?;
        }
        Ok(needs)
    }

    /// What a process needs that watches these.
    fn needs_of(
        &self,
        alloc: Global,
        process: u32,
        watched: &[u32],
        bound: &[bool],
        gates: usize,
    ) -> Result<Vec<usize>, NoMemory>
        requires drivers { (x : ℕ) → Contains watched.now x → x < length self.now.drivers }
        requires owners { (x : ℕ) → Contains watched.now x → x < length self.now.owners }
        requires fits { gates ≤ 2 ^ 32 }
        ensures { IfOk result (λ needs. HasNeeds self.now (is_bound bound.now) gates process watched.now needs.items) }
    {
        let mut needs = Vec::new(alloc);
        for thing in watched {
            self.push_need(process, *thing, bound, gates, &mut needs)?;
        }
        Ok(needs)
    }

    /// Adds what a process needs for one signal or memory that it watches.
    fn push_need(
        &self,
        process: u32,
        thing: u32,
        bound: &[bool],
        gates: usize,
        needs: &mut Vec<usize>,
    ) -> Result<(), NoMemory>
        requires drivers { thing < length self.now.drivers }
        requires owners { thing < length self.now.owners }
        requires fits { gates ≤ 2 ^ 32 }
        ensures { OnOk result (AddsNeeds self.now (is_bound bound.now) gates process thing needs.old.items needs.new.items) }
    {
        if has(bound, thing as usize) {
            return Ok(());
        }
        if is_alone(process, self.owners.row(thing as usize)) {
            return push_others(process, self.drivers.row(thing as usize), needs);
        }
        needs.push(gates + thing as usize)?;
        Ok(())
    }
}

/// Whether the signal or memory is bound. One past the list is not.
fn has(bound: &[bool], thing: usize) -> bool
    ensures { result ≡ is_bound bound.now thing }
{
    match bound.get(thing) {
        Some(is_bound) => *is_bound,
        None => false,
    }
}

/// Adds the drivers other than the process.
fn push_others(process: u32, drivers: &[u32], needs: &mut Vec<usize>) -> Result<(), NoMemory>
    ensures { OnOk result (AddsOthers process drivers.now needs.old.items needs.new.items) }
{
    for driver in drivers {
        push_other(process, *driver, needs)?;
    }
    Ok(())
}

/// Adds a driver unless it is the process.
fn push_other(process: u32, driver: u32, needs: &mut Vec<usize>) -> Result<(), NoMemory>
    ensures { OnOk result (needs.new.items ≡ (if driver == process then needs.old.items else needs.old.items ++ driver ∷ [])) }
{
    if driver != process {
        needs.push(driver as usize)?;
    }
    Ok(())
}

/// The numbers of a list, each as the number of a node.
fn numbers(alloc: Global, list: &[u32]) -> Result<Vec<usize>, NoMemory>
    ensures { IfOk result (λ numbers. numbers.items ≡ list.now) }
{
    let mut numbers = Vec::new(alloc);
    for number in list {
        numbers.push(*number as usize)?;
    }
    Ok(numbers)
}
