ghost use Rattle.std.specs.Prelude.{◌≡◌, ◌↔◌, ◌<◌, ◌≤◌, ◌^◌, ◌∷◌, [], ℕ, List, IfOk, OnOk, length, map};
ghost use Rattle.std.specs.List.{Contains};
ghost use Rattle.design_machines.specs.declared.machine.Machine.{Machine as TheMachine};
ghost use Rattle.machine_index.specs.Index.{HasSignal, IsIndexOf};

use cov_host::NoMemory;
use design_machines::Machine;
use design_wakes::transpose;
use index_sets::Rows;
use std::alloc::Global;

/// The state machines of each signal.
#[derive(Drop)]
pub struct MachineIndex {
    /// For each signal the places of the machines whose variable it is.
    rows: Rows<u32>,
}

impl MachineIndex {
    /// The index of these machines, for signals that are numbered below a count.
    pub fn new(alloc: Global, machines: &[Machine], signals: usize) -> Result<Self, NoMemory>
        requires { length machines.now ≤ 2 ^ 32 }
        ensures { IfOk result (IsIndexOf machines.now signals) }
    {
        let lists = signal_lists(alloc, machines)?;
        let rows = transpose(alloc, lists.as_slice(), signals)?;
        Ok(MachineIndex { rows })
    }

    /// The places of the machines whose variable is a signal. It takes constant time and no memory.
    pub fn of_signal(&self, signal: u32) -> &[u32]
        requires { signal < length self.now.rows }
        ensures { (machines : List TheMachine) (signals k : ℕ) → IsIndexOf machines signals self.now → signal < signals → Contains result.now k ↔ HasSignal machines k signal }
    {
        self.rows.row(signal as usize)
    }
}

/// For each machine a list with its signal alone.
fn signal_lists(alloc: Global, machines: &[Machine]) -> Result<Vec<Vec<u32>>, NoMemory>
    ensures { IfOk result (λ lists. map (λ list. list.items) lists.items ≡ map (λ machine. machine.signal ∷ []) machines.now) }
{
    let mut lists = Vec::with_capacity(alloc, machines.len())?;
    for machine in machines {
        lists.push(list_of(alloc, machine.signal)?)?;
    }
    Ok(lists)
}

/// A list with one number.
fn list_of(alloc: Global, number: u32) -> Result<Vec<u32>, NoMemory>
    ensures { IfOk result (λ list. list.items ≡ number ∷ []) }
{
    let mut list = Vec::new(alloc);
    list.push(number)?;
    Ok(list)
}
