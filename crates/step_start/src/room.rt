use early_sets::Wakes;
use index_sets::{IndexSet, Rows};
use process_targets::Bits;
use run_order::RunOrder;
use step_parts::SignalChange;
use still_check::StepValues;
use value_store::Queue;
use wake_list::WakeList;

/// What is made of a design and its binding once, and read in each step.
pub struct StepTables {
    /// The code of each signal that the dump has.
    pub codes: Vec<Option<u32>>,
    /// The signals of each code.
    pub signals: Rows<u32>,
    /// The bits that each process may write by blocking assignments.
    pub targets: Rows<Bits>,
    /// The signals and memories that each process assigns.
    pub written: Rows<u32>,
    /// The place of each Assign and Comb in the order in which they run.
    pub order: RunOrder,
    /// The place of each Clocked in the order in which they run.
    pub clocked: RunOrder,
}

// Written out so that a crate which lets one go does not prove again how each of its parts is let go.
impl Drop for StepTables {
    fn drop(self) {
        let StepTables {
            codes: _,
            signals: _,
            targets: _,
            written: _,
            order: _,
            clocked: _,
        } = self;
    }
}

/// What is found in a step.
pub struct StepRoom {
    /// The signals whose value has changed.
    pub changed: IndexSet,
    /// Their lowest bits before and after.
    pub changes: Queue<SignalChange>,
    /// What may move, and the processes that this wakes.
    pub sets: Wakes,
    /// The Clocked among these processes in their order.
    pub clocked: WakeList,
    /// The signals with a code that a Clocked which ran assigns.
    pub overwritten: IndexSet,
    /// The Assigns and Combs among these processes, each once.
    pub running: IndexSet,
    /// The same in the order in which they run.
    pub list: WakeList,
    /// What is known of the signals that may move, before the step and as it was made in it.
    pub values: StepValues,
}

// Written out so that a crate which lets one go does not prove again how each of its parts is let go.
impl Drop for StepRoom {
    fn drop(self) {
        let StepRoom {
            changed: _,
            changes: _,
            sets: _,
            clocked: _,
            overwritten: _,
            running: _,
            list: _,
            values: _,
        } = self;
    }
}
