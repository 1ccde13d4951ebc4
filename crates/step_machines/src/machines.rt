//! The state machines of a design, by their signals.

ghost use Rattle.std.specs.Prelude.{◌≡◌, ◌≤◌, ◌^◌, ◌||◌, IfOk, List, false, length, not};
ghost use Rattle.body_replay.specs.Store.{Kept};
ghost use Rattle.cover_marks.specs.Marks.{AreMarksOf};
ghost use Rattle.cover_points.specs.Listed.{IsPointList};
ghost use Rattle.design_model.specs.Lawful.{IsLawfulDesign};
ghost use Rattle.cover_points.specs.design_machines.state_machines.Machines.{StateMachines};
ghost use Rattle.design_model.specs.View.{design_view};
ghost use Rattle.machine_index.specs.Index.{IsIndexOf};
ghost use Rattle.machine_laws.specs.Followed.{MarksMachines};
ghost use Rattle.step_parts.specs.replay_model.Step.{Closing};
ghost use Rattle.step_parts.specs.step_values.Vectors.{FitsSignals};
ghost use Rattle.step_parts.specs.store_knowledge.Knows.{Knows};
ghost use Rattle.step_machines.specs.Marked.{FitsMachines, IsMoving, IsOver, MarksAll, MarksThing};

use cov_host::NoMemory;
use cover_marks::Marks;
use cover_points::Points;
use design_model::Design;
use machine_marks::{MachineIndex, mark_machine, mark_states};
use std::alloc::Global;
use step_parts::{StepValues, Store, known_signal};

/// As many machines as can be numbered.
const MOST_MACHINES: usize = 1 << 32;

/// The state machines of a design by their signals, and whether their states were marked at a time of the window.
#[derive(Drop)]
pub struct MachineMarks {
    index: MachineIndex,
    told: bool,
}

impl MachineMarks {
    /// The machines of these points, of a design with so many signals. None of their states was marked.
    pub fn new(alloc: Global, points: &Points, signals: usize) -> Result<Self, NoMemory>
        ensures few { IfOk result (λ marks. length points.now.machines.items ≤ 2 ^ 32) }
        ensures index { IfOk result (λ marks. IsIndexOf points.now.machines.items signals marks.index) }
        ensures told { IfOk result (λ marks. marks.told ≡ false) }
    {
        // several machines may have one state, so there can be more of them than points
        if points.machines.len() > MOST_MACHINES {
            return Err(NoMemory);
        }
        let index = MachineIndex::new(alloc, points.machines.as_slice(), signals)?;
        Ok(MachineMarks { index, told: false })
    }

    /// Marks the states and arcs, over the step that ends at this time, of the machines of what may move: `moves`, in which memories are
    /// passed over. At the first listed time of the window the states of all machines are marked. It takes time for what may move, and for the
    /// states of its machines.
    pub fn mark(
        &mut self,
        moves: &[usize],
        design: &Design,
        points: &Points,
        values: &StepValues,
        store: &Store,
        time: u64,
        listed: bool,
        marks: &mut Marks,
    )
        requires design { FitsMachines (design_view design.now) points.now self.old.index }
        requires known { (k : Kept) × Knows (design_view design.now) k store.now }
        requires fits { FitsSignals (design_view design.now) values.now }
        requires marks { AreMarksOf points.now marks.old }
        ensures index { self.new.index ≡ self.old.index }
        ensures told { self.new.told ≡ listed }
        ensures points { AreMarksOf points.now marks.new }
        ensures machines { (st : Closing) → IsOver st moves.now time listed store.now values.now → MarksMachines st points.now (not listed || self.old.told) marks.old.verdicts marks.new.verdicts }
    {
        if listed && !self.told {
            mark_all_states(design, points, store, time, marks);
        }
        self.told = listed;
        for thing in moves {
            mark_thing(
                *thing,
                design,
                &self.index,
                points,
                values,
                store,
                time,
                listed,
                marks,
            );
        }
    }

    /// The states of all machines are to be marked once more: after a gap in the dump they may be others.
    pub fn forget(&mut self)
        ensures index { self.new.index ≡ self.old.index }
        ensures told { self.new.told ≡ false }
    {
        self.told = false;
    }
}

/// Marks the states of all machines by what is known at this time.
fn mark_all_states(design: &Design, points: &Points, store: &Store, time: u64, marks: &mut Marks)
    requires lawful { IsLawfulDesign (design_view design.now) }
    requires listed { (machines : StateMachines) × IsPointList (design_view design.now) machines points.now }
    requires few { length points.now.machines.items ≤ 2 ^ 32 }
    requires known { (k : Kept) × Knows (design_view design.now) k store.now }
    requires marks { AreMarksOf points.now marks.old }
    ensures points { AreMarksOf points.now marks.new }
    ensures states { (k : Kept) → Knows (design_view design.now) k store.now → MarksAll (design_view design.now) points.now k time marks.old.verdicts marks.new.verdicts }
{
    for (number, machine) in points.machines.iter().enumerate() {
        let now = known_signal(store, machine.signal);
        mark_states(marks, points, number as u32, machine, &now, time);
    }
}

/// Marks the states and arcs of the machines of one signal. A memory is passed over.
fn mark_thing(
    thing: usize,
    design: &Design,
    index: &MachineIndex,
    points: &Points,
    values: &StepValues,
    store: &Store,
    time: u64,
    listed: bool,
    marks: &mut Marks,
)
    requires design { FitsMachines (design_view design.now) points.now index.now }
    requires known { (k : Kept) × Knows (design_view design.now) k store.now }
    requires fits { FitsSignals (design_view design.now) values.now }
    requires marks { AreMarksOf points.now marks.old }
    ensures points { AreMarksOf points.now marks.new }
    ensures machines { (st : Closing) → IsMoving st thing time listed store.now values.now → MarksThing st points.now thing marks.old.verdicts marks.new.verdicts }
{
    if thing >= design.signals.len() {
        return;
    }
    let signal = thing as u32;
    let numbers = index.of_signal(signal);
    let after = known_signal(store, signal);
    let before = values.before_step(signal, &after, listed);
    let machines = points.machines.as_slice();
    for number in numbers {
        let machine = &machines[*number as usize];
        mark_machine(
            marks, points, *number, machine, &before, &after, listed, time,
        );
    }
}
