//! What is kept from step to step.

ghost use Rattle.std.specs.Prelude.{◌≡◌, ◌≤◌, ◌^◌, [], ℕ, IfOk, false, length, replicate};
ghost use Rattle.body_store.specs.Made.{nothing};
ghost use Rattle.code_values.specs.Values.{no_values};
ghost use Rattle.cover_marks.specs.Marks.{AreMarksOf};
ghost use Rattle.cover_points.specs.Listed.{points_of};
ghost use Rattle.cover_points.specs.Visits.{ArePlaced};
ghost use Rattle.design_model.specs.Lawful.{IsLawfulDesign};
ghost use Rattle.design_model.specs.View.{design_view};
ghost use Rattle.first_step.specs.store_knowledge.Knows.{Knows};
ghost use Rattle.first_step.specs.mark_laws.Marked.{AreVerdicts};
ghost use Rattle.machine_index.specs.Index.{IsIndexOf};
ghost use Rattle.signal_marks.specs.Seen.{AreSeen};
ghost use Rattle.step_start.specs.step_parts.AtStep.{flag_at};
ghost use Rattle.written_words.specs.Written.{AreRanges};
ghost use Rattle.replay_core.specs.Fits.{IsReplayable};

use body_rooms::store_rooms_law;
use body_store::{Store, premises_law};
use code_values::CodeValues;
use cov_host::NoMemory;
use cover_marks::Marks;
use cover_points::{MOST_POINTS, Points};
use design_model::Design;
use first_step::new_store_law;
use signal_marks::SignalMarks;
use std::alloc::Global;
use step_machines::MachineMarks;
use step_runs::MarkNotes;
use written_words::WrittenWords;

/// What is kept from step to step.
#[derive(Drop)]
pub(crate) struct ReplayState<'a> {
    /// What the dump has given.
    pub(crate) values: CodeValues,
    /// What is known of the signals.
    pub(crate) store: Store<'a>,
    /// By process, which Combs have surely acted.
    pub(crate) acted: Vec<bool>,
    /// The toggles that are marked already.
    pub(crate) seen: SignalMarks,
    /// The state machines, by their signals.
    pub(crate) machines: MachineMarks,
    /// The marks of the points.
    pub(crate) notes: MarkNotes<'a>,
}

/// What is kept of a design with these points before its first step, where there are so many codes. `followed` says
/// for each memory whether an Assign or Comb watches it.
pub(crate) fn make_state<'a>(
    alloc: Global,
    design: &'a Design,
    points: &'a Points,
    codes: usize,
    followed: &[bool],
) -> Result<ReplayState<'a>, NoMemory>
    requires replayable { IsReplayable (design_view design.now) points.now }
    requires placed { ArePlaced points.now }
    requires few { length (points_of points.now) ≤ MOST_POINTS }
    requires followed { length followed.now ≡ length design.now.memories }
    ensures knows { IfOk result (λ state. Knows (design_view design.now) nothing state.store) }
    ensures unacted { IfOk result (λ state. (p : ℕ) → flag_at state.acted.items p ≡ false) }
    ensures verdicts { IfOk result (λ state. AreVerdicts (design_view design.now) points.now [] state.notes.marks.verdicts) }
    ensures unseen { IfOk result (λ state. AreSeen (design_view design.now) points.now state.seen state.notes.marks.verdicts) }
    ensures first { IfOk result (λ state. state.notes.written.first ≡ length design.now.signals) }
    ensures ranges { IfOk result (λ state. AreRanges design.now.memories followed.now state.notes.written.ranges) }
    ensures values { IfOk result (λ state. state.values ≡ no_values codes) }
    ensures acted { IfOk result (λ state. length state.acted.items ≡ length design.now.processes) }
    ensures seen { IfOk result (λ state. length state.seen ≡ length design.now.signals) }
    ensures machines { IfOk result (λ state. IsIndexOf points.now.machines.items (length design.now.signals) state.machines.index) }
    ensures told { IfOk result (λ state. state.machines.told ≡ false) }
    ensures few_machines { IfOk result (λ state. length points.now.machines.items ≤ 2 ^ 32) }
    ensures points { IfOk result (λ state. state.notes.points.now ≡ points.now) }
    ensures marks { IfOk result (λ state. AreMarksOf points.now state.notes.marks) }
{
    let values = CodeValues::new(alloc, codes)?;
    let acted = unset_flags(alloc, design.processes.len())?;
    let seen = SignalMarks::new(alloc, design.signals.len())?;
    let machines = MachineMarks::new(alloc, points, design.signals.len())?;
    let marks = Marks::new(alloc, points)?;
    let store = new_store(alloc, design)?;
    let written = WrittenWords::new(alloc, design, followed)?;
    Ok(ReplayState {
        values,
        store,
        acted,
        seen,
        machines,
        notes: MarkNotes {
            marks,
            points,
            process: 0,
            written,
        },
    })
}

/// A store that knows nothing.
fn new_store<'a>(alloc: Global, design: &'a Design) -> Result<Store<'a>, NoMemory>
    requires { IsLawfulDesign (design_view design.now) }
    ensures { IfOk result (Knows (design_view design.now) nothing) }
{
    premises_law();
    store_rooms_law();
    new_store_law();
    Store::new(alloc, design)
}

/// So many flags, none of which is set.
fn unset_flags(alloc: Global, count: usize) -> Result<Vec<bool>, NoMemory>
    ensures { IfOk result (λ flags. flags.items ≡ replicate count false) }
{
    Ok(vec![in alloc; false; count]?)
}
