//! The room of a step, which is used in each step anew.

ghost use Rattle.std.specs.Prelude.{◌≡◌, ◌<◌, ◌≤◌, ◌+◌, [], ℕ, IfOk, List, length};
ghost use Rattle.design_model.specs.Lawful.{IsLawfulDesign};
ghost use Rattle.design_model.specs.View.{design_view};
ghost use Rattle.early_sets.specs.WakeState.{state_of};
ghost use Rattle.index_sets.specs.Rows.{row_at};
ghost use Rattle.first_step.specs.step_values.Vectors.{FitsSignals};
ghost use Rattle.first_step.specs.step_wakes.Step.{IsOfDesign, flag_at};
ghost use Rattle.body_store.specs.Made.{nothing};
ghost use Rattle.step_words.specs.Words.{FitsRanges, HasWords};
ghost use Rattle.wake_laws.specs.OfDesign.{AreWritersOf};
ghost use Rattle.written_words.specs.Written.{AreRanges};
ghost use Rattle.written_words.specs.declared.range.WordRange.{WordRange};
ghost use Rattle.replay_core.specs.Codes.{flags_of};
ghost use Rattle.replay_core.specs.Fits.{FitsRoom, FitsTables};

use crate::tables::ReplayTables;
use body_store::premises_law;
use cov_host::NoMemory;
use design_model::Design;
use dump_check::CheckOrder;
use first_step::{SavedValues, Scratch, StepValues};
use index_sets::IndexSet;
use round_wakes::wakes_by_rounds;
use std::alloc::Global;
use step_start::StepRoom;
use step_words::StepWords;
use value_store::Queue;
use wake_list::WakeList;

/// The parts of an assignment are at most as many as the bits of its target.
const MOST_PIECES: usize = 128;

/// What is found in a step.
pub(crate) struct ReplayRoom {
    /// What the step begins with.
    pub(crate) step: StepRoom,
    /// What the run of a process uses.
    pub(crate) scratch: Scratch,
    /// The clean Clocked processes, in order of the rounds in which their triggers became single.
    pub(crate) by_round: WakeList,
    /// The Clocked processes that are not clean, while the clean ones run.
    pub(crate) later: Queue<u32>,
    /// The processes that ran, in order: the Clocked, and then the others.
    pub(crate) ran: Queue<usize>,
    /// The signals that are compared with the dump.
    pub(crate) checks: CheckOrder,
    /// The memories of which a word has changed.
    pub(crate) words: StepWords,
}

// Written out so that a crate which lets one go does not prove again how each of its parts is let go.
impl Drop for ReplayRoom {
    fn drop(self) {
        let ReplayRoom {
            step: _,
            scratch: _,
            by_round: _,
            later: _,
            ran: _,
            checks: _,
            words: _,
        } = self;
    }
}

/// The room for the steps of a design with these tables. `bound` says for each signal whether the dump has it, and
/// `followed` for each memory whether an Assign or Comb watches it.
pub(crate) fn make_room(
    alloc: Global,
    design: &Design,
    tables: &ReplayTables,
    bound: &[bool],
    followed: &[bool],
) -> Result<Box<ReplayRoom>, NoMemory>
    requires lawful { IsLawfulDesign (design_view design.now) }
    requires tables { FitsTables (design_view design.now) tables.now }
    requires bound { bound.now ≡ flags_of tables.now.step.codes.items }
    requires followed { length followed.now ≡ length design.now.memories }
    ensures fits { IfOk result (λ room. FitsRoom (design_view design.now) tables.now room.value) }
    ensures words { IfOk result (λ room. (ranges : List WordRange) → AreRanges design.now.memories followed.now ranges → FitsRanges (design_view design.now) ranges room.value.words × HasWords (design_view design.now) nothing ranges room.value.words) }
    ensures none { IfOk result (λ room. room.value.step.list.pairs ≡ []) }
    ensures none_clocked { IfOk result (λ room. room.value.step.clocked.pairs ≡ []) }
{
    premises_law();
    let scratch = scratch_room(alloc, design, tables)?;
    let by_round = round_list(alloc, design)?;
    let later = Queue::new(alloc, design.processes.len())?;
    let ran = Queue::new(alloc, design.processes.len())?;
    let checks = CheckOrder::new(alloc, design.signals.len() as u32)?;
    let step = step_room(alloc, design, bound)?;
    let words = StepWords::new(alloc, design, followed)?;
    let room = ReplayRoom {
        step,
        scratch,
        by_round,
        later,
        ran,
        checks,
        words,
    };
    Ok(Box::new(alloc, room)?)
}

/// The room for what a step begins with.
fn step_room(alloc: Global, design: &Design, bound: &[bool]) -> Result<StepRoom, NoMemory>
    requires { IsLawfulDesign (design_view design.now) }
    ensures changed { IfOk result (λ step. step.changed.size ≡ length design.now.signals) }
    ensures changes { IfOk result (λ step. step.changes.room ≡ length design.now.signals) }
    ensures sets { IfOk result (λ step. IsOfDesign (design_view design.now) bound.now (state_of step.sets)) }
    ensures writers { IfOk result (λ step. AreWritersOf (design_view design.now) (flag_at bound.now) (state_of step.sets).tables.things (state_of step.sets).writers) }
    ensures list { IfOk result (λ step. step.list.count ≡ length design.now.processes) }
    ensures none { IfOk result (λ step. step.list.pairs ≡ []) }
    ensures clocked { IfOk result (λ step. step.clocked.count ≡ length design.now.processes) }
    ensures none_clocked { IfOk result (λ step. step.clocked.pairs ≡ []) }
    ensures overwritten { IfOk result (λ step. step.overwritten.size ≡ length design.now.signals) }
    ensures running { IfOk result (λ step. step.running.size ≡ length design.now.processes) }
    ensures values { IfOk result (λ step. FitsSignals (design_view design.now) step.values) }
{
    let lists = step_lists(alloc, design)?;
    let changes = Queue::new(alloc, design.signals.len())?;
    let values = StepValues::new(alloc, design)?;
    let sets = wakes_by_rounds(alloc, design, bound)?;
    Ok(StepRoom {
        changed: lists.changed,
        changes,
        sets,
        clocked: lists.clocked,
        overwritten: lists.overwritten,
        running: lists.running,
        list: lists.list,
        values,
    })
}

/// The sets and wake lists among what a step begins with.
#[derive(Drop)]
struct StepLists {
    changed: IndexSet,
    overwritten: IndexSet,
    running: IndexSet,
    clocked: WakeList,
    list: WakeList,
}

/// They are of the size of the design, and empty.
fn step_lists(alloc: Global, design: &Design) -> Result<StepLists, NoMemory>
    requires { IsLawfulDesign (design_view design.now) }
    ensures changed { IfOk result (λ lists. lists.changed.size ≡ length design.now.signals) }
    ensures overwritten { IfOk result (λ lists. lists.overwritten.size ≡ length design.now.signals) }
    ensures running { IfOk result (λ lists. lists.running.size ≡ length design.now.processes) }
    ensures clocked { IfOk result (λ lists. lists.clocked.count ≡ length design.now.processes) }
    ensures none_clocked { IfOk result (λ lists. lists.clocked.pairs ≡ []) }
    ensures list { IfOk result (λ lists. lists.list.count ≡ length design.now.processes) }
    ensures none { IfOk result (λ lists. lists.list.pairs ≡ []) }
{
    let (changed, overwritten, running) = index_sets(alloc, design)?;
    let (clocked, list) = wake_lists(alloc, design)?;
    Ok(StepLists {
        changed,
        overwritten,
        running,
        clocked,
        list,
    })
}

/// The sets of the signals that have changed, of those that the Clocked have overwritten, and of the processes to run.
fn index_sets(alloc: Global, design: &Design) -> Result<(IndexSet, IndexSet, IndexSet), NoMemory>
    ensures changed { IfOk result (λ sets. sets.0.size ≡ length design.now.signals) }
    ensures overwritten { IfOk result (λ sets. sets.1.size ≡ length design.now.signals) }
    ensures running { IfOk result (λ sets. sets.2.size ≡ length design.now.processes) }
{
    let changed = IndexSet::new(alloc, design.signals.len())?;
    let overwritten = IndexSet::new(alloc, design.signals.len())?;
    let running = IndexSet::new(alloc, design.processes.len())?;
    Ok((changed, overwritten, running))
}

/// The wake list of the Clocked, and that of the others.
fn wake_lists(alloc: Global, design: &Design) -> Result<(WakeList, WakeList), NoMemory>
    requires { IsLawfulDesign (design_view design.now) }
    ensures clocked { IfOk result (λ lists. lists.0.count ≡ length design.now.processes) }
    ensures none_clocked { IfOk result (λ lists. lists.0.pairs ≡ []) }
    ensures list { IfOk result (λ lists. lists.1.count ≡ length design.now.processes) }
    ensures none { IfOk result (λ lists. lists.1.pairs ≡ []) }
{
    let clocked = WakeList::new(alloc, design.processes.len() as u32)?;
    let list = WakeList::new(alloc, design.processes.len() as u32)?;
    Ok((clocked, list))
}

/// The list of the clean Clocked by their rounds, of which there are at most as many as signals and memories after the first.
fn round_list(alloc: Global, design: &Design) -> Result<WakeList, NoMemory>
    requires { IsLawfulDesign (design_view design.now) }
    ensures places { IfOk result (λ list. length design.now.processes ≤ list.count) }
    ensures ranks { IfOk result (λ list. length design.now.signals + length design.now.memories < list.count) }
    ensures none { IfOk result (λ list. list.pairs ≡ []) }
{
    let things = design.signals.len() + design.memories.len();
    let count = design.processes.len() + things + 1;
    WakeList::new(alloc, count as u32)
}

/// The room for the run of a process.
fn scratch_room(alloc: Global, design: &Design, tables: &ReplayTables) -> Result<Scratch, NoMemory>
    requires { FitsTables (design_view design.now) tables.now }
    ensures saved { IfOk result (λ scratch. (p : ℕ) → p < length design.now.processes → length (row_at tables.now.step.targets p) ≤ length scratch.saved) }
    ensures empty { IfOk result (λ scratch. scratch.pieces.items ≡ []) }
    ensures pieces { IfOk result (λ scratch. 128 ≤ scratch.pieces.room) }
{
    let saved = SavedValues::new(alloc, &tables.step.targets, design.processes.len())?;
    let pieces = Queue::new(alloc, MOST_PIECES)?;
    Ok(Scratch { saved, pieces })
}
