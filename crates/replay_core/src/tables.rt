//! What is made of a design and the codes of its signals once.

ghost use Rattle.std.specs.Prelude.{◌≡◌, ◌<◌, ◌++◌, [], ℕ, Bool, IfNone, IfOk, IfSome, None, Some, length, slice_index_or};
ghost use Rattle.design_model.specs.Lawful.{IsLawfulDesign};
ghost use Rattle.design_model.specs.View.{design_view};
ghost use Rattle.process_order.specs.Tables.{tables_of};
ghost use Rattle.process_targets.specs.Rows.{AreTargetRows};
ghost use Rattle.replay_model.specs.Tables.{AreTables};
ghost use Rattle.run_order.specs.Ranked.{AreRanksOf};
ghost use Rattle.first_step.specs.step_changes.Changes.{AreSignalsOf};
ghost use Rattle.first_step.specs.step_values.Loose.{has_code};
ghost use Rattle.step_runs.specs.Rows.{AreWrittenRows};
ghost use Rattle.replay_core.specs.Codes.{flags_of};
ghost use Rattle.replay_core.specs.Fits.{FitsTables, HasInputs, IsUnbound};

use crate::rows::{code_lists, joined};
use cov_host::NoMemory;
use design_model::{Design, Signal};
use design_wakes::transpose;
use first_step::{Wake, check_rows, wake_rows};
use index_sets::Rows;
use process_order::{ProcessTables, process_tables};
use process_targets::target_rows;
use run_order::RunOrder;
use std::alloc::Global;
use step_runs::{rows_law, written_rows};
use step_start::StepTables;

/// What is read in each step.
pub(crate) struct ReplayTables {
    /// What the step begins with.
    pub(crate) step: StepTables,
    /// The order in which the processes are run.
    pub(crate) processes: ProcessTables,
    /// What each process watches, with the bits that wake it.
    pub(crate) wakes: Rows<Wake>,
    /// The signals with a code of which each process may write a bit.
    pub(crate) checks: Rows<u32>,
    /// Whether an input has no code: it may then change at times that the dump does not list.
    pub(crate) lacks_input: bool,
}

// Written out so that a crate which lets one go does not prove again how each of its parts is let go.
impl Drop for ReplayTables {
    fn drop(self) {
        let ReplayTables {
            step: _,
            processes: _,
            wakes: _,
            checks: _,
            lacks_input: _,
        } = self;
    }
}

/// The tables of a design, of which each signal has this code. The codes are below `count`, and `bound` says for
/// each signal whether it has one. It takes the time of the design's text.
pub(crate) fn make_tables(
    alloc: Global,
    design: &Design,
    codes: Vec<Option<u32>>,
    bound: &[bool],
    count: usize,
) -> Result<Box<ReplayTables>, NoMemory>
    requires lawful { IsLawfulDesign (design_view design.now) }
    requires codes { length codes.items ≡ length design.now.signals }
    requires bound { bound.now ≡ flags_of codes.items }
    requires within { (s code : ℕ) → slice_index_or codes.items s None ≡ Some code → code < count }
    ensures fits { IfOk result (λ tables. FitsTables (design_view design.now) tables.value) }
    ensures codes { IfOk result (λ tables. tables.value.step.codes.items ≡ codes.items) }
    ensures count { IfOk result (λ tables. length tables.value.step.signals ≡ count) }
{
    let processes = process_tables(alloc, design, bound)?;
    let step = step_tables(alloc, design, codes, &processes, count)?;
    let wakes = wake_rows(alloc, design, &processes.watched, &step.targets)?;
    let checks = check_rows(
        alloc,
        design.processes.len(),
        &step.targets,
        step.codes.as_slice(),
    )?;
    rows_law();
    let unbound = first_unbound(design.signals.as_slice(), bound);
    let lacks_input = unbound.is_some();
    let tables = ReplayTables {
        step,
        processes,
        wakes,
        checks,
        lacks_input,
    };
    Ok(Box::new(alloc, tables)?)
}

/// What the steps begin with.
fn step_tables(
    alloc: Global,
    design: &Design,
    codes: Vec<Option<u32>>,
    processes: &ProcessTables,
    count: usize,
) -> Result<StepTables, NoMemory>
    requires lawful { IsLawfulDesign (design_view design.now) }
    requires codes { length codes.items ≡ length design.now.signals }
    requires within { (s code : ℕ) → slice_index_or codes.items s None ≡ Some code → code < count }
    requires tabled { AreTables (design_view design.now) (has_code codes.items) (tables_of processes.now) }
    ensures codes { IfOk result (λ step. step.codes.items ≡ codes.items) }
    ensures signals { IfOk result (λ step. AreSignalsOf codes.items step.signals) }
    ensures count { IfOk result (λ step. length step.signals ≡ count) }
    ensures targets { IfOk result (λ step. AreTargetRows (design_view design.now) step.targets) }
    ensures ranked { IfOk result (λ step. AreRanksOf (processes.now.order.items ++ processes.now.last.items) (length design.now.processes) step.order) }
    ensures clocked { IfOk result (λ step. AreRanksOf processes.now.clocked.items (length design.now.processes) step.clocked) }
    ensures written { IfOk result (λ step. AreWrittenRows (design_view design.now) step.written) }
{
    let lists = code_lists(alloc, codes.as_slice())?;
    let signals = transpose(alloc, lists.as_slice(), count)?;
    let targets = target_rows(alloc, design)?;
    let order = order_of(alloc, design, processes)?;
    let clocked = clocked_order(alloc, design, processes)?;
    let written = written_rows(alloc, design)?;
    Ok(StepTables {
        codes,
        signals,
        targets,
        order,
        clocked,
        written,
    })
}

/// The place of each Assign and Comb in the order in which they run.
fn order_of(alloc: Global, design: &Design, processes: &ProcessTables) -> Result<RunOrder, NoMemory>
    requires lawful { IsLawfulDesign (design_view design.now) }
    requires tabled { (bound : ℕ → Bool) × AreTables (design_view design.now) bound (tables_of processes.now) }
    ensures { IfOk result (AreRanksOf (processes.now.order.items ++ processes.now.last.items) (length design.now.processes)) }
{
    let all = joined(alloc, processes.order.as_slice(), processes.last.as_slice())?;
    RunOrder::new(alloc, design.processes.len() as u32, all.as_slice())
}

/// The place of each Clocked among them, in order of the design.
fn clocked_order(
    alloc: Global,
    design: &Design,
    processes: &ProcessTables,
) -> Result<RunOrder, NoMemory>
    requires lawful { IsLawfulDesign (design_view design.now) }
    requires tabled { (bound : ℕ → Bool) × AreTables (design_view design.now) bound (tables_of processes.now) }
    ensures { IfOk result (AreRanksOf processes.now.clocked.items (length design.now.processes)) }
{
    RunOrder::new(
        alloc,
        design.processes.len() as u32,
        processes.clocked.as_slice(),
    )
}

/// The number of the first input that has no code, where `bound` says for each signal whether it has one.
fn first_unbound(signals: &[Signal], bound: &[bool]) -> Option<usize>
    requires { length bound.now ≡ length signals.now }
    ensures first { IfSome result (IsUnbound signals.now bound.now) }
    ensures none { IfNone result (HasInputs signals.now bound.now) }
{
    for (place, signal) in signals.iter().enumerate() {
        if signal.input && !bound[place] {
            return Some(place);
        }
    }
    None
}
