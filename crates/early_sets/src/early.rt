//! What is early for a clean block before what it reaches is put in.

ghost use Rattle.std.specs.Prelude.{◌≡◌, ◌<◌, ◌≤◌, ◌+◌, if◌then◌else◌, length};
ghost use Rattle.std.specs.List.{sum_by};
ghost use Rattle.early_sets.specs.Adds.{Adds};
ghost use Rattle.early_sets.specs.declared.habit.Habit.TheVariants.{Free};
ghost use Rattle.early_sets.specs.Changes.{is_told_by};
ghost use Rattle.early_sets.specs.Early.{IsEarlyInput, IsTriggerTarget, is_event_signal, is_free};
ghost use Rattle.early_sets.specs.Turns.{process_turns};

use crate::changes::Changes;
use crate::closure::{insert_row, insert_where};
use crate::{Habit, Turns};
use index_sets::IndexSet;
use wake_tables::WakeTables;

/// Whether an event list names the signal.
fn is_event_signal(tables: &WakeTables, signal: usize) -> bool
    requires { signal < tables.now.things }
    ensures { result ≡ is_event_signal tables.now signal }
{
    !tables.rising.row(signal).is_empty() || !tables.falling.row(signal).is_empty()
}

/// Whether an input may move before the trigger's block is evaluated.
fn is_free(tables: &WakeTables, habit: Habit, input: usize) -> bool
    requires { input < tables.now.things }
    ensures { result ≡ is_free tables.now habit input }
{
    match habit {
        Habit::Free => true,
        Habit::Late => is_event_signal(tables, input),
    }
}

/// The habit, if the trigger is an input; before another trigger rises or falls any input may move.
pub(crate) fn habit_for(changes: &Changes, habit: Habit, trigger: usize) -> Habit
    requires { trigger < length changes.now.told.items }
    ensures { result ≡ (if is_told_by changes.now.told.items trigger then habit else Free) }
{
    if changes.told[trigger] {
        habit
    } else {
        Habit::Free
    }
}

/// Puts in the inputs that change and may move before the block is evaluated, except the trigger.
pub(crate) fn insert_inputs<T: Turns>(
    tables: &WakeTables,
    habit: Habit,
    noted: &IndexSet,
    trigger: usize,
    early: &mut IndexSet,
    turns: &mut T,
)
    requires noted { noted.now.size ≡ tables.now.things }
    requires size { early.old.size ≡ tables.now.things }
    ensures size { early.new.size ≡ early.old.size }
    ensures adds { Adds (IsEarlyInput tables.now habit noted.now.items (length noted.now.items) trigger) early.old.items early.new.items }
    ensures turns { T.counted turns.new ≤ T.counted turns.old + length noted.now.items }
{
    for place in 0..noted.len() {
        turns.count();
        let input = noted.get(place);
        let free = is_free(tables, habit, input);
        insert_where(free, input, Some(trigger), early);
    }
}

/// Puts in the blocking targets of the processes that the trigger may wake, except those of the block and the trigger.
pub(crate) fn insert_targets<T: Turns>(
    tables: &WakeTables,
    processes: &IndexSet,
    block: usize,
    trigger: usize,
    early: &mut IndexSet,
    turns: &mut T,
)
    requires processes { processes.now.size ≡ tables.now.processes }
    requires size { early.old.size ≡ tables.now.things }
    ensures size { early.new.size ≡ early.old.size }
    ensures adds { Adds (IsTriggerTarget tables.now processes.now.items (length processes.now.items) block trigger) early.old.items early.new.items }
    ensures turns { T.counted turns.new ≤ T.counted turns.old + sum_by (process_turns tables.now) processes.now.items }
{
    for place in 0..processes.len() {
        turns.count();
        let process = processes.get(place);
        insert_row(
            process != block,
            tables.blocking.row(process),
            Some(trigger),
            early,
            turns,
        );
    }
}
