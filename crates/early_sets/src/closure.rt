//! The least sets of signals and memories, and of the processes that they wake, by a work list.

ghost use Rattle.std.specs.Prelude.{◌≡◌, ◌<◌, ◌≤◌, ◌↔◌, ◌+◌, [], ℕ, drop, length, true};
ghost use Rattle.std.specs.List.{Contains, sum_by};
ghost use Rattle.early_sets.specs.Adds.{Adds};
ghost use Rattle.early_sets.specs.Changes.{edges_of};
ghost use Rattle.early_sets.specs.Once.{IsOnce};
ghost use Rattle.early_sets.specs.Reached.{IsItem, IsItemWhere, IsRowItem, IsTargetBy, IsTargetFrom, IsWoken, MayWakeBy, Reached};
ghost use Rattle.early_sets.specs.Turns.{listeners, all_turns, process_turns, target_count};

use crate::changes::Changes;
use crate::rule::is_apart;
use crate::{Rule, Turns};
use index_sets::IndexSet;
use wake_tables::WakeTables;

/// Puts in the things that `seeds` reach: what the processes may write that a member may wake. The processes are those
/// that a member may wake. Each member and each process is taken once, with what it wakes or may write.
pub(crate) fn close<T: Turns>(
    tables: &WakeTables,
    changes: &Changes,
    rule: Rule,
    things: &mut IndexSet,
    processes: &mut IndexSet,
    turns: &mut T,
)
    requires changes { length changes.now.told.items ≡ tables.now.things }
    requires things { things.old.size ≡ tables.now.things }
    requires processes { processes.old.size ≡ tables.now.processes }
    requires none_woken { processes.old.items ≡ [] }
    ensures things_size { things.new.size ≡ things.old.size }
    ensures processes_size { processes.new.size ≡ processes.old.size }
    ensures things { (x : ℕ) → Contains things.new.items x ↔ Reached tables.now (edges_of changes.now) rule (Contains things.old.items) x }
    ensures processes { (p : ℕ) → Contains processes.new.items p ↔ IsWoken tables.now (edges_of changes.now) rule (Contains things.old.items) p }
    ensures things_once { IsOnce things.old.items → IsOnce things.new.items }
    ensures processes_once { IsOnce processes.new.items }
    ensures turns { T.counted turns.new ≤ T.counted turns.old + all_turns tables.now things.new.items }
{
    let mut taken = 0;
    'members: while taken < things.len() {
        turns.count();
        let known = processes.len();
        wake(tables, changes, things.get(taken), processes, turns);
        write_all(tables, rule, processes, known, things, turns);
        taken += 1;
    }
}

/// Puts in the processes that a change of the thing may wake.
pub(crate) fn wake<T: Turns>(
    tables: &WakeTables,
    changes: &Changes,
    thing: usize,
    processes: &mut IndexSet,
    turns: &mut T,
)
    requires changes { length changes.now.told.items ≡ tables.now.things }
    requires thing { thing < tables.now.things }
    requires size { processes.old.size ≡ tables.now.processes }
    ensures size { processes.new.size ≡ processes.old.size }
    ensures adds { Adds (MayWakeBy tables.now (edges_of changes.now) thing) processes.old.items processes.new.items }
    ensures turns { T.counted turns.new ≤ T.counted turns.old + length (listeners tables.now thing) }
{
    let may_be = changes.edges(thing);
    insert_row(true, tables.level.row(thing), None, processes, turns);
    insert_row(
        may_be.rise,
        tables.rising.row(thing),
        None,
        processes,
        turns,
    );
    insert_row(
        may_be.fall,
        tables.falling.row(thing),
        None,
        processes,
        turns,
    );
}

/// Puts in what the processes from a place on may write.
fn write_all<T: Turns>(
    tables: &WakeTables,
    rule: Rule,
    processes: &IndexSet,
    from: usize,
    things: &mut IndexSet,
    turns: &mut T,
)
    requires processes { processes.now.size ≡ tables.now.processes }
    requires things { things.old.size ≡ tables.now.things }
    requires from { from ≤ length processes.now.items }
    ensures size { things.new.size ≡ things.old.size }
    ensures adds { Adds (IsTargetFrom tables.now rule processes.now.items from (length processes.now.items)) things.old.items things.new.items }
    ensures turns { T.counted turns.new ≤ T.counted turns.old + sum_by (process_turns tables.now) (drop from processes.now.items) }
{
    for place in from..processes.len() {
        turns.count();
        write(tables, rule, processes.get(place), things, turns);
    }
}

/// Puts in what a process may write.
fn write<T: Turns>(
    tables: &WakeTables,
    rule: Rule,
    process: usize,
    things: &mut IndexSet,
    turns: &mut T,
)
    requires process { process < tables.now.processes }
    requires size { things.old.size ≡ tables.now.things }
    ensures size { things.new.size ≡ things.old.size }
    ensures adds { Adds (IsTargetBy tables.now rule process) things.old.items things.new.items }
    ensures turns { T.counted turns.new ≤ T.counted turns.old + target_count tables.now process }
{
    let other = is_apart(rule.block, process);
    insert_row(
        true,
        tables.nonblocking.row(process),
        rule.trigger,
        things,
        turns,
    );
    insert_row(
        other,
        tables.blocking.row(process),
        rule.trigger,
        things,
        turns,
    );
}

/// Puts in the items of a row, except one, where a condition holds.
pub(crate) fn insert_row<T: Turns>(
    condition: bool,
    row: &[u32],
    except: Option<usize>,
    set: &mut IndexSet,
    turns: &mut T,
)
    requires { (x : ℕ) → Contains row.now x → x < set.old.size }
    ensures size { set.new.size ≡ set.old.size }
    ensures adds { Adds (IsRowItem condition row.now except) set.old.items set.new.items }
    ensures turns { T.counted turns.new ≤ T.counted turns.old + length row.now }
{
    if condition {
        insert_items(row, except, set, turns);
    }
}

/// Puts in the items of a row, except one.
fn insert_items<T: Turns>(row: &[u32], except: Option<usize>, set: &mut IndexSet, turns: &mut T)
    requires { (x : ℕ) → Contains row.now x → x < set.old.size }
    ensures size { set.new.size ≡ set.old.size }
    ensures adds { Adds (IsRowItem true row.now except) set.old.items set.new.items }
    ensures turns { T.counted turns.new ≤ T.counted turns.old + length row.now }
{
    for item in row {
        turns.count();
        insert_item(*item as usize, except, set);
    }
}

/// Puts a number in where a condition holds, unless it is that one.
pub(crate) fn insert_where(
    condition: bool,
    number: usize,
    except: Option<usize>,
    set: &mut IndexSet,
)
    requires { number < set.old.size }
    ensures size { set.new.size ≡ set.old.size }
    ensures adds { Adds (IsItemWhere condition number except) set.old.items set.new.items }
    ensures few { length set.new.items ≤ length set.old.items + 1 }
{
    if condition {
        insert_item(number, except, set);
    }
}

/// Puts a number in, unless it is that one.
fn insert_item(number: usize, except: Option<usize>, set: &mut IndexSet)
    requires { number < set.old.size }
    ensures size { set.new.size ≡ set.old.size }
    ensures adds { Adds (IsItem number except) set.old.items set.new.items }
    ensures few { length set.new.items ≤ length set.old.items + 1 }
{
    if is_apart(except, number) {
        let _ = set.insert(number);
    }
}

/// Puts in the members of another set.
pub(crate) fn insert_members<T: Turns>(from: &IndexSet, into: &mut IndexSet, turns: &mut T)
    requires { from.now.size ≡ into.old.size }
    ensures size { into.new.size ≡ into.old.size }
    ensures adds { Adds (λ x. Contains from.now.items x) into.old.items into.new.items }
    ensures turns { T.counted turns.new ≤ T.counted turns.old + length from.now.items }
{
    for place in 0..from.len() {
        turns.count();
        let _ = into.insert(from.get(place));
    }
}
