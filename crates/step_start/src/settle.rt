ghost use Rattle.std.specs.Prelude.{◌≡◌, ◌<◌, [], ℕ, List, IfNone, IfSome, Some, filter, map, length};
ghost use Rattle.std.specs.List.{All};
ghost use Rattle.event_machine.specs.Cell.{Values};
ghost use Rattle.four_state.specs.declared.bit.Bit.{Bit};
ghost use Rattle.design_model.specs.Design.{Design, In};
ghost use Rattle.design_model.specs.View.{design_view};
ghost use Rattle.body_replay.specs.Store.{Kept};
ghost use Rattle.early_sets.specs.WakeState.{state_of};
ghost use Rattle.run_order.specs.Ranked.{AreRanksOf};
ghost use Rattle.step_parts.specs.step_changes.Changes.{AreChangedSignals};
ghost use Rattle.step_parts.specs.Due.{HasBegun, IsContradicted, step_of};
ghost use Rattle.still_check.specs.step_values.Dumped.{AreDumped};
ghost use Rattle.still_check.specs.Stays.{IsLeastMoved};
ghost use Rattle.step_parts.specs.store_knowledge.Knows.{Knows};
ghost use Rattle.wake_list.specs.Members.{has};
ghost use Rattle.step_start.specs.Fits.{FitsStep};
ghost use Rattle.step_start.specs.Settles.{ForRun};

use crate::running::list_running;
use crate::{StepRoom, StepTables};
use body_store::Store;
use code_values::CodeValues;
use dump_check::Difference;
use still_check::first_moved;

/// Begins the Assigns and Combs of a step whose sets were found, once its Clocked have run: `ran` are those. Where the dump says
/// something else of a signal that may not move, or of one that a Clocked has made, it is the result, the one with the least number.
/// Else the Assigns and Combs to run are on the wake list, and the store and the vectors have what they start from. It takes no
/// memory, and time for the signals that the Clocked assign and those that have changed, the processes to run, with the logarithm
/// of their count, and their targets.
pub fn settle_step(
    tables: &StepTables,
    ran: &[usize],
    values: &CodeValues,
    room: &mut StepRoom,
    store: &mut Store,
) -> Option<Difference>
    requires fits { FitsStep (design_view store.old.design.now) tables.now room.old values.now }
    requires within { All (λ p. p < length store.old.design.now.processes) ran.now }
    requires empty { room.old.list.pairs ≡ [] }
    requires known { (d : Design) × (k : Kept) × Knows d k store.old }
    requires dumped { (new : Values Bit) × AreDumped (design_view store.old.design.now) tables.now.codes.items values.now.last new }
    requires changed { AreChangedSignals tables.now.codes.items values.now room.old.changed.items }
    ensures fits { FitsStep (design_view store.old.design.now) tables.now room.new values.now }
    ensures design { store.new.design ≡ store.old.design }
    ensures known { (d : Design) × (k : Kept) × Knows d k store.new }
    ensures sets { room.new.sets ≡ room.old.sets }
    ensures changed { room.new.changed ≡ room.old.changed }
    ensures clocked { room.new.clocked ≡ room.old.clocked }
    ensures listed { IfNone result ((order : List ℕ) → AreRanksOf order (length (design_view store.old.design.now).processes) tables.now.order
        → map (λ q. q.0) room.new.list.pairs ≡ filter (λ p. has p (state_of room.new.sets).woken) order) }
    ensures begun { IfNone result (ForRun tables.now values.now room.old ran.now store.old
        (λ due early marks. HasBegun due (state_of room.new.sets) early (map (λ q. q.0) room.new.list.pairs) room.new.values store.new marks)) }
    ensures contradicted { IfSome result (λ found. ForRun tables.now values.now room.old ran.now store.old (λ due early marks. IsContradicted due (state_of room.new.sets) early found)) }
    ensures least { IfSome result (λ found. ForRun tables.now values.now room.old ran.now store.old (λ due early marks. IsLeastMoved (step_of due (state_of room.new.sets) early) room.new.changed.items room.new.overwritten.items (Some found))) }
    ensures named { IfSome result (λ found. found.signal < length store.old.design.now.signals) }
    ensures kept { IfSome result (λ found. room.new.list.pairs ≡ []) }
{
    let codes = tables.codes.as_slice();
    room.values
        .take_made(store, ran, &tables.written, codes, &mut room.overwritten);
    let changed = room.changed.as_slice();
    let overwritten = room.overwritten.as_slice();
    if let Some(found) = first_moved(changed, overwritten, &room.sets, codes, values, store) {
        return Some(found);
    }
    let woken = room.sets.woken();
    tables.order.fill(woken, &mut room.list);
    list_running(woken, &tables.order, &mut room.running);
    room.values.settle(
        store,
        room.running.as_slice(),
        &tables.targets,
        changed,
        overwritten,
        codes,
        values,
    );
    None
}
