//! The toggles of the signals that may move.

ghost use Rattle.std.specs.Prelude.{◌≡◌, ◌<◌, ◌^◌, ◌∷◌, [], length};
ghost use Rattle.cover_marks.specs.Marks.{AreMarksOf};
ghost use Rattle.cover_marks.specs.cover_points.Listed.{IsPointList};
ghost use Rattle.cover_marks.specs.cover_points.declared.listing.Points.{Points as ThePoints};
ghost use Rattle.design_model.specs.Design.{Design as TheDesign};
ghost use Rattle.design_model.specs.Lawful.{IsLawfulDesign};
ghost use Rattle.cover_marks.specs.cover_points.design_machines.state_machines.Machines.{StateMachines};
ghost use Rattle.design_model.specs.View.{design_view};
ghost use Rattle.body_replay.specs.Store.{Kept};
ghost use Rattle.step_parts.specs.replay_model.Step.{Closing};
ghost use Rattle.step_parts.specs.step_values.Vectors.{FitsSignals};
ghost use Rattle.step_parts.specs.store_knowledge.Knows.{Knows};
ghost use Rattle.toggle_laws.specs.Turns.{MarksInTurn, MarksMoved};
ghost use Rattle.step_marks.specs.Marked.{IsOver, IsSeenAfter};

use cover_marks::Marks;
use design_model::{Design, Signal};
use signal_marks::SignalMarks;
use step_parts::{StepValues, Store, known_signal};

/// Marks the toggles, over the step that ends at this time, of the signals that may move: `moves`, in which memories are passed
/// over. `on_list` says that the dump lists the time, and `seen` has what is marked already. It takes time for what may move, and
/// for the bits of each signal of which a toggle is marked for the first time.
pub fn mark_moved(
    moves: &[usize],
    design: &Design,
    values: &StepValues,
    store: &Store,
    time: u64,
    on_list: bool,
    seen: &mut SignalMarks,
    marks: &mut Marks,
)
    requires lawful { IsLawfulDesign (design_view design.now) }
    requires same { design_view store.now.design.now ≡ design_view design.now }
    requires known { (d : TheDesign) × (k : Kept) × Knows d k store.now }
    requires fits { FitsSignals (design_view design.now) values.now }
    requires count { length seen.old ≡ length design.now.signals }
    requires listed { (machines : StateMachines) × (ps : ThePoints) × IsPointList (design_view design.now) machines ps × AreMarksOf ps marks.old }
    ensures count { length seen.new ≡ length seen.old }
    ensures points { (ps : ThePoints) → AreMarksOf ps marks.old → AreMarksOf ps marks.new }
    ensures toggles { (st : Closing) (ps : ThePoints) → IsOver st ps moves.now time on_list store.now values.now seen.old marks.old → MarksInTurn st ps moves.now marks.old.verdicts marks.new.verdicts }
    ensures seen { (st : Closing) (ps : ThePoints) → IsOver st ps moves.now time on_list store.now values.now seen.old marks.old → IsSeenAfter st ps seen.new marks.new }
{
    for thing in moves {
        mark_thing(*thing, design, values, store, time, on_list, seen, marks);
    }
}

/// Marks the toggles of one signal. A memory is passed over.
fn mark_thing(
    thing: usize,
    design: &Design,
    values: &StepValues,
    store: &Store,
    time: u64,
    on_list: bool,
    seen: &mut SignalMarks,
    marks: &mut Marks,
)
    requires lawful { IsLawfulDesign (design_view design.now) }
    requires same { design_view store.now.design.now ≡ design_view design.now }
    requires known { (d : TheDesign) × (k : Kept) × Knows d k store.now }
    requires fits { FitsSignals (design_view design.now) values.now }
    requires count { length seen.old ≡ length design.now.signals }
    requires listed { (machines : StateMachines) × (ps : ThePoints) × IsPointList (design_view design.now) machines ps × AreMarksOf ps marks.old }
    ensures count { length seen.new ≡ length seen.old }
    ensures points { (ps : ThePoints) → AreMarksOf ps marks.old → AreMarksOf ps marks.new }
    ensures toggles { (st : Closing) (ps : ThePoints) → IsOver st ps (thing ∷ []) time on_list store.now values.now seen.old marks.old → MarksMoved st ps thing marks.old.verdicts marks.new.verdicts }
    ensures seen { (st : Closing) (ps : ThePoints) → IsOver st ps (thing ∷ []) time on_list store.now values.now seen.old marks.old → IsSeenAfter st ps seen.new marks.new }
{
    let Some(shape) = design.signals.get(thing) else {
        return;
    };
    bound_law(shape);
    let signal = thing as u32;
    let after = known_signal(store, signal);
    let before = values.before_step(signal, &after, on_list);
    seen.mark(marks, shape, signal, &before, &after, time);
}

/// The left bound of a signal's range is a number of 32 bits. A clause says so of what the body reads alone.
fn bound_law(shape: &Signal)
    ensures { shape.now.high < 2 ^ 32 }
{
    let _high = shape.high;
}
