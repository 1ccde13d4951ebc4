//! How sure it is that a process acts in a step.

ghost use Rattle.std.specs.Prelude.{◌≡◌, ◌+◌, ◌<◌, ◌≤◌, ℕ, not, length, true};
ghost use Rattle.std.specs.List.{All, list_any};
ghost use Rattle.design_model.specs.Design.{Design};
ghost use Rattle.design_model.specs.View.{design_view};
ghost use Rattle.body_replay.specs.Store.{Kept};
ghost use Rattle.early_sets.specs.Has.{is_in};
ghost use Rattle.early_sets.specs.WakeState.{WakeState, state_of};
ghost use Rattle.step_parts.specs.replay_model.Step.{Closing, Working, certainty as certainty_of, first_unsure as first_unsure_of, has_changed as has_changed_of, is_still};
ghost use Rattle.settled_runs.specs.block_runs.Notes.{way_of};
ghost use Rattle.settled_runs.specs.store_knowledge.Knows.{Knows};
ghost use Rattle.settled_runs.specs.process_targets.Laws.{WritesSignals};
ghost use Rattle.settled_targets.specs.step_values.Vectors.{FitsSignals};
ghost use Rattle.wake_bits.specs.Laws.{IsWakeOf};
ghost use Rattle.step_words.specs.Words.{IsOfMemories};
ghost use Rattle.settling.specs.Wakes.{HasState, HasWordChanges, IsWakeRow, IsWatched, things_of};

use bit_changes::{differing, unsteady};
use body_store::Store;
use early_sets::Wakes;
use settled_runs::{Certainty, known_signal};
use settled_targets::StepValues;
use step_words::StepWords;
use wake_bits::Wake;

/// How sure it is that a process acts in the step that ends at this time: surely, where a bit that wakes it has surely
/// changed; perhaps, by the first signal or memory of which such a bit is not surely unchanged; else not. `wakes` is what the process
/// watches with the bits that wake it; `sets` says what may move, and `words` of which memories a word has changed. It takes time for
/// the signals and memories that wake it.
pub fn certainty(
    values: &StepValues,
    store: &Store,
    sets: &Wakes,
    words: &StepWords,
    wakes: &[Wake],
    time: u64,
) -> Certainty
    requires fits { FitsSignals (design_view store.now.design.now) values.now }
    requires known { (d : Design) × (k : Kept) × Knows d k store.now }
    requires watched { All (λ w. w.thing < length store.now.design.now.signals + length store.now.design.now.memories) wakes.now }
    requires things { length store.now.design.now.signals + length store.now.design.now.memories ≤ (state_of sets.now).tables.things }
    requires memories { IsOfMemories (design_view store.now.design.now) words.now }
    ensures { (st : Closing) (w : Working) (p : ℕ) → HasState st w store.now values.now (state_of sets.now) → HasWordChanges st w.kept words.now → WritesSignals st.design p → IsWakeRow st p wakes.now → st.time ≡ time → way_of result ≡ certainty_of st w.kept p }
{
    if has_changed(values, store, sets, words, wakes) {
        return Certainty::Clean { time };
    }
    match first_unsure(values, store, sets, words, wakes) {
        Some(thing) => Certainty::Perhaps { time, thing },
        None => Certainty::Quiet,
    }
}

/// Whether some bit has surely changed.
fn has_changed(
    values: &StepValues,
    store: &Store,
    sets: &Wakes,
    words: &StepWords,
    wakes: &[Wake],
) -> bool
    requires fits { FitsSignals (design_view store.now.design.now) values.now }
    requires known { (d : Design) × (k : Kept) × Knows d k store.now }
    requires watched { All (λ w. w.thing < length store.now.design.now.signals + length store.now.design.now.memories) wakes.now }
    requires things { length store.now.design.now.signals + length store.now.design.now.memories ≤ (state_of sets.now).tables.things }
    requires memories { IsOfMemories (design_view store.now.design.now) words.now }
    ensures { (st : Closing) (w : Working) (p : ℕ) → HasState st w store.now values.now (state_of sets.now) → HasWordChanges st w.kept words.now → WritesSignals st.design p → IsWakeRow st p wakes.now → result ≡ list_any (has_changed_of st w.kept p) (things_of wakes.now) }
{
    for wake in wakes {
        if changes(values, store, sets, words, wake) {
            return true;
        }
    }
    false
}

/// The first signal or memory of which some bit is not surely unchanged.
fn first_unsure(
    values: &StepValues,
    store: &Store,
    sets: &Wakes,
    words: &StepWords,
    wakes: &[Wake],
) -> Option<u32>
    requires fits { FitsSignals (design_view store.now.design.now) values.now }
    requires known { (d : Design) × (k : Kept) × Knows d k store.now }
    requires watched { All (λ w. w.thing < length store.now.design.now.signals + length store.now.design.now.memories) wakes.now }
    requires things { length store.now.design.now.signals + length store.now.design.now.memories ≤ (state_of sets.now).tables.things }
    requires memories { IsOfMemories (design_view store.now.design.now) words.now }
    ensures { (st : Closing) (w : Working) (p : ℕ) → HasState st w store.now values.now (state_of sets.now) → HasWordChanges st w.kept words.now → WritesSignals st.design p → IsWakeRow st p wakes.now → result ≡ first_unsure_of st w.kept p (things_of wakes.now) }
{
    for wake in wakes {
        if may_change(values, store, sets, words, wake) {
            return Some(wake.thing);
        }
    }
    None
}

/// Whether some bit of these places of a signal, or of a word of a memory, has surely changed over the step.
fn changes(values: &StepValues, store: &Store, sets: &Wakes, words: &StepWords, wake: &Wake) -> bool
    requires fits { FitsSignals (design_view store.now.design.now) values.now }
    requires known { (d : Design) × (k : Kept) × Knows d k store.now }
    requires watched { wake.now.thing < length store.now.design.now.signals + length store.now.design.now.memories }
    requires things { length store.now.design.now.signals + length store.now.design.now.memories ≤ (state_of sets.now).tables.things }
    requires memories { IsOfMemories (design_view store.now.design.now) words.now }
    ensures { (st : Closing) (w : Working) (p : ℕ) → HasState st w store.now values.now (state_of sets.now) → HasWordChanges st w.kept words.now → WritesSignals st.design p → IsWakeOf st.design p wake.now → IsWatched st wake.now.thing → result ≡ has_changed_of st w.kept p wake.now.thing }
{
    if !sets.may_move(wake.thing) {
        return false;
    }
    if words.is_memory(wake.thing) {
        return words.has_changed(wake.thing);
    }
    signal_changes(values, store, wake)
}

/// Whether some bit of these places of a signal that may move has surely changed over the step.
fn signal_changes(values: &StepValues, store: &Store, wake: &Wake) -> bool
    requires fits { FitsSignals (design_view store.now.design.now) values.now }
    requires known { (d : Design) × (k : Kept) × Knows d k store.now }
    requires signal { wake.now.thing < length store.now.design.now.signals }
    ensures { (st : Closing) (w : Working) (p : ℕ) (sets : WakeState) → HasState st w store.now values.now sets → IsWakeOf st.design p wake.now → is_in sets.moves wake.now.thing ≡ true → result ≡ has_changed_of st w.kept p wake.now.thing }
{
    let old = values.before(wake.thing);
    let now = known_signal(store, wake.thing);
    differing(&old, &now) & wake.mask != 0
}

/// Whether some bit of these places of a signal, or of a word of a memory, is not surely unchanged over the step.
fn may_change(
    values: &StepValues,
    store: &Store,
    sets: &Wakes,
    words: &StepWords,
    wake: &Wake,
) -> bool
    requires fits { FitsSignals (design_view store.now.design.now) values.now }
    requires known { (d : Design) × (k : Kept) × Knows d k store.now }
    requires watched { wake.now.thing < length store.now.design.now.signals + length store.now.design.now.memories }
    requires things { length store.now.design.now.signals + length store.now.design.now.memories ≤ (state_of sets.now).tables.things }
    requires memories { IsOfMemories (design_view store.now.design.now) words.now }
    ensures { (st : Closing) (w : Working) (p : ℕ) → HasState st w store.now values.now (state_of sets.now) → HasWordChanges st w.kept words.now → WritesSignals st.design p → IsWakeOf st.design p wake.now → IsWatched st wake.now.thing → result ≡ not (is_still st w.kept p wake.now.thing) }
{
    if !sets.may_move(wake.thing) {
        return false;
    }
    if words.is_memory(wake.thing) {
        return !words.is_still(wake.thing);
    }
    signal_may_change(values, store, wake)
}

/// Whether some bit of these places of a signal that may move is not surely unchanged over the step.
fn signal_may_change(values: &StepValues, store: &Store, wake: &Wake) -> bool
    requires fits { FitsSignals (design_view store.now.design.now) values.now }
    requires known { (d : Design) × (k : Kept) × Knows d k store.now }
    requires signal { wake.now.thing < length store.now.design.now.signals }
    ensures { (st : Closing) (w : Working) (p : ℕ) (sets : WakeState) → HasState st w store.now values.now sets → IsWakeOf st.design p wake.now → is_in sets.moves wake.now.thing ≡ true → result ≡ not (is_still st w.kept p wake.now.thing) }
{
    let old = values.before(wake.thing);
    let now = known_signal(store, wake.thing);
    unsteady(&old, &now) & wake.mask != 0
}
