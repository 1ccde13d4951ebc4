//! The least signal of which the Clocked have left something else than what the dump says.

ghost use Rattle.std.specs.Prelude.{◌≡◌, ◌<◌, ◌≤◌, length, true};
ghost use Rattle.event_machine.specs.Cell.{Values};
ghost use Rattle.four_state.specs.declared.bit.Bit.{Bit};
ghost use Rattle.design_model.specs.Design.{Design};
ghost use Rattle.design_model.specs.View.{design_view};
ghost use Rattle.step_values.specs.body_replay.Store.{Kept};
ghost use Rattle.early_sets.specs.WakeState.{state_of};
ghost use Rattle.step_values.specs.replay_model.Step.{Closing};
ghost use Rattle.step_values.specs.Dumped.{AreDumped, HaveCodes, dumped_of};
ghost use Rattle.step_values.specs.Loose.{has_code};
ghost use Rattle.step_values.specs.Starts.{left_by_clocked};
ghost use Rattle.step_values.specs.store_knowledge.Knows.{Knows};
ghost use Rattle.still_check.specs.Stays.{IsAfterClocked, IsDifferentOr, IsLeastMoved, IsLesser, IsMovedOr};

use code_values::CodeValues;
use dump_check::Difference;
use early_sets::Wakes;
use four_state::Four;
use step_values::{Store, known_signal};

/// The signal with the least number of which the dump says another value than what is known, with both values: of those whose
/// value has changed (`changed`) though it may not move, and of those that a Clocked has made (`overwritten`). `codes` has the
/// code of each signal. It takes no memory, and constant time for each of the signals.
pub fn first_moved(
    changed: &[usize],
    overwritten: &[usize],
    sets: &Wakes,
    codes: &[Option<u32>],
    values: &CodeValues,
    store: &Store,
) -> Option<Difference>
    requires coded { HaveCodes (design_view store.now.design.now) codes.now changed.now }
    requires made { HaveCodes (design_view store.now.design.now) codes.now overwritten.now }
    requires few { length store.now.design.now.signals ≤ 65536 }
    requires things { length store.now.design.now.signals ≤ (state_of sets.now).tables.things }
    requires known { (d : Design) × (k : Kept) × Knows d k store.now }
    requires dumped { (new : Values Bit) × AreDumped (design_view store.now.design.now) codes.now values.now.last new }
    ensures { (st : Closing) → IsAfterClocked st store.now (state_of sets.now) codes.now values.now.last → IsLeastMoved st changed.now overwritten.now result }
{
    let mut found = None;
    for signal in changed {
        let next = moved(*signal as u32, sets, codes, values, store);
        found = lesser(found, next);
    }
    for signal in overwritten {
        let next = different(*signal as u32, codes, values, store);
        found = lesser(found, next);
    }
    found
}

/// A signal of which the dump says another value than what is known, though it may not move.
fn moved(
    signal: u32,
    sets: &Wakes,
    codes: &[Option<u32>],
    values: &CodeValues,
    store: &Store,
) -> Option<Difference>
    requires place { signal < length store.now.design.now.signals }
    requires coded { has_code codes.now signal ≡ true }
    requires things { length store.now.design.now.signals ≤ (state_of sets.now).tables.things }
    requires known { (d : Design) × (k : Kept) × Knows d k store.now }
    requires dumped { (new : Values Bit) × AreDumped (design_view store.now.design.now) codes.now values.now.last new }
    ensures { (st : Closing) → IsAfterClocked st store.now (state_of sets.now) codes.now values.now.last → IsMovedOr st signal result }
{
    if sets.may_move(signal) {
        return None;
    }
    different(signal, codes, values, store)
}

/// A signal of which the dump says another value than what is known.
fn different(
    signal: u32,
    codes: &[Option<u32>],
    values: &CodeValues,
    store: &Store,
) -> Option<Difference>
    requires place { signal < length store.now.design.now.signals }
    requires coded { has_code codes.now signal ≡ true }
    requires known { (d : Design) × (k : Kept) × Knows d k store.now }
    requires dumped { (new : Values Bit) × AreDumped (design_view store.now.design.now) codes.now values.now.last new }
    ensures { (st : Closing) → Knows st.design (left_by_clocked st) store.now → AreDumped st.design codes.now values.now.last st.new → IsDifferentOr st signal result }
{
    let dumped = dumped(codes, values, signal)?;
    let computed = known_signal(store, signal);
    if !computed.differs(&dumped) {
        return None;
    }
    Some(Difference {
        signal,
        dumped,
        computed,
    })
}

/// The one of two with the lesser number.
fn lesser(a: Option<Difference>, b: Option<Difference>) -> Option<Difference>
    ensures { IsLesser a b result }
{
    match (a, b) {
        (Some(first), Some(second)) if second.signal < first.signal => b,
        (Some(_), _) => a,
        (None, _) => b,
    }
}

/// What the dump says of a signal, if it has a code that has a value.
fn dumped(codes: &[Option<u32>], values: &CodeValues, signal: u32) -> Option<Four>
    ensures { result ≡ dumped_of codes.now values.now.last signal }
{
    match codes.get(signal as usize) {
        Some(Some(code)) => values.value(*code),
        _ => None,
    }
}
