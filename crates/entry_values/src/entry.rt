ghost use Rattle.std.specs.Prelude.{◌≡◌, ◌<◌, ◌≤◌, ◌+◌, ◌==◌, ℕ, List, IfNone, IfSome, None, Some, false, length, map, true};
ghost use Rattle.std.specs.List.{All};
ghost use Rattle.event_machine.specs.Cell.{Values as CellValues};
ghost use Rattle.four_state.specs.declared.bit.Bit.{Bit};
ghost use Rattle.known_state.specs.Join.{joined};
ghost use Rattle.run_views.specs.body_replay.Runs.{StoreView};
ghost use Rattle.run_views.specs.body_store.Bodies.{rooms_of};
ghost use Rattle.run_views.specs.design_model.Design.{signal_at};
ghost use Rattle.run_views.specs.design_model.View.{design_view};
ghost use Rattle.run_views.specs.Meets.{Meets, also_hiding};
ghost use Rattle.step_values.specs.Dumped.{AreDumped, dumped_of};
ghost use Rattle.step_values.specs.Loose.{has_code};
ghost use Rattle.step_values.specs.replay_model.Step.{Closing, Working, clean_store, entry, plain_store};
ghost use Rattle.entry_values.specs.Entry.{IsEntryOf, early_bits};

use code_values::CodeValues;
use design_model::Design;
use four_state::Four;
use known_state::Known;
use run_views::{Store, show_value, veil_thing};

/// Until [`run_views::show_kept`], bodies read what a clean block is entered with by this trigger, where these signals and
/// memories are early, the trigger not among them. `codes` has the code of each signal. It takes no memory, constant time for
/// each signal, and time for the words of each memory.
pub(crate) fn show_entry(
    store: &mut Store,
    design: &Design,
    trigger: u32,
    early: &[usize],
    codes: &[Option<u32>],
    values: &CodeValues,
)
    requires same { design_view store.old.design.now ≡ design_view design.now }
    requires few { length design.now.signals + length design.now.memories ≤ 4294967295 }
    requires things { All (λ x. x < length design.now.signals + length design.now.memories) early.now }
    requires place { trigger < length design.now.signals }
    requires coded { has_code codes.now trigger ≡ true }
    requires before { (old : CellValues Bit) × AreDumped (design_view design.now) codes.now values.now.closed old }
    requires after { (new : CellValues Bit) × AreDumped (design_view design.now) codes.now values.now.last new }
    ensures design { store.new.design ≡ store.old.design }
    ensures updates { store.new.updates ≡ store.old.updates }
    ensures rooms { rooms_of store.new ≡ rooms_of store.old }
    ensures meets { (st : Closing) (p : ℕ) (w : Working) → IsEntryOf st p trigger early.now codes.now values.now
        → Meets st.design (plain_store w.kept) store.old → Meets st.design (clean_store st p trigger w) store.new }
{
    for thing in early {
        show_early(store, design, *thing as u32, codes, values);
    }
    show_trigger(store, trigger, codes, values);
}

/// Bodies read what may be read of an early signal or memory.
pub(crate) fn show_early(
    store: &mut Store,
    design: &Design,
    thing: u32,
    codes: &[Option<u32>],
    values: &CodeValues,
)
    requires same { design_view store.old.design.now ≡ design_view design.now }
    requires thing { thing < length design.now.signals + length design.now.memories }
    requires before { (old : CellValues Bit) × AreDumped (design_view design.now) codes.now values.now.closed old }
    requires after { (new : CellValues Bit) × AreDumped (design_view design.now) codes.now values.now.last new }
    ensures design { store.new.design ≡ store.old.design }
    ensures updates { store.new.updates ≡ store.old.updates }
    ensures rooms { rooms_of store.new ≡ rooms_of store.old }
    ensures meets { (st : Closing) (p trigger : ℕ) (early : List ℕ) (v : StoreView) → IsEntryOf st p trigger early codes.now values.now → (thing == trigger) ≡ false
        → v.shown ≡ entry st trigger → Meets st.design v store.old → Meets st.design (also_hiding thing v) store.new }
{
    match early_value(design, thing, codes, values) {
        Some(value) => show_value(store, thing, &value),
        None => veil_thing(store, thing),
    }
}

/// Bodies read the new value of the trigger.
pub(crate) fn show_trigger(
    store: &mut Store,
    trigger: u32,
    codes: &[Option<u32>],
    values: &CodeValues,
)
    requires place { trigger < length store.old.design.now.signals }
    requires coded { has_code codes.now trigger ≡ true }
    requires after { (new : CellValues Bit) × AreDumped (design_view store.old.design.now) codes.now values.now.last new }
    ensures design { store.new.design ≡ store.old.design }
    ensures updates { store.new.updates ≡ store.old.updates }
    ensures rooms { rooms_of store.new ≡ rooms_of store.old }
    ensures meets { (st : Closing) (p : ℕ) (early : List ℕ) (v : StoreView) → IsEntryOf st p trigger early codes.now values.now
        → v.shown ≡ entry st trigger → Meets st.design v store.old → Meets st.design (also_hiding trigger v) store.new }
{
    if let Some(value) = new_value(codes, values, trigger) {
        show_value(store, trigger, &Known::whole(value));
    }
}

/// What may be read of an early signal, where something is known of it.
fn early_value(
    design: &Design,
    thing: u32,
    codes: &[Option<u32>],
    values: &CodeValues,
) -> Option<Known>
    requires before { (old : CellValues Bit) × AreDumped (design_view design.now) codes.now values.now.closed old }
    requires after { (new : CellValues Bit) × AreDumped (design_view design.now) codes.now values.now.last new }
    ensures none { IfNone result (early_bits (design_view design.now) codes.now values.now thing ≡ None) }
    ensures some { IfSome result (λ q. early_bits (design_view design.now) codes.now values.now thing ≡ Some q.bits) }
{
    if !is_input(design, thing) {
        return None;
    }
    let old = old_value(codes, values, thing)?;
    let new = new_value(codes, values, thing)?;
    Some(common(old, new, thing))
}

/// What two values of a signal have in common.
fn common(old: Four, new: Four, signal: u32) -> Known
    requires { length old.bits ≡ length new.bits }
    ensures { result.bits ≡ joined (map Some old.bits) (map Some new.bits) }
{
    Known::whole(old).join(&Known::whole(new), signal)
}

/// Whether the number is that of an input.
fn is_input(design: &Design, thing: u32) -> bool
    ensures { result ≡ (signal_at (design_view design.now) thing).input }
{
    let signals = design.signals.as_slice();
    (thing as usize) < signals.len() && signals[thing as usize].input
}

/// What the dump said of a signal at the last closed step, if it has a code that had a value.
fn old_value(codes: &[Option<u32>], values: &CodeValues, signal: u32) -> Option<Four>
    ensures { result ≡ dumped_of codes.now values.now.closed signal }
{
    match codes.get(signal as usize) {
        Some(Some(code)) => values.closed_value(*code),
        _ => None,
    }
}

/// What the dump says of a signal, if it has a code that has a value.
fn new_value(codes: &[Option<u32>], values: &CodeValues, signal: u32) -> Option<Four>
    ensures { result ≡ dumped_of codes.now values.now.last signal }
{
    match codes.get(signal as usize) {
        Some(Some(code)) => values.value(*code),
        _ => None,
    }
}
