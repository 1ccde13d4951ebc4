//! The dump's values of the signals that have changed.

ghost use Rattle.std.specs.Prelude.{◌≡◌, ◌<◌, ◌≤◌, ◌∷◌, [], true, length};
ghost use Rattle.event_machine.specs.Cell.{Values};
ghost use Rattle.four_state.specs.declared.bit.Bit.{Bit};
ghost use Rattle.design_model.specs.Design.{Design};
ghost use Rattle.design_model.specs.View.{design_view};
ghost use Rattle.store_knowledge.specs.body_replay.Store.{Kept};
ghost use Rattle.store_knowledge.specs.Knows.{Knows};
ghost use Rattle.step_values.specs.Dumped.{AreDumped, HaveCodes, dumped_of, putting};
ghost use Rattle.step_values.specs.Loose.{has_code};

use code_values::CodeValues;
use four_state::Four;
use known_state::Known;
use store_knowledge::{Store, keep_signal};

/// Puts in what the dump says of these signals. `codes` has the code of each signal. It takes constant time for each.
pub fn put_dump(store: &mut Store, changed: &[usize], codes: &[Option<u32>], values: &CodeValues)
    requires few { length store.old.design.now.signals ≤ 65536 }
    requires coded { HaveCodes (design_view store.old.design.now) codes.now changed.now }
    requires dumped { (new : Values Bit) × AreDumped (design_view store.old.design.now) codes.now values.now.last new }
    ensures design { store.new.design ≡ store.old.design }
    ensures knows { (d : Design) (new : Values Bit) (k : Kept) → AreDumped d codes.now values.now.last new → Knows d k store.old → Knows d (putting d changed.now new k) store.new }
{
    for signal in changed {
        put_signal(store, *signal as u32, codes, values);
    }
}

/// Puts in what the dump says of a signal.
fn put_signal(store: &mut Store, signal: u32, codes: &[Option<u32>], values: &CodeValues)
    requires place { signal < length store.old.design.now.signals }
    requires coded { has_code codes.now signal ≡ true }
    requires dumped { (new : Values Bit) × AreDumped (design_view store.old.design.now) codes.now values.now.last new }
    ensures design { store.new.design ≡ store.old.design }
    ensures knows { (d : Design) (new : Values Bit) (k : Kept) → AreDumped d codes.now values.now.last new → Knows d k store.old → Knows d (putting d (signal ∷ []) new k) store.new }
{
    if let Some(value) = dumped(codes, values, signal) {
        keep_signal(store, signal, &Known::whole(value));
    }
}

/// What the dump says of a signal, if it has a code that has a value.
fn dumped(codes: &[Option<u32>], values: &CodeValues, signal: u32) -> Option<Four>
    ensures { result ≡ dumped_of codes.now values.now.last signal }
{
    match codes.get(signal as usize) {
        Some(Some(code)) => values.value(*code),
        _ => None,
    }
}
