//! The dump's values of all signals that it has.

ghost use Rattle.std.specs.Prelude.{◌≡◌, ◌<◌, ◌≤◌, ◌==◌, ◌&&◌, length, nat_lt};
ghost use Rattle.event_machine.specs.Cell.{Values};
ghost use Rattle.four_state.specs.declared.bit.Bit.{Bit};
ghost use Rattle.design_model.specs.View.{design_view};
ghost use Rattle.settling.specs.step_values.Dumped.{AreDumped};
ghost use Rattle.settling.specs.step_values.Loose.{has_code};
ghost use Rattle.settling.specs.step_values.Vectors.{FitsSignals};
ghost use Rattle.first_step.specs.Begun.{MakesNothing, Puts};

use body_store::Store;
use code_values::CodeValues;
use known_state::Known;
use settling::{ProcessRows, StepValues, is_coded, put_dump};

/// Puts in what the dump says of each signal that has a code; nothing was made of these signals yet. It takes constant time for
/// each signal of the design.
pub(crate) fn put_first(
    store: &mut Store,
    values: &mut StepValues,
    rows: &ProcessRows,
    dump: &CodeValues,
)
    requires same { design_view store.old.design.now ≡ design_view rows.now.design.now }
    requires few { length rows.now.design.now.signals ≤ 65536 }
    requires fits { FitsSignals (design_view store.old.design.now) values.old }
    requires dumped { (new : Values Bit) × AreDumped (design_view store.old.design.now) rows.now.codes.now dump.now.last new }
    ensures design { store.new.design ≡ store.old.design }
    ensures puts { Puts rows.now.codes.now dump.now.last (λ s. has_code rows.now.codes.now s && nat_lt s (length rows.now.design.now.signals)) store.old store.new values.old values.new }
{
    for signal in 0..rows.design.signals.len() {
        put_signal(store, values, signal, rows.codes, dump);
    }
}

/// Puts in what the dump says of a signal, if it has a code.
fn put_signal(
    store: &mut Store,
    values: &mut StepValues,
    signal: usize,
    codes: &[Option<u32>],
    dump: &CodeValues,
)
    requires few { length store.old.design.now.signals ≤ 65536 }
    requires place { signal < length store.old.design.now.signals }
    requires fits { FitsSignals (design_view store.old.design.now) values.old }
    requires dumped { (new : Values Bit) × AreDumped (design_view store.old.design.now) codes.now dump.now.last new }
    ensures design { store.new.design ≡ store.old.design }
    ensures puts { Puts codes.now dump.now.last (λ s. has_code codes.now s && signal == s) store.old store.new values.old values.new }
{
    if is_coded(codes, signal as u32) {
        put_dump(store, &[signal], codes, dump);
        make_nothing(values, signal as u32);
    }
}

/// Nothing was made of a signal.
fn make_nothing(values: &mut StepValues, signal: u32)
    requires { signal < length values.old.made }
    ensures { MakesNothing signal values.old values.new }
{
    let made = values.made(signal);
    values.set_made(
        signal,
        Known::unknown(made.width(), made.is_signed(), signal),
    );
}
