//! The targets of a combinational block are made unknown.

ghost use Rattle.std.specs.Prelude.{◌≡◌, ◌==◌, ◌<◌, length};
ghost use Rattle.std.specs.List.{All};
ghost use Rattle.design_model.specs.Design.{Design};
ghost use Rattle.design_model.specs.View.{design_view};
ghost use Rattle.step_values.specs.body_replay.Store.{Kept};
ghost use Rattle.process_targets.specs.Rows.{IsInside};
ghost use Rattle.process_targets.specs.Targets.{names};
ghost use Rattle.step_values.specs.store_knowledge.Knows.{Knows};
ghost use Rattle.settled_targets.specs.Saved.{hiding};

use known_state::Known;
use process_targets::Bits;
use step_values::{Store, keep_signal, known_signal};

/// Nothing is known any more of the signals of these targets, whole. It takes time for the targets.
pub fn hide_targets(store: &mut Store, targets: &[Bits])
    requires known { (d : Design) × (k : Kept) × Knows d k store.old }
    requires inside { All (IsInside (design_view store.old.design.now)) targets.now }
    ensures design { store.new.design ≡ store.old.design }
    ensures knows { (d : Design) (k : Kept) → Knows d k store.old → Knows d (hiding (names targets.now) k) store.new }
{
    for bits in targets {
        hide_signal(store, bits.signal);
    }
}

/// Nothing is known any more of a signal.
fn hide_signal(store: &mut Store, signal: u32)
    requires known { (d : Design) × (k : Kept) × Knows d k store.old }
    requires place { signal < length store.old.design.now.signals }
    ensures design { store.new.design ≡ store.old.design }
    ensures knows { (d : Design) (k : Kept) → Knows d k store.old → Knows d (hiding (λ s. signal == s) k) store.new }
{
    let value = known_signal(store, signal);
    let unknown = Known::unknown(value.width(), value.is_signed(), signal);
    keep_signal(store, signal, &unknown);
}
