//! What is known of a signal, and of all.

ghost use Rattle.std.specs.Prelude.{◌≡◌, ◌<◌, ◌≤◌, length, map};
ghost use Rattle.body_store.specs.design_model.Design.{Design, signal_at, signal_cells};
ghost use Rattle.body_store.specs.design_model.View.{design_view};
ghost use Rattle.body_store.specs.Made.{nothing};
ghost use Rattle.body_store.specs.body_replay.Store.{Kept};
ghost use Rattle.store_knowledge.specs.Knows.{Knows, with_bits};

use body_store::Store;
use known_state::Known;

/// What is known of a signal. It takes constant time.
pub fn known_signal(store: &Store, signal: u32) -> Known
    requires { signal < length store.now.design.now.signals }
    ensures { (d : Design) (k : Kept) → Knows d k store.now → result.bits ≡ map k (signal_cells d signal) }
{
    store.kept_signal(signal)
}

/// From now on these bits are known of a signal, and of the others what was. It takes constant time and no memory.
pub fn keep_signal(store: &mut Store, signal: u32, value: &Known)
    requires place { signal < length store.old.design.now.signals }
    requires width { length value.now.bits ≡ (signal_at (design_view store.old.design.now) signal).width }
    ensures design { store.new.design ≡ store.old.design }
    ensures knows { (d : Design) (k : Kept) → Knows d k store.old → Knows d (with_bits signal value.now.bits k) store.new }
{
    store.set(signal, value, true);
}

/// From now on nothing is known of any signal or memory. It takes time for the memories, and no memory.
pub fn forget_all(store: &mut Store)
    requires few { length store.old.design.now.signals ≤ 65536 }
    ensures design { store.new.design ≡ store.old.design }
    ensures knows { (d : Design) (k : Kept) → Knows d k store.old → Knows d nothing store.new }
{
    store.forget();
}
