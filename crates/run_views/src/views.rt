//! What bodies read in the place of what is kept.

ghost use Rattle.std.specs.Prelude.{◌≡◌, ◌<◌, ℕ, None, length, true};
ghost use Rattle.body_store.specs.design_model.Design.{Design, cell, is_number, signal_at};
ghost use Rattle.body_store.specs.design_model.View.{design_view};
ghost use Rattle.body_store.specs.body_replay.Runs.{StoreView};
ghost use Rattle.body_store.specs.body_replay.Store.{Kept};
ghost use Rattle.body_store.specs.Bodies.{rooms_of};
ghost use Rattle.body_store.specs.Scenes.{bit_at};
ghost use Rattle.run_views.specs.Meets.{Keeps, Meets, also_hiding, plain_view};

use body_store::Store;
use known_state::Known;

/// Until [`show_kept`], bodies read this value of a signal, whose bits are those that the view shows of it. It takes constant
/// time and no memory.
pub fn show_value(store: &mut Store, signal: u32, value: &Known)
    requires place { signal < length store.old.design.now.signals }
    requires width { length value.now.bits ≡ (signal_at (design_view store.old.design.now) signal).width }
    ensures design { store.new.design ≡ store.old.design }
    ensures updates { store.new.updates ≡ store.old.updates }
    ensures rooms { rooms_of store.new ≡ rooms_of store.old }
    ensures meets { (d : Design) (v : StoreView) → ((k : ℕ) → bit_at value.now.bits k ≡ v.shown (cell signal k)) → Meets d v store.old → Meets d (also_hiding signal v) store.new }
{
    store.show(signal, value);
}

/// Until [`show_kept`], bodies read unknown bits of a signal or memory, of which the view shows none. It takes no memory, and
/// time for one signal, or for the words of one memory.
pub fn veil_thing(store: &mut Store, thing: u32)
    requires { is_number (design_view store.old.design.now) thing ≡ true }
    ensures design { store.new.design ≡ store.old.design }
    ensures updates { store.new.updates ≡ store.old.updates }
    ensures rooms { rooms_of store.new ≡ rooms_of store.old }
    ensures meets { (d : Design) (v : StoreView) → ((k : ℕ) → v.shown (cell thing k) ≡ None) → Meets d v store.old → Meets d (also_hiding thing v) store.new }
{
    store.veil(thing);
}

/// From now on bodies read what is kept. It takes time for what was shown or veiled.
pub fn show_kept(store: &mut Store)
    ensures design { store.new.design ≡ store.old.design }
    ensures updates { store.new.updates ≡ store.old.updates }
    ensures rooms { rooms_of store.new ≡ rooms_of store.old }
    ensures meets { (d : Design) (k : Kept) → Keeps d k store.old → Meets d (plain_view k) store.new }
{
    store.plain();
}
