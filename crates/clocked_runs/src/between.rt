//! Before the first run of a Clocked block in a step, and after the last.

ghost use Rattle.std.specs.Prelude.{◌≡◌, ◌<◌, [], ℕ, List, length};
ghost use Rattle.design_model.specs.Design.{AreDistinct, Design, In};
ghost use Rattle.design_model.specs.Lawful.{IsLawfulDesign};
ghost use Rattle.design_model.specs.View.{design_view};
ghost use Rattle.run_views.specs.body_replay.Store.{Kept, KnownWrite, keep_all};
ghost use Rattle.run_views.specs.Meets.{plain_view};
ghost use Rattle.store_knowledge.specs.Knows.{Knows};
ghost use Rattle.clocked_runs.specs.CanRun.{CanRun};

use run_views::{Store, show_kept};

/// All room of the queue is free, so bodies can run of different processes of the design. It takes time for what is on the
/// queue.
pub fn begin_runs(store: &mut Store)
    requires { IsLawfulDesign (design_view store.old.design.now) }
    ensures design { store.new.design ≡ store.old.design }
    ensures ready { (d : Design) (k : Kept) (ps : List ℕ) → AreDistinct ps → ((p : ℕ) → In p ps → p < length d.processes) → Knows d k store.old → CanRun d (plain_view k) [] ps store.new }
{
    store.holding();
    store.flush();
    store.holding();
    show_kept(store);
}

/// What was queued is made, in order. It takes time for that.
pub fn make_updates(store: &mut Store)
    requires { IsLawfulDesign (design_view store.old.design.now) }
    ensures design { store.new.design ≡ store.old.design }
    ensures knows { (d : Design) (k : Kept) (ws : List KnownWrite) (ps : List ℕ) → CanRun d (plain_view k) ws ps store.old → Knows d (keep_all k ws) store.new }
{
    store.holding();
    store.flush();
    store.holding();
}
