//! The end of the run of a body.

ghost use Rattle.std.specs.Prelude.{◌≡◌, [], true};
ghost use Rattle.std.specs.List.{All};
ghost use Rattle.design_model.specs.Design.{is_number};
ghost use Rattle.design_model.specs.View.{design_view};
ghost use Rattle.body_calls.specs.body_replay.Replay.{Blames};
ghost use Rattle.body_calls.specs.body_replay.Store.{Kept};
ghost use Rattle.body_store.specs.Ended.{ended, settled};

use crate::Store;

impl<'a> Store<'a> {
    ghost use Rattle.body_store.specs.Bodies.{around_of, rooms_of};
    ghost use Rattle.body_store.specs.Held.{HoldsStore};
    ghost use Rattle.body_store.specs.Views.{hides};

    /// A run has ended, in which bodies wrote no other signals and memories than these: each of them is to blame for itself
    /// again, and counts as not written.
    pub fn end_run(&mut self, written: &[u32])
        requires { All (λ x. is_number (design_view self.old.design.now) x ≡ true) written.now }
        ensures design { self.new.design ≡ self.old.design }
        ensures updates { self.new.updates ≡ self.old.updates }
        ensures around { around_of self.old ≡ [] → around_of self.new ≡ [] }
        ensures rooms { rooms_of self.new ≡ rooms_of self.old }
        ensures log { self.new.log ≡ self.old.log }
        ensures hides { hides self.new ≡ hides self.old }
        ensures kept { (k : Kept) (e : Blames) → HoldsStore (design_view self.old.design.now) k e self.old → HoldsStore (design_view self.old.design.now) k (ended written.now e) self.new }
    {
        for thing in written {
            self.settle(*thing);
        }
    }

    /// The signal or memory is to blame for itself, and counts as not written.
    fn settle(&mut self, thing: u32)
        requires { is_number (design_view self.old.design.now) thing ≡ true }
        ensures design { self.new.design ≡ self.old.design }
        ensures updates { self.new.updates ≡ self.old.updates }
        ensures around { around_of self.old ≡ [] → around_of self.new ≡ [] }
        ensures rooms { rooms_of self.new ≡ rooms_of self.old }
        ensures log { self.new.log ≡ self.old.log }
        ensures hides { hides self.new ≡ hides self.old }
        ensures kept { (k : Kept) (e : Blames) → HoldsStore (design_view self.old.design.now) k e self.old → HoldsStore (design_view self.old.design.now) k (settled thing e) self.new }
    {
        if (thing as usize) < self.signals.len() {
            self.signals.blame_itself(thing);
        } else {
            let place = thing as usize - self.signals.len();
            self.memories[place].written = false;
        }
    }
}
