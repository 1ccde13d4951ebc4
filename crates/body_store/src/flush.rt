//! The updates that wait are made (IEEE 1364-2001, clause 5.4).

ghost use Rattle.std.specs.Prelude.{◌≡◌, [], length};
ghost use Rattle.design_model.specs.View.{design_view};
ghost use Rattle.body_calls.specs.body_replay.Store.{Kept, keep_all};
ghost use Rattle.body_calls.specs.Lvalues.{Takes};
ghost use Rattle.body_calls.specs.Own.{IsOwn};

use crate::{Store, Update};
use body_calls::Lvalue;

impl<'a> Store<'a> {
    ghost use Rattle.body_store.specs.Bodies.{around_of, queued_of, rooms_of};
    ghost use Rattle.body_store.specs.Held.{HoldsStore};
    ghost use Rattle.body_store.specs.Made.{unblamed};
    ghost use Rattle.body_store.specs.Updates.{update_writes};
    ghost use Rattle.body_store.specs.Views.{hides, kept_scene};

    /// Makes an update.
    pub(crate) fn make(&mut self, update: &Update)
        requires { Takes (design_view self.old.design.now) update.now.to (length update.now.value.bits) }
        ensures design { self.new.design ≡ self.old.design }
        ensures around { around_of self.old ≡ [] → around_of self.new ≡ [] }
        ensures rooms { rooms_of self.new ≡ rooms_of self.old }
        ensures log { self.new.log ≡ self.old.log }
        ensures hides { hides self.new ≡ hides self.old }
        ensures updates { self.new.updates ≡ self.old.updates }
        ensures kept { (k : Kept) → HoldsStore (design_view self.old.design.now) k unblamed self.old → HoldsStore (design_view self.old.design.now) (keep_all k (update_writes (design_view self.old.design.now) update.now)) unblamed self.new }
    {
        match update.to {
            Lvalue::Signal(signal) => self.set(signal, &update.value, update.certain),
            Lvalue::Part { signal, low } => {
                self.set_part(signal, &low, &update.value, update.certain)
            }
            Lvalue::Word { memory, index } => {
                self.set_word(memory, &index, &update.value, update.certain)
            }
        }
    }

    /// Makes the updates that nonblocking assignments have queued, in order, and leaves none. Where each signal is to blame for
    /// itself before, it is so after.
    pub fn flush(&mut self)
        ensures design { self.new.design ≡ self.old.design }
        ensures around { around_of self.old ≡ [] → around_of self.new ≡ [] }
        ensures rooms { rooms_of self.new ≡ record (rooms_of self.old) { queue = self.old.updates.room } }
        ensures kept { (k : Kept) → HoldsStore (design_view self.old.design.now) k unblamed self.old → HoldsStore (design_view self.old.design.now) (keep_all k (queued_of self.old)) unblamed self.new }
        ensures cells { IsOwn (kept_scene self.old) → (kept_scene self.new).kept ≡ keep_all (kept_scene self.old).kept (queued_of self.old) }
        ensures own { IsOwn (kept_scene self.old) → IsOwn (kept_scene self.new) }
        ensures queued { queued_of self.new ≡ [] }
        ensures log { self.new.log ≡ self.old.log }
        ensures hides { hides self.new ≡ hides self.old }
    {
        self.signals.fitting();
        for place in 0..self.updates.as_slice().len() {
            let update = self.updates.as_slice()[place];
            self.make(&update);
        }
        self.updates.clear();
    }
}
