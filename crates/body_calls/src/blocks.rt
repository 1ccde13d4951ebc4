ghost use Rattle.std.specs.Prelude.{◌≡◌, [], length, true};
ghost use Rattle.std.specs.List.{All};
ghost use Rattle.term_replay.specs.design_model.Design.{is_number};
ghost use Rattle.term_replay.specs.body_replay.Store.{keep_all, weaken};
ghost use Rattle.body_calls.specs.Lvalues.{Takes, lvalue_writes};
ghost use Rattle.body_calls.specs.Own.{IsOwn, IsOwnOutside};
ghost use Rattle.body_calls.specs.Under.{kept_with};

use crate::{Bodies, Lvalue};
use known_state::Known;

/// What is done to what is kept when a block runs, outside of undecided tests. No call takes memory.
pub trait Blocks: Bodies {
    /// A write of which it is not sure that it is made: what is kept is then what it has in common with the bits of the
    /// part. The sign flag of the part is free.
    fn weak_write(&mut self, to: &Lvalue, part: &Known)
        requires place { Takes (Self.scene self.old).design to.now (length part.now.bits) }
        requires outside { Self.around self.old ≡ [] }
        requires own { IsOwn (kept_with (Self.under self.old) (Self.scene self.old)) }
        ensures kept { (kept_with (Self.under self.new) (Self.scene self.new)).kept ≡ keep_all (kept_with (Self.under self.old) (Self.scene self.old)).kept (weaken (lvalue_writes (Self.scene self.old).design to.now part.now.bits)) }
        ensures own { IsOwn (kept_with (Self.under self.new) (Self.scene self.new)) }
        ensures design { (Self.scene self.new).design ≡ (Self.scene self.old).design }
        ensures hidden { (Self.under self.new).hidden ≡ (Self.under self.old).hidden }
        ensures size { (Self.under self.new).log ≡ (Self.under self.old).log }
        ensures queued { Self.queued self.new ≡ Self.queued self.old }
        ensures around { Self.around self.new ≡ [] }
        ensures rooms { Self.rooms self.new ≡ Self.rooms self.old };

    /// A run has ended, in which bodies wrote no other signals and memories than these: each of what is kept is to blame for
    /// itself again, and no memory counts as written. The log is empty.
    fn end_run(&mut self, written: &[u32])
        requires numbers { All (λ x. is_number (Self.scene self.old).design x ≡ true) written.now }
        requires outside { Self.around self.old ≡ [] }
        requires own { IsOwnOutside written.now (kept_with (Self.under self.old) (Self.scene self.old)) }
        ensures kept { (kept_with (Self.under self.new) (Self.scene self.new)).kept ≡ (kept_with (Self.under self.old) (Self.scene self.old)).kept }
        ensures own { IsOwn (kept_with (Self.under self.new) (Self.scene self.new)) }
        ensures design { (Self.scene self.new).design ≡ (Self.scene self.old).design }
        ensures hidden { (Self.under self.new).hidden ≡ (Self.under self.old).hidden }
        ensures queued { Self.queued self.new ≡ Self.queued self.old }
        ensures around { Self.around self.new ≡ [] }
        ensures size { (Self.under self.new).log ≡ (Self.under self.old).log }
        ensures log { (Self.rooms self.new).log ≡ (Self.under self.old).log }
        ensures takes { (Self.rooms self.new).takes ≡ (Self.rooms self.old).takes }
        ensures queue { (Self.rooms self.new).queue ≡ (Self.rooms self.old).queue };
}
