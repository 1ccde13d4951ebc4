ghost use Rattle.std.specs.Prelude.{◌≡◌, ◌≤◌, ◌++◌, ◌∷◌, ℕ, List, None, length, true};
ghost use Rattle.known_state.specs.Partly.{is_whole};
ghost use Rattle.term_replay.specs.body_replay.Store.{KnownWrite};
ghost use Rattle.term_replay.specs.Stands.{Scene};
ghost use Rattle.body_calls.specs.Lvalues.{Like, Takes, if_certain, lvalue_writes, written, written_thing};
ghost use Rattle.body_calls.specs.Rooms.{Leaves, Rooms, takes_in};
ghost use Rattle.body_calls.specs.Under.{Under};
ghost use Rattle.body_calls.specs.Ways.{Around, in_first, in_second, joined_scene};

use crate::Lvalue;
use known_state::Known;
use term_replay::Reads;

/// What the run of a body does to what it reads. No call takes memory.
///
/// A test that is not decided goes both ways: after `begin_test` its first branch runs, after `second_branch` its second
/// one, on what was known when the test began, and after `end_test` that is known which both branches leave.
pub trait Bodies: Reads {
    /// The writes that nonblocking assignments have queued, in order.
    ghost queued: { Self → List KnownWrite };

    /// The undecided tests around, the innermost first.
    ghost around: { Self → List Around };

    /// What may still be logged and queued.
    ghost rooms: { Self → Rooms };

    /// What is kept of the signals and memories of which bodies read something else.
    ghost under: { Self → Under };

    /// Writes a part of the value of a blocking assignment. The thing is to blame for the value if that is not wholly
    /// sure; for a value that is wholly sure there is no such thing. The sign flag of the part is free.
    fn write(&mut self, to: &Lvalue, part: &Known, blame: Option<u32>)
        requires place { Takes (Self.scene self.old).design to.now (length part.now.bits) }
        requires sure { blame ≡ None → is_whole part.now ≡ true }
        requires room { takes_in (around self.old) (rooms self.old) (written_thing to.now) ≤ (rooms self.old).log }
        ensures scene { Like (written to.now part.now.bits blame (Self.scene self.old)) (Self.scene self.new) }
        ensures queued { queued self.new ≡ queued self.old }
        ensures around { around self.new ≡ around self.old }
        ensures rooms { Leaves (takes_in (around self.old) (rooms self.old) (written_thing to.now)) 0 (rooms self.old) (rooms self.new) }
        ensures under { under self.new ≡ under self.old };

    /// Queues a part of the value of a nonblocking assignment, which may not be made where it is not certain. The sign
    /// flag of the part is free.
    fn queue(&mut self, to: &Lvalue, part: &Known, certain: bool)
        requires place { Takes (Self.scene self.old).design to.now (length part.now.bits) }
        requires room { 1 ≤ (rooms self.old).queue }
        ensures scene { Self.scene self.new ≡ Self.scene self.old }
        ensures queued { queued self.new ≡ queued self.old ++ if_certain certain (lvalue_writes (Self.scene self.old).design to.now part.now.bits) }
        ensures around { around self.new ≡ around self.old }
        ensures rooms { Leaves 0 1 (rooms self.old) (rooms self.new) }
        ensures under { under self.new ≡ under self.old };

    /// The first branch of an undecided test begins, for which this thing is to blame.
    fn begin_test(&mut self, test: u32)
        requires { 1 ≤ (rooms self.old).log }
        ensures scene { Self.scene self.new ≡ Self.scene self.old }
        ensures queued { queued self.new ≡ queued self.old }
        ensures around { around self.new ≡ in_first test (Self.scene self.old) ∷ around self.old }
        ensures rooms { Leaves 1 0 (rooms self.old) (rooms self.new) }
        ensures under { under self.new ≡ under self.old };

    /// The first branch of the innermost test has ended, and its second one begins.
    fn second_branch(&mut self)
        requires { (test : ℕ) × (before : Scene) × (outer : List Around) × (around self.old ≡ in_first test before ∷ outer) }
        ensures scene { (test : ℕ) (before : Scene) (outer : List Around) → around self.old ≡ in_first test before ∷ outer → Like before (Self.scene self.new) }
        ensures queued { queued self.new ≡ queued self.old }
        ensures around { (test : ℕ) (before : Scene) (outer : List Around) → around self.old ≡ in_first test before ∷ outer → around self.new ≡ in_second test (Self.scene self.old) ∷ outer }
        ensures rooms { Leaves 0 0 (rooms self.old) (rooms self.new) }
        ensures under { under self.new ≡ under self.old };

    /// The second branch of the innermost test has ended. Where its branches leave something else, the test is to blame.
    fn end_test(&mut self)
        requires { (test : ℕ) × (left : Scene) × (outer : List Around) × (around self.old ≡ in_second test left ∷ outer) }
        ensures scene { (test : ℕ) (left : Scene) (outer : List Around) → around self.old ≡ in_second test left ∷ outer → Like (joined_scene test left (Self.scene self.old)) (Self.scene self.new) }
        ensures queued { queued self.new ≡ queued self.old }
        ensures around { (test : ℕ) (left : Scene) (outer : List Around) → around self.old ≡ in_second test left ∷ outer → around self.new ≡ outer }
        ensures rooms { Leaves 0 0 (rooms self.old) (rooms self.new) }
        ensures under { under self.new ≡ under self.old };
}
