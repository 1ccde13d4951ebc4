ghost use Rattle.std.specs.Prelude.{◌≡◌, ℕ, List, Option, length};
ghost use Rattle.assignments.specs.design_model.Design.{Design};
ghost use Rattle.assignments.specs.body_replay.Replay.{State};
ghost use Rattle.assignments.specs.body_calls.Rooms.{Leaves};
ghost use Rattle.assignments.specs.body_calls.Ways.{Around};
ghost use Rattle.assignments.specs.scene_laws.At.{IsState};
ghost use Rattle.open_tests.specs.Open.{AreOpen, AreSecond, OpenArm, close};

use assignments::Bodies;

/// Ends the second branches of so many undecided tests, the innermost first.
pub fn end_tests<B: Bodies>(store: &mut B, count: usize)
    requires { (outer : List Around) × AreSecond (B.scene store.old).design count outer (B.around store.old) }
    ensures state { (d : Design) (xs : List OpenArm) (outer : List Around) (a : State) (first : Option ℕ) → length xs ≡ count → AreOpen d xs outer (B.around store.old) → IsState d a first (B.scene store.old) (B.queued store.old) (λ ms. ms ≡ a.marks) → IsState d (close d xs a) first (B.scene store.new) (B.queued store.new) (λ ms. ms ≡ a.marks) }
    ensures design { (B.scene store.new).design ≡ (B.scene store.old).design }
    ensures around { (outer : List Around) → AreSecond (B.scene store.old).design count outer (B.around store.old) → B.around store.new ≡ outer }
    ensures under { B.under store.new ≡ B.under store.old }
    ensures rooms { Leaves 0 0 (B.rooms store.old) (B.rooms store.new) }
{
    let mut left = count;
    while left > 0 {
        store.end_test();
        left -= 1;
    }
}
