//! How many turns the loops of a step take, counted by a ledger.

ghost use Rattle.std.specs.Prelude.{◌≡◌, ◌<◌};
ghost use Rattle.std.specs.List.{All};
ghost use Rattle.early_sets.specs.Settled.{HasSettled};
ghost use Rattle.early_sets.specs.WakeState.{state_of};
ghost use Rattle.step_wakes.specs.Step.{note_turns};

use crate::answers::say_moves;
use crate::comparison::Comparison;
use crate::script::fault_of;
use design_model::Design;
use early_sets::{TurnCount, Wakes};
use std::sync::ledger::{Blank, Ledger};
use step_wakes::{SignalChange, find};

/// Takes a step and counts each turn: there are no more than the members of the sets have.
fn counted<L: Ledger>(wakes: &mut Wakes, changes: &[SignalChange], blank: Blank) -> TurnCount<L>
    requires below { All (λ change. change.signal < (state_of wakes.old).tables.things) changes.now }
    requires name { blank.name ≡ L.name }
    requires parts { blank.parts ≡ L.parts }
    requires some { 0 < blank.parts }
    ensures { HasSettled (state_of wakes.new) (note_turns changes.now (state_of wakes.new)) result }
{
    let mut count = TurnCount::new(blank);
    find(wakes, changes, &mut count);
    count
}

/// Takes a step in which no signal that the dump gives changes, with its turns counted, and says what may move and the
/// processes that can wake.
pub(crate) fn say_counted<L: Ledger>(
    design: &Design,
    wakes: &mut Wakes,
    said: &mut Comparison,
    blank: Blank,
)
    requires name { blank.name ≡ L.name }
    requires parts { blank.parts ≡ L.parts }
    requires some { 0 < blank.parts }
{
    let _ = counted::<L>(wakes, &[], blank);
    say_moves(design, wakes, said);
    said.say(b"; wakes");
    for process in wakes.woken() {
        said.say(b" ");
        said.say_number(*process as u128);
    }
}

const TURNS: &str = "
====
module m(input clk, input slow, input d, output reg q, output reg r);
  always @(posedge clk) q <= d;
  always @(posedge slow) r <= d;
endmodule
----
# The dump does not give the clock of one register, beside a register of another clock, so that the first clock may change in
# each step: it and the first register alone may move.
turns clk=??: moves clk q; wakes 0
";

#[test]
fn turns_of_a_step(rt: HostRuntime) {
    let (part, line) = fault_of(rt.alloc(), TURNS).unwrap_or((0, 0));
    assert!(rt; part == 0, "part {part}, line {line}");
}
