//! Examples of the definitions of rows of bits.
ghost use Rattle.std.specs.Prelude.{◌≡◌, None, true, false};
ghost use Rattle.design_model.specs.Design.{cell};
ghost use Rattle.design_model.specs.Gate.{gate};
ghost use Rattle.process_targets.specs.Targets.{leaf_has, names, row_has};
ghost use Rattle.wake_tests.specs.Examples.{two_signals};

#[test]
fn definitions() {
    worked_examples();
}

/// Examples of the definitions themselves: a row of two signals, and the target y of a gate, which is signal 2 of one bit.
fn worked_examples()
    ensures in_the_mask { row_has two_signals (cell 2 2) ≡ true }
    ensures not_in_the_mask { row_has two_signals (cell 2 1) ≡ false }
    ensures of_another_signal { row_has two_signals (cell 3 0) ≡ false }
    ensures named { names two_signals 4 ≡ true }
    ensures not_named { names two_signals 3 ≡ false }
    ensures of_the_target { leaf_has gate (2, None) (cell 2 0) ≡ true }
    ensures past_the_target { leaf_has gate (2, None) (cell 2 1) ≡ false }
    ensures of_an_operand { leaf_has gate (2, None) (cell 0 0) ≡ false }
{}
