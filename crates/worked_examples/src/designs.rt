//! Worked examples of the definitions of `design_model`: what is clear, in doubt, open and reached in small designs
//! with dumps.

ghost use Rattle.worked_examples.specs.Design.Reset.{IsBothExample, IsReleaseExample, IsSteadyResetExample};
ghost use Rattle.worked_examples.specs.Design.Loop.{IsLoopExample};
ghost use Rattle.worked_examples.specs.Design.Latch.{IsLatchExample};
ghost use Rattle.worked_examples.specs.Design.Hold.{IsHoldExample};
ghost use Rattle.worked_examples.specs.Design.Rom.{IsRomExample};
ghost use Rattle.worked_examples.specs.Design.Race.{IsRaceExample};
ghost use Rattle.worked_examples.specs.Design.Arms.{IsArmsExample};
ghost use Rattle.worked_examples.specs.Design.Swap.{IsSwapExample};
ghost use Rattle.worked_examples.specs.Design.Reverse.{IsReverseExample};
ghost use Rattle.worked_examples.specs.Design.Closing.{IsClosingExample};
ghost use Rattle.worked_examples.specs.Design.Divided.{IsDividedExample};
ghost use Rattle.worked_examples.specs.Design.Synced.{IsSyncedExample};
ghost use Rattle.worked_examples.specs.Design.Pulse.{IsPulseExample};
ghost use Rattle.worked_examples.specs.Design.Product.{IsProductExample};
ghost use Rattle.worked_examples.specs.Design.HoldBit.{IsHoldBitExample};
ghost use Rattle.worked_examples.specs.Design.Settling.{IsSettlingExample};
ghost use Rattle.worked_examples.specs.Design.PipePoints.{IsPipePointsExample};
ghost use Rattle.worked_examples.specs.Design.RamPoints.{IsRamPointsExample};
ghost use Rattle.worked_examples.specs.Design.Unread.{IsOtherWordExample, IsUnknownWordExample};
ghost use Rattle.worked_examples.specs.Design.Ranges.{IsRangesExample};
ghost use Rattle.worked_examples.specs.Design.Inner.{IsInnerExample};
ghost use Rattle.worked_examples.specs.Design.Gap.{IsGapExample};

/// A register whose clock rises and whose reset falls at one time: its block is not clean, so each point is open and in
/// doubt, and none is reached.
pub fn clock_and_reset()
    ensures { IsBothExample }
{}

/// A register whose reset ends at the clock's edge: the block is clean, its first line is reached, and the reset is in
/// doubt for the branches.
pub fn reset_ends()
    ensures { IsReleaseExample }
{}

/// A register whose reset stays away while the clock rises: the line of the reset is not open, and the other is surely
/// open.
pub fn reset_stays_away()
    ensures { IsSteadyResetExample }
{}

/// A combinational block that reads its own target before writing it: the target is in doubt for its points.
pub fn own_target()
    ensures { IsLoopExample }
{}

/// A latch that the dump lacks is never clear, so it is in doubt for what reads it, by a Clocked and by a net.
pub fn undumped_latch()
    ensures { IsLatchExample }
{}

/// A register with an enable: whichever way the undecided test goes, one line is never reached and another always is.
pub fn branch_closed()
    ensures { IsHoldExample }
{}

/// A net that reads a memory of which no word is ever clear: the memory is in doubt for its value.
pub fn unwritten_memory()
    ensures { IsRomExample }
{}

/// A blocking write that another block reads at the same edge: early for the reader, and not for the writer.
pub fn blocking_race()
    ensures { IsRaceExample }
{}

/// The arms of a case whose selector is known: the other arms are closed, and the one that matches is surely open up to
/// an undecided test.
pub fn case_arms()
    ensures { IsArmsExample }
{}

/// Two registers that swap: nothing is early, and the dump's value of a register is forced.
pub fn swapped_registers()
    ensures { IsSwapExample }
{}

/// A loop that reverses bits: each turn has its own copy of the assignment, and each copy is surely open.
pub fn reversed_bits()
    ensures { IsReverseExample }
{}

/// A latch that closes while its data moves: the execution that counts is the last, on settled values.
pub fn closing_latch()
    ensures { IsClosingExample }
{}

/// A register as the clock of another: by the first round of single cells it is no trigger, in the next it is.
pub fn divided_clock()
    ensures { IsDividedExample }
{}

/// A reset that a register makes: as it stays, the clock alone wakes the block, once the register is known to be
/// single.
pub fn synchronised_reset()
    ensures { IsSyncedExample }
{}

/// A register that one execution writes twice pulses within a step, which a dump does not show: it is never a trigger.
pub fn pulse_in_step()
    ensures { IsPulseExample }
{}

/// A gate whose two inputs move in one step: a run has both true for a moment, and that is not scored.
pub fn both_inputs_move()
    ensures { IsProductExample }
{}

/// A register with an enable that tests one bit of an input: the input is early, and the bit is the same old or new.
pub fn tested_bit()
    ensures { IsHoldBitExample }
{}

/// A gate whose two inputs move in one step, before a register: the dump lacks its output, which is clear from the step
/// on and known to the register.
pub fn settled_gate()
    ensures { IsSettlingExample }
{}

/// The gate before a register that the dump lacks, where both its operands are true.
pub fn undumped_register_points()
    ensures { IsPipePointsExample }
{}

/// A memory whose word is known when it is read: its read and the branch that it takes are surely open, and the others
/// are not open.
pub fn memory_word_points()
    ensures { IsRamPointsExample }
{}

/// A memory of which another word is read than the one that was written: the memory is in doubt for what depends on it.
pub fn other_word()
    ensures { IsOtherWordExample }
{}

/// A memory that is written by an index with an x: no word is written, and none is clear.
pub fn unknown_word()
    ensures { IsUnknownWordExample }
{}

/// Selects on rising ranges and partly outside ones, read and written.
pub fn selected_bits()
    ensures { IsRangesExample }
{}

/// A combinational block that reads a variable which it has written before: that read is inner, and what the block does
/// depends on its input alone.
pub fn inner_read()
    ensures { IsInnerExample }
{}

/// A dump that goes off and on: no time from the last of a stretch to the first of the next is in the window, and a combinational
/// block that has acted before forces its target at the first time of the next.
pub fn dump_with_gap()
    ensures { IsGapExample }
{}
