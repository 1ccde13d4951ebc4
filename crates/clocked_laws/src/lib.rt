//! Theorems of the Clocked processes of one closing step, beside those of `replay_steps`; there is no code.
//!
//! A Clocked runs exactly where it can wake ([`clocked_running_law`]); the others may be left out, and the clean and the weak ones
//! taken one by one in one order ([`clean_filter_law`], [`clean_order_law`], [`weak_filter_law`], [`clocked_filter_law`], [`append_law`]). Their runs change
//! nothing of what has acted and of what was made, and only add to what was reported ([`clocked_rest_law`]).
//!
//! A cell that each of them leaves is as it was at the start of the step, and the writes that are queued leave it so
//! ([`clocked_keep_law`]). That is each cell that none of them may write ([`untargeted_law`], [`clocked_made_law`]). They write only
//! what may move ([`clocked_target_law`]), so what may not move stays ([`clocked_still_law`]); and what may move is an input or is
//! written by a process that runs ([`clocked_moves_law`]).
//!
//! What a Clocked assigns is made by no Assign or Comb, so what is made of it is what the runs of the Clocked leave once the queued
//! writes are made ([`clocked_firm_law`]). Of what is no cell of the design nothing is known ([`clocked_blank_law`]).
#![tactic(auto)]

ghost use Rattle.clocked_laws.specs.Laws.{CleanBlankLaw, ClockedAllBlankLaw, ClockedBlankLaw, ClockedStartBlankLaw, FlushedBlankLaw, WeakBlankLaw};
ghost use Rattle.clocked_laws.specs.Laws.{CleanAppendLaw, CleanFilterLaw, CleanOrderLaw, ClockedActedLaw, ClockedFilterLaw, ClockedNotesLaw, ClockedRunningLaw, ClockedUnmadeLaw, WeakAppendLaw, WeakFilterLaw};
ghost use Rattle.clocked_laws.specs.Laws.{ClockedAllKeptLaw, ClockedAllMadeLaw, ClockedContradictsLaw, ClockedFirmLaw, ClockedStartLaw};
ghost use Rattle.clocked_laws.specs.Laws.{NumbersLaw};
ghost use Rattle.clocked_laws.specs.Laws.{ClockedAllStillLaw, ClockedFlushLaw, ClockedKeepLaw, ClockedMadeLaw, ClockedMovesLaw, ClockedStartStillLaw, ClockedStillLaw, ClockedStillMadeLaw, ClockedTargetLaw, UnassignedLaw, UntargetedLaw};

/// A Clocked that does not run clean changes nothing among those that do.
pub fn clean_filter_law()
    ensures { CleanFilterLaw }
{}

/// Nor does it where those are put in order of their rounds.
pub fn clean_order_law()
    ensures { CleanOrderLaw }
{}

/// A Clocked that does not run weak changes nothing among those that do.
pub fn weak_filter_law()
    ensures { WeakFilterLaw }
{}

/// A Clocked that does not run changes nothing.
pub fn clocked_filter_law()
    ensures { ClockedFilterLaw }
{}

/// The processes of two lists run one list after the other.
pub fn append_law()
    ensures clean { CleanAppendLaw }
    ensures weak { WeakAppendLaw }
{}

/// A Clocked runs exactly where it can wake.
pub fn clocked_running_law()
    ensures { ClockedRunningLaw }
{}

/// The runs of the Clocked change nothing of what has surely acted and of what was made, and add to what was reported.
pub fn clocked_rest_law()
    ensures acted { ClockedActedLaw }
    ensures made { ClockedUnmadeLaw }
    ensures notes { ClockedNotesLaw }
{}

/// A Clocked that runs may write only what may move.
pub fn clocked_target_law()
    ensures { ClockedTargetLaw }
{}

/// What may move is an input, or is written by an Assign or Comb that watches something that may move, or by a Clocked that runs.
pub fn clocked_moves_law()
    ensures { ClockedMovesLaw }
{}

/// A process that may not write a cell leaves it.
pub fn untargeted_law()
    ensures { UntargetedLaw }
{}

/// A cell that each Clocked which runs leaves is as it was at the start of the step, and the writes that are queued leave it so.
pub fn clocked_keep_law()
    ensures { ClockedKeepLaw }
{}

/// What may not move is as it was at the start of the step, as the first Assign or Comb runs, and after all of them. Where the dump
/// says something else of it (`IsDumpStill` does not hold), what was made of it is still what was known.
pub fn clocked_still_law()
    ensures clocked { ClockedStillLaw }
    ensures start { ClockedStartStillLaw }
    ensures all { ClockedAllStillLaw }
    ensures made { ClockedStillMadeLaw }
{}

/// A cell that no Clocked which runs may write, as each of what none of them assigns, has the value that was known, and this is what
/// was made of it.
pub fn clocked_made_law()
    ensures unassigned { UnassignedLaw }
    ensures flushed { ClockedFlushLaw }
    ensures made { ClockedMadeLaw }
{}

/// What a Clocked assigns is not to be made anew; what the Clocked leave, once the queued writes are made, is what is made of it,
/// and contradicts the step where it surely differs from what the dump says.
pub fn clocked_firm_law()
    ensures firm { ClockedFirmLaw }
    ensures start { ClockedStartLaw }
    ensures made { ClockedAllMadeLaw }
    ensures kept { ClockedAllKeptLaw }
    ensures contradicts { ClockedContradictsLaw }
{}

/// Of what is no cell of the design nothing is known after a run of a Clocked that changes only cells of the design, after all of
/// them, once the queued writes are made, as the first Assign or Comb runs, and after the step.
pub fn clocked_blank_law()
    ensures clean { CleanBlankLaw }
    ensures weak { WeakBlankLaw }
    ensures clocked { ClockedBlankLaw }
    ensures flushed { FlushedBlankLaw }
    ensures start { ClockedStartBlankLaw }
    ensures all { ClockedAllBlankLaw }
{}

/// What the body of a process of a lawful design assigns is a signal or memory of the design.
pub fn numbers_law()
    ensures { NumbersLaw }
{}
