//! The run of a body goes by what the body mentions or assigns: what a store shows or veils of other signals and memories makes
//! no difference to what it keeps, queues and notes.
#![tactic(auto)]

ghost use Rattle.local_runs.specs.Narrowed.{NarrowLaw};

/// A run has the same outcome where only those of the hidden signals and memories are hidden that the body mentions or assigns.
pub fn narrow_law()
    ensures { NarrowLaw }
{}
