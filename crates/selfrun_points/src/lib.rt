//! The coverage points of the design of a selfrun are few enough to be scored; there is no code.
//!
//! The list of the points of a lawful design without state machines exists (`proofs/Lists.antt`): what the processes, signals and
//! memories have, sorted, each once. Of the design of a selfrun it has at most 98 points ([`points_law`]).
#![tactic(auto)]

ghost use Rattle.selfrun_points.specs.Few.{SelfrunPointsLaw};

/// The points of the design are listed, and no more than are scored.
pub fn points_law()
    ensures { SelfrunPointsLaw }
{}
