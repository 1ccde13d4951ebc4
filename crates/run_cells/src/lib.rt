//! Theorems of the cells that the runs of bodies change; there is no code.
//!
//! A run of a body of a lawful design writes and queues writes to cells of the design alone, of memories too ([`runs_inside_law`],
//! [`queue_inside_law`]); such writes leave each other cell as it was ([`inside_kept_law`]).
#![tactic(auto)]

ghost use Rattle.run_cells.specs.Cells.{InsideKeptLaw, QueueInsideLaw, RunsInsideLaw};

/// The runs of the bodies of a lawful design change only cells of the design.
pub fn runs_inside_law()
    ensures { RunsInsideLaw }
{}

/// What they queue are writes to cells of the design.
pub fn queue_inside_law()
    ensures { QueueInsideLaw }
{}

/// Writes to cells of the design leave each other cell as it was.
pub fn inside_kept_law()
    ensures { InsideKeptLaw }
{}
