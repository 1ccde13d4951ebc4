//! How the writes are made that runs have queued.

ghost use Rattle.block_runs.specs.Queue.{QueueLaw};

/// The writes that runs have queued, which the definition of a run has as a list for each execution, are made as those of the
/// one list that a store has.
pub fn queue_law()
    ensures { QueueLaw }
{}
