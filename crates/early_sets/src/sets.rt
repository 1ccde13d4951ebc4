//! The sets of a step before the first one.

ghost use Rattle.std.specs.Prelude.{IfOk};
ghost use Rattle.early_sets.specs.Sizes.{AreNew, AreTwoEmpty};

use cov_host::NoMemory;
use index_sets::IndexSet;
use std::alloc::Global;

/// What is found in a step: the sets of [`crate::Wakes`], and the round of each signal and memory.
pub(crate) struct Sets {
    pub(crate) noted: IndexSet,
    pub(crate) ready: IndexSet,
    pub(crate) rounds: Vec<u32>,
    pub(crate) moves: IndexSet,
    pub(crate) woken: IndexSet,
    pub(crate) early: IndexSet,
    pub(crate) early_woken: IndexSet,
}

impl Sets {
    /// Without members, for so many signals and memories, and so many processes.
    pub(crate) fn new(alloc: Global, things: usize, processes: usize) -> Result<Self, NoMemory>
        ensures { IfOk result (λ sets. AreNew sets things processes) }
    {
        let rounds = vec![in alloc; 0; things]?;
        let (noted, ready) = two_sets(alloc, things)?;
        let (moves, early) = two_sets(alloc, things)?;
        let (woken, early_woken) = two_sets(alloc, processes)?;
        Ok(Sets {
            noted,
            ready,
            rounds,
            moves,
            woken,
            early,
            early_woken,
        })
    }
}

/// Two sets of numbers below `size`, without members.
pub(crate) fn two_sets(alloc: Global, size: usize) -> Result<(IndexSet, IndexSet), NoMemory>
    ensures { IfOk result (λ sets. AreTwoEmpty sets size) }
{
    let first = IndexSet::new(alloc, size)?;
    let second = IndexSet::new(alloc, size)?;
    Ok((first, second))
}
