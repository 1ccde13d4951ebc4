ghost use Rattle.std.specs.Prelude.{◌≡◌, ◌<◌, ◌≤◌, ◌∷◌, ◌↔◌, [], ℕ, IfOk, IfSome, IsTrue, MatchOption, if◌then◌else◌, length, not, replicate};
ghost use Rattle.wake_list.specs.Waiting.{AreOnce, Waiting, is_waiting, with_process};

use crate::LeastSet;
use crate::queue::Queue;
use cov_host::NoMemory;
use std::alloc::Global;
use std::marker::Model;

/// The processes that are to run, each once. They are taken in order of rank, and those of equal rank in the order in
/// which they were put in. Putting one in and taking one out take at most the logarithm of the count of processes, and
/// no memory.
pub struct WakeList {
    /// For each rank the processes with it.
    queues: Vec<Queue>,
    /// For each process the one after it in its queue.
    links: Vec<u32>,
    /// For each process its rank, where it is on the list.
    ranks: Vec<Option<u32>>,
    /// The ranks whose queues are not empty.
    used: LeastSet,
}

// Written out so that a crate which lets one go does not prove again how each of its parts is let go.
impl Drop for WakeList {
    fn drop(self) {
        let WakeList {
            queues: _,
            links: _,
            ranks: _,
            used: _,
        } = self;
    }
}

impl Model for WakeList {
    ghost use Rattle.std.specs.Prelude.{length, map};
    ghost use Rattle.wake_list.specs.Waiting.{Waiting, pairs_from};

    ghost Value = { Waiting };

    ghost use Rattle.wake_list.specs.Queues.{AreQueues, processes_of};

    ghost view = { λ w. record { count = length w.links.items; pairs = pairs_from 0 (map (processes_of w.links.items) w.queues.items) } };

    ghost invariant = { λ w. AreQueues w.links.items w.ranks.items w.used w.queues.items };
}

impl WakeList {
    /// An empty list for processes and ranks below `count`.
    pub fn new(alloc: Global, count: u32) -> Result<Self, NoMemory>
        ensures count { IfOk result (λ list. list.count ≡ count) }
        ensures pairs { IfOk result (λ list. list.pairs ≡ []) }
    {
        let size = count as usize;
        let queues = vec![in alloc; Queue::EMPTY; size]?;
        let links = vec![in alloc; 0u32; size]?;
        let ranks = no_ranks(alloc, size)?;
        let used = LeastSet::new(alloc, size)?;
        Ok(WakeList {
            queues,
            links,
            ranks,
            used,
        })
    }

    /// There are no more processes on the list than there can be, since each is on it once. It does nothing.
    pub fn fitting(&self)
        ensures once { AreOnce self.now.pairs }
        ensures few { length self.now.pairs ≤ self.now.count }
    {
        let _processes = self.links.len();
    }

    /// Whether no process is on the list.
    pub fn is_empty(&self) -> bool
        ensures { IsTrue result ↔ (self.now.pairs ≡ []) }
    {
        self.used.least().is_none()
    }

    /// Puts a process with this rank on the list, after those of the same rank, and says whether it was not yet there. A
    /// process that is on the list stays where it is, with the rank that it has.
    pub fn put(&mut self, process: u32, rank: u32) -> bool
        requires process { process < self.old.count }
        requires rank { rank < self.old.count }
        ensures there { result ≡ not (is_waiting process self.old.pairs) }
        ensures count { self.new.count ≡ self.old.count }
        ensures pairs { self.new.pairs ≡ (if result then with_process process rank self.old.pairs else self.old.pairs) }
        ensures once { AreOnce self.new.pairs }
    {
        if self.ranks[process as usize].is_some() {
            return false;
        }
        self.ranks[process as usize] = Some(rank);
        let queue = self.queues[rank as usize];
        self.queues[rank as usize] = queue.with(process, self.links.as_mut_slice());
        self.used.set(rank as usize, true);
        true
    }

    /// Takes the process of the least rank out, and of those of equal rank the one that was put in first.
    pub fn take(&mut self) -> Option<u32>
        ensures count { self.new.count ≡ self.old.count }
        ensures below { IfSome result (λ process. process < self.old.count) }
        ensures pairs { MatchOption result ((self.old.pairs ≡ []) × (self.new.pairs ≡ [])) (λ process. (rank : ℕ) × (self.old.pairs ≡ (process, rank) ∷ self.new.pairs)) }
    {
        let Some(rank) = self.used.least() else {
            return None;
        };
        let queue = self.queues[rank];
        let process = queue.first;
        self.queues[rank] = Queue {
            first: self.links[process as usize],
            last: queue.last,
            count: queue.count - 1,
        };
        self.ranks[process as usize] = None;
        self.used.set(rank, queue.count > 1);
        Some(process)
    }

    /// Takes all processes out.
    pub fn clear(&mut self)
        ensures count { self.new.count ≡ self.old.count }
        ensures pairs { self.new.pairs ≡ [] }
    {
        while self.take().is_some() {}
    }
}

/// No rank for so many processes.
fn no_ranks(alloc: Global, count: usize) -> Result<Vec<Option<u32>>, NoMemory>
    ensures { IfOk result (λ ranks. ranks.items ≡ replicate count None) }
{
    let mut ranks = Vec::new(alloc);
    for done in 0..count {
        ranks.push(None)?;
    }
    Ok(ranks)
}
