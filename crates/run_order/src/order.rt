ghost use Rattle.std.specs.Prelude.{◌≡◌, ◌<◌, ◌^◌, ◌==◌, ◌||◌, [], ℕ, Bool, List, None, true, IfOk, IsSome, filter, length, map, replicate, slice_index_or};
ghost use Rattle.wake_list.specs.Members.{IsOnce, has};
ghost use Rattle.run_order.specs.Ranked.{AreRanksOf, chosen};

use cov_host::NoMemory;
use std::alloc::Global;
use std::marker::Model;
use wake_list::WakeList;

/// The place of each process in an order, by its number.
pub struct RunOrder {
    /// None for a process that is not in the order.
    ranks: Vec<Option<u32>>,
}

// Written out so that a crate which lets one go does not prove again how each of its parts is let go.
impl Drop for RunOrder {
    fn drop(self) {
        let RunOrder { ranks: _ } = self;
    }
}

impl Model for RunOrder {
    ghost use Rattle.std.specs.Prelude.{◌<◌, ◌^◌, ℕ, List, Option, length};

    ghost Value = { List (Option ℕ) };

    ghost view = { λ r. r.ranks.items };

    ghost invariant = { λ r. length r.ranks.items < 2 ^ 32 };
}

impl RunOrder {
    /// The places of processes in this order, which are all below `count`, each once.
    pub fn new(alloc: Global, count: u32, order: &[u32]) -> Result<Self, NoMemory>
        requires once { IsOnce order.now }
        requires below { (p : ℕ) → has p order.now ≡ true → p < count }
        ensures { IfOk result (AreRanksOf order.now count) }
    {
        let mut ranks = no_ranks(alloc, count as usize)?;
        for place in 0..order.len() {
            ranks[order[place] as usize] = Some(place as u32);
        }
        Ok(RunOrder { ranks })
    }

    /// The place of a process, if it is in the order. It takes constant time.
    pub fn rank(&self, process: usize) -> Option<u32>
        ensures value { result ≡ slice_index_or self.now process None }
        ensures below { IsSome result → process < 2 ^ 32 }
    {
        match self.ranks.get(process) {
            Some(rank) => *rank,
            None => None,
        }
    }

    /// Puts those of the processes that are in the order on an empty list. It takes no memory, and for each of them at most
    /// the logarithm of the count of processes.
    pub fn fill(&self, woken: &[usize], list: &mut WakeList)
        requires count { length self.now ≡ list.old.count }
        requires empty { list.old.pairs ≡ [] }
        requires ranked { (order : List ℕ) × AreRanksOf order list.old.count self.now }
        ensures count { list.new.count ≡ list.old.count }
        ensures pairs { (order : List ℕ) → AreRanksOf order list.old.count self.now → map (λ x. x.0) list.new.pairs ≡ filter (λ p. has p woken.now) order }
    {
        for process in woken {
            self.put(*process, list);
        }
    }

    /// Puts a process on the list, if it is in the order.
    fn put(&self, process: usize, list: &mut WakeList)
        requires count { length self.now ≡ list.old.count }
        requires ranked { (order : List ℕ) × AreRanksOf order list.old.count self.now }
        ensures count { list.new.count ≡ list.old.count }
        ensures pairs { (order : List ℕ) (test : ℕ → Bool) → AreRanksOf order list.old.count self.now → list.old.pairs ≡ chosen test 0 order
            → list.new.pairs ≡ chosen (λ p. test p || p == process) 0 order }
    {
        if let Some(rank) = self.rank(process) {
            let _ = list.put(process as u32, rank);
        }
    }
}

/// No place for so many processes.
fn no_ranks(alloc: Global, count: usize) -> Result<Vec<Option<u32>>, NoMemory>
    ensures { IfOk result (λ ranks. ranks.items ≡ replicate count None) }
{
    Ok(vec![in alloc; None; count]?)
}
