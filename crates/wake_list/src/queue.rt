//! Queues of processes that are linked through one table.

ghost use Rattle.std.specs.Prelude.{◌≡◌, ◌<◌, ◌≤◌, ◌+◌, ◌^◌, ◌++◌, ◌∷◌, [], ℕ, false, length};
ghost use Rattle.wake_list.specs.Members.{IsOnce, has};
ghost use Rattle.wake_list.specs.Queues.{EndsAt, chain};

/// The processes of one rank, in the order in which they were put in. Each process but the last is linked to the next
/// one.
#[derive(Clone, Copy)]
pub(crate) struct Queue {
    pub(crate) first: u32,
    pub(crate) last: u32,
    /// How many there are. Where it is 0, `first` and `last` say nothing.
    pub(crate) count: u32,
}

impl Queue {
    /// No process.
    pub(crate) const EMPTY: Queue = Queue {
        first: 0,
        last: 0,
        count: 0,
    };

    /// The queue with a process after the others, to which the last of them is linked.
    pub(crate) fn with(self, process: u32, links: &mut [u32]) -> Queue
        requires last { 0 < self.count → self.last < length links.old }
        requires ends { EndsAt self.last (chain links.old self.first self.count) }
        requires once { IsOnce (chain links.old self.first self.count) }
        requires fits { self.count + 1 < 2 ^ 32 }
        ensures processes { chain links.new result.first result.count ≡ chain links.old self.first self.count ++ process ∷ [] }
        ensures last { result.last ≡ process }
        ensures count { result.count ≡ self.count + 1 }
        ensures others { (p n : ℕ) → (0 < self.count → has self.last (chain links.old p n) ≡ false) → chain links.new p n ≡ chain links.old p n }
    {
        if self.count == 0 {
            return Queue {
                first: process,
                last: process,
                count: 1,
            };
        }
        links[self.last as usize] = process;
        Queue {
            first: self.first,
            last: process,
            count: self.count + 1,
        }
    }
}
