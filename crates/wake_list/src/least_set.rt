ghost use Rattle.std.specs.Prelude.{◌≡◌, ◌<◌, ◌≤◌, ◌*◌, ◌%◌, ℕ, false, IfOk, MatchOption, length, replicate, slice_index_or, slice_set};
ghost use Rattle.wake_list.specs.Tournament.{IsLeast, IsTree, NoneIsMember};

use cov_host::NoMemory;
use std::alloc::Global;
use std::marker::Model;

/// A set of numbers below a count, whose least member is found in constant time. Putting a number in and taking it out
/// take the logarithm of the count, and no memory.
#[derive(Drop)]
pub struct LeastSet {
    count: usize,
    /// A binary tree in one vector, from place 1 on. The node at place `i` has its two children at `2 * i` and at
    /// `2 * i + 1` and holds the lesser of what they hold. The leaf of a number is at `count` plus the number, and holds
    /// the number where it is a member, and otherwise `count`.
    tree: Vec<usize>,
}

impl Model for LeastSet {
    ghost use Rattle.std.specs.Prelude.{List, Bool};
    ghost use Rattle.wake_list.specs.Tournament.{IsTournament, members};

    ghost Value = { List Bool };

    ghost view = { λ s. members s.count s.tree.items };

    ghost invariant = { λ s. IsTournament s.count s.tree.items };
}

impl LeastSet {
    /// No members yet, of numbers below `count`.
    pub fn new(alloc: Global, count: usize) -> Result<Self, NoMemory>
        ensures { IfOk result (λ set. set ≡ replicate count false) }
    {
        let Some(places) = count.checked_mul(2) else {
            return Err(NoMemory);
        };
        let tree = vec![in alloc; count; places]?;
        Ok(LeastSet { count, tree })
    }

    /// Puts a number in, or takes it out.
    pub fn set(&mut self, number: usize, member: bool)
        requires { number < length self.old }
        ensures { self.new ≡ slice_set self.old number member }
    {
        let held = if member { number } else { self.count };
        write_leaf(self.tree.as_mut_slice(), self.count + number, held);
    }

    /// The least member.
    pub fn least(&self) -> Option<usize>
        ensures { MatchOption result (NoneIsMember self.now) (λ number. IsLeast number self.now) }
    {
        if self.count == 0 {
            return None;
        }
        let least = self.tree[1];
        if least < self.count {
            Some(least)
        } else {
            None
        }
    }
}

/// Writes a leaf, and the nodes above it whose value is another one then.
fn write_leaf(tree: &mut [usize], leaf: usize, held: usize)
    requires tree { IsTree tree.old }
    requires even { length tree.old % 2 ≡ 0 }
    requires leaf { leaf < length tree.old }
    requires is_leaf { length tree.old ≤ 2 * leaf }
    ensures tree { IsTree tree.new }
    ensures leaves { (k : ℕ) → length tree.old ≤ 2 * k → slice_index_or tree.new k 0 ≡ slice_index_or (slice_set tree.old leaf held) k 0 }
{
    tree[leaf] = held;
    let mut node = leaf / 2;
    while node > 0 {
        let least = tree[2 * node].min(tree[2 * node + 1]);
        if tree[node] == least {
            return;
        }
        tree[node] = least;
        node /= 2;
    }
}
