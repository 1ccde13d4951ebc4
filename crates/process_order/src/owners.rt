//! The signals and memories that a process both watches and drives.

ghost use Rattle.std.specs.Prelude.{◌≡◌, ◌<◌, ◌≤◌, ◌↔◌, ℕ, IfOk, IsFalse, IsTrue, length};
ghost use Rattle.std.specs.List.{Contains};
ghost use Rattle.index_sets.specs.Rows.{row_at};
ghost use Rattle.process_order.specs.Names.{lists_of};
ghost use Rattle.process_order.specs.Owners.{HasOther, IsAlone};

use crate::names::push_if;
use cov_host::NoMemory;
use index_sets::IndexSet;
use std::alloc::Global;

/// For each process what it both watches and drives. All numbers in the lists are below `count`.
pub(crate) fn shared_lists(
    alloc: Global,
    watched: &[Vec<u32>],
    driven: &[Vec<u32>],
    count: usize,
) -> Result<Vec<Vec<u32>>, NoMemory>
    requires size { length driven.now ≡ length watched.now }
    requires watched { (p x : ℕ) → Contains (row_at (lists_of watched.now) p) x → x < count }
    requires driven { (p x : ℕ) → Contains (row_at (lists_of driven.now) p) x → x < count }
    ensures size { IfOk result (λ shared. length shared.items ≡ length watched.now) }
    ensures both { IfOk result (λ shared. (p x : ℕ) → Contains (row_at (lists_of shared.items) p) x ↔ (Contains (row_at (lists_of watched.now) p) x × Contains (row_at (lists_of driven.now) p) x)) }
{
    let mut marks = IndexSet::new(alloc, count)?;
    let mut shared = Vec::new(alloc);
    for process in 0..watched.len() {
        mark(driven[process].as_slice(), &mut marks);
        let list = marked(alloc, watched[process].as_slice(), &marks)?;
        shared.push(list)?;
    }
    Ok(shared)
}

/// Makes the numbers of a list the members of a set, and no others.
pub fn mark(list: &[u32], marks: &mut IndexSet)
    requires { (x : ℕ) → Contains list.now x → x < marks.old.size }
    ensures size { marks.new.size ≡ marks.old.size }
    ensures members { (x : ℕ) → Contains marks.new.items x ↔ Contains list.now x }
{
    marks.clear();
    for number in list {
        marks.insert(*number as usize);
    }
}

/// The numbers of a list that are members of the set.
fn marked(alloc: Global, list: &[u32], marks: &IndexSet) -> Result<Vec<u32>, NoMemory>
    requires { (x : ℕ) → Contains list.now x → x < marks.now.size }
    ensures { IfOk result (λ found. (x : ℕ) → Contains found.items x ↔ (Contains list.now x × Contains marks.now.items x)) }
{
    let mut found = Vec::new(alloc);
    for number in list {
        let is_marked = marks.contains(*number as usize);
        push_if(is_marked, *number, &mut found)?;
    }
    Ok(found)
}

/// Whether the list has this process and no other.
pub(crate) fn is_alone(process: u32, owners: &[u32]) -> bool
    ensures alone { IsTrue result → IsAlone process owners.now }
    ensures other { IsFalse result → Contains owners.now process → HasOther process owners.now }
{
    for owner in owners {
        if *owner != process {
            return false;
        }
    }
    !owners.is_empty()
}
