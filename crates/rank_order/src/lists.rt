//! Lists of nodes by node.

ghost use Rattle.std.specs.Prelude.{◌≡◌, ◌<◌, ◌++◌, ◌∷◌, [], IfOk, OnOk, length, map, replicate, slice_set};
ghost use Rattle.std.specs.List.{range_with_len};
ghost use Rattle.index_sets.specs.Rows.{row_at};
ghost use Rattle.rank_order.specs.Order.{lists_of};

use cov_host::NoMemory;
use std::alloc::Global;
use std::mem;

/// So many empty lists.
pub(crate) fn empty_lists(alloc: Global, count: usize) -> Result<Vec<Vec<usize>>, NoMemory>
    ensures { IfOk result (λ lists. lists_of lists.items ≡ replicate count []) }
{
    let mut lists = Vec::new(alloc);
    for done in 0..count {
        lists.push(Vec::new(alloc))?;
    }
    Ok(lists)
}

/// The numbers below a bound, in order.
pub(crate) fn numbers_below(alloc: Global, bound: usize) -> Result<Vec<usize>, NoMemory>
    ensures { IfOk result (λ numbers. numbers.items ≡ range_with_len 0 bound) }
{
    let mut numbers = Vec::new(alloc);
    for number in 0..bound {
        numbers.push(number)?;
    }
    Ok(numbers)
}

/// Adds a node to a list.
pub(crate) fn add_to(lists: &mut Vec<Vec<usize>>, list: usize, node: usize) -> Result<(), NoMemory>
    requires { list < length lists.old.items }
    ensures { OnOk result (lists_of lists.new.items ≡ slice_set (lists_of lists.old.items) list (row_at (lists_of lists.old.items) list ++ node ∷ [])) }
{
    lists[list].push(node)?;
    Ok(())
}

/// Takes the nodes of a list out, which is empty then.
pub(crate) fn take_list(alloc: Global, lists: &mut Vec<Vec<usize>>, list: usize) -> Vec<usize>
    requires { list < length lists.old.items }
    ensures taken { result.items ≡ row_at (lists_of lists.old.items) list }
    ensures lists { lists_of lists.new.items ≡ slice_set (lists_of lists.old.items) list [] }
{
    mem::replace(&mut lists[list], Vec::new(alloc))
}
