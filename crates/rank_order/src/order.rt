ghost use Rattle.std.specs.Prelude.{◌≡◌, IfOk, length};
ghost use Rattle.rank_order.specs.Order.{AreNodes, IsOrderAfter, lists_of};

use crate::lists::numbers_below;
use crate::sorting::Sorting;
use cov_host::NoMemory;
use index_sets::IndexSet;
use std::alloc::Global;

/// The nodes in an order in which each comes after all that it needs, without those on a cycle and those that need one
/// of these. `needs` has for each node the nodes that it needs. It takes the time of the nodes and of all that they need.
pub fn order_after(alloc: Global, needs: &[Vec<usize>]) -> Result<IndexSet, NoMemory>
    requires { AreNodes (lists_of needs.now) }
    ensures size { IfOk result (λ order. order.size ≡ length needs.now) }
    ensures order { IfOk result (λ order. IsOrderAfter (lists_of needs.now) order.items) }
{
    let mut sorting = Sorting::new(alloc, needs)?;
    let nodes = numbers_below(alloc, needs.len())?;
    sorting.place_all(nodes.as_slice(), needs)?;
    sorting.place_waiting(alloc, needs)?;
    Ok(sorting.order)
}
