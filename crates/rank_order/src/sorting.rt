ghost use Rattle.std.specs.Prelude.{◌≡◌, ◌<◌, ◌≤◌, ◌∷◌, [], ℕ, IfOk, OnOk, length, slice_index_or};
ghost use Rattle.std.specs.List.{Contains, range_with_len};
ghost use Rattle.index_sets.specs.Rows.{row_at};
ghost use Rattle.rank_order.specs.Order.{AreNodes, IsOrderAfter, lists_of};

use crate::lists::{add_to, empty_lists, take_list};
use cov_host::NoMemory;
use index_sets::IndexSet;
use std::alloc::Global;

/// Nodes that are put into an order one after the other. A node that still needs another one waits for it.
#[derive(Drop)]
pub(crate) struct Sorting {
    /// The order so far.
    pub(crate) order: IndexSet,
    /// For each node how many of those that it needs, from the first on, are known to be in the order.
    pub(crate) met: Vec<usize>,
    /// For each node those that wait for it.
    pub(crate) waiting: Vec<Vec<usize>>,
}

impl Sorting {
    ghost use Rattle.rank_order.specs.Sorting.{AllPlaced, IsSorting, Places};

    /// No node is in the order yet, and none waits.
    pub(crate) fn new(alloc: Global, needs: &[Vec<usize>]) -> Result<Self, NoMemory>
        ensures sorting { IfOk result (λ sorting. IsSorting (lists_of needs.now) sorting) }
        ensures order { IfOk result (λ sorting. sorting.order.items ≡ []) }
    {
        let count = needs.len();
        let order = IndexSet::new(alloc, count)?;
        let met = vec![in alloc; 0usize; count]?;
        let waiting = empty_lists(alloc, count)?;
        Ok(Sorting {
            order,
            met,
            waiting,
        })
    }

    /// Puts a node into the order if all that it needs is there. If not, it waits for the first that is not.
    fn place(&mut self, node: usize, needs: &[Vec<usize>]) -> Result<(), NoMemory>
        requires node { node < length needs.now }
        requires nodes { AreNodes (lists_of needs.now) }
        requires sorting { IsSorting (lists_of needs.now) self.old }
        ensures sorting { OnOk result (IsSorting (lists_of needs.now) self.new) }
        ensures placed { OnOk result (Places (lists_of needs.now) (node ∷ []) self.old self.new) }
    {
        let list = needs[node].as_slice();
        let met = first_missing(&self.order, list, self.met[node]);
        self.met[node] = met;
        if met < list.len() {
            return add_to(&mut self.waiting, list[met], node);
        }
        self.order.insert(node);
        Ok(())
    }

    /// Puts nodes into the order, or lets them wait.
    pub(crate) fn place_all(
        &mut self,
        nodes: &[usize],
        needs: &[Vec<usize>],
    ) -> Result<(), NoMemory>
        requires below { (v : ℕ) → Contains nodes.now v → v < length needs.now }
        requires nodes { AreNodes (lists_of needs.now) }
        requires sorting { IsSorting (lists_of needs.now) self.old }
        ensures sorting { OnOk result (IsSorting (lists_of needs.now) self.new) }
        ensures placed { OnOk result (Places (lists_of needs.now) nodes.now self.old self.new) }
    {
        for node in nodes {
            self.place(*node, needs)?;
        }
        Ok(())
    }

    /// Goes through the order, which grows meanwhile, and takes up the nodes that wait for what is there.
    pub(crate) fn place_waiting(
        &mut self,
        alloc: Global,
        needs: &[Vec<usize>],
    ) -> Result<(), NoMemory>
        requires nodes { AreNodes (lists_of needs.now) }
        requires sorting { IsSorting (lists_of needs.now) self.old }
        requires placed { AllPlaced (lists_of needs.now) [] self.old }
        ensures order { OnOk result (IsOrderAfter (lists_of needs.now) self.new.order.items) }
        ensures size { OnOk result (self.new.order.size ≡ length needs.now) }
    {
        let mut done = 0;
        while done < self.order.len() {
            let node = self.order.get(done);
            let nodes = take_list(alloc, &mut self.waiting, node);
            done += 1;
            self.place_all(nodes.as_slice(), needs)?;
        }
        Ok(())
    }
}

/// The place of the first node of a list, from a place on, that is not in the order, or the length of the list.
fn first_missing(order: &IndexSet, list: &[usize], from: usize) -> usize
    requires within { from ≤ length list.now }
    requires nodes { (w : ℕ) → Contains list.now w → w < order.now.size }
    requires met { (j : ℕ) → j < from → Contains order.now.items (slice_index_or list.now j 0) }
    ensures within { result ≤ length list.now }
    ensures met { (j : ℕ) → j < result → Contains order.now.items (slice_index_or list.now j 0) }
    ensures missing { result < length list.now → Contains order.now.items (slice_index_or list.now result 0) → ⊥ }
{
    for place in from..list.len() {
        if !order.contains(list[place]) {
            return place;
        }
    }
    list.len()
}
