//! The processes to run, as a flat list.

ghost use Rattle.std.specs.Prelude.{◌≡◌, length};
ghost use Rattle.step_start.specs.Settles.{ArePlaced};

use index_sets::IndexSet;
use run_order::RunOrder;

/// Makes `running` the set of those of the processes that have a place in the order. It takes no memory, and constant time for each
/// of the processes.
pub(crate) fn list_running(woken: &[usize], order: &RunOrder, running: &mut IndexSet)
    requires { running.old.size ≡ length order.now }
    ensures size { running.new.size ≡ running.old.size }
    ensures placed { ArePlaced order.now woken.now running.new.items }
{
    running.clear();
    for process in woken {
        if order.rank(*process).is_some() {
            let _ = running.insert(*process);
        }
    }
}
