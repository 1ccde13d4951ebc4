//! The order of the processes by what they watch and drive.

ghost use Rattle.std.specs.Prelude.{◌≡◌, ◌<◌, ◌≤◌, ◌^◌, ℕ, IfOk, length};
ghost use Rattle.std.specs.List.{Contains};
ghost use Rattle.index_sets.specs.Rows.{row_at};
ghost use Rattle.process_order.specs.Names.{lists_of};
ghost use Rattle.process_order.specs.Needs.{is_bound};
ghost use Rattle.process_order.specs.Order.{AreLinks, IsRunOrder};

use crate::needs::Links;
use crate::owners::shared_lists;
use cov_host::NoMemory;
use design_wakes::transpose;
use index_sets::IndexSet;
use rank_order::order_after;
use std::alloc::Global;

/// The processes in an order in which each comes after the others that drive an unbound number which it watches, without
/// those on a cycle and those after one. There are also numbers past the processes in it. All numbers in the lists are
/// below `count`.
pub(crate) fn run_order(
    alloc: Global,
    watched: &[Vec<u32>],
    driven: &[Vec<u32>],
    bound: &[bool],
    count: usize,
) -> Result<IndexSet, NoMemory>
    requires few { length watched.now ≤ 2 ^ 32 }
    requires size { length driven.now ≡ length watched.now }
    requires watched { (p x : ℕ) → Contains (row_at (lists_of watched.now) p) x → x < count }
    requires driven { (p x : ℕ) → Contains (row_at (lists_of driven.now) p) x → x < count }
    ensures size { IfOk result (λ order. length watched.now ≤ order.size) }
    ensures order { IfOk result (λ order. IsRunOrder (lists_of watched.now) (lists_of driven.now) (is_bound bound.now) order.items) }
{
    let links = links_of(alloc, watched, driven, count)?;
    let needs = links.all_needs(alloc, watched, bound, count)?;
    order_after(alloc, needs.as_slice())
}

/// Who drives each number, and who both watches and drives it.
fn links_of(
    alloc: Global,
    watched: &[Vec<u32>],
    driven: &[Vec<u32>],
    count: usize,
) -> Result<Links, NoMemory>
    requires few { length watched.now ≤ 2 ^ 32 }
    requires size { length driven.now ≡ length watched.now }
    requires watched { (p x : ℕ) → Contains (row_at (lists_of watched.now) p) x → x < count }
    requires driven { (p x : ℕ) → Contains (row_at (lists_of driven.now) p) x → x < count }
    ensures { IfOk result (λ links. AreLinks (lists_of watched.now) (lists_of driven.now) count links) }
{
    let shared = shared_lists(alloc, watched, driven, count)?;
    let drivers = transpose(alloc, driven, count)?;
    let owners = transpose(alloc, shared.as_slice(), count)?;
    Ok(Links { drivers, owners })
}
