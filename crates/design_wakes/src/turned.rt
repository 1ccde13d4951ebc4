//! Lists of numbers, turned round.

ghost use Rattle.std.specs.Prelude.{◌≡◌, ◌<◌, ◌≤◌, ◌^◌, [], IfOk, OnOk, length, map, replicate};
ghost use Rattle.std.specs.List.{Contains};
ghost use Rattle.design_wakes.specs.Transpose.{AddsPairs, IsTranspose};

use cov_host::NoMemory;
use index_sets::Rows;
use std::alloc::Global;

/// For each number below `count`, the numbers of the lists that contain it. It takes the time of `count` and of all
/// items.
pub fn transpose(alloc: Global, lists: &[Vec<u32>], count: usize) -> Result<Rows<u32>, NoMemory>
    requires { length lists.now ≤ 2 ^ 32 }
    ensures { IfOk result (λ rows. IsTranspose (map (λ list. list.items) lists.now) count rows) }
{
    let mut rows = empty_lists(alloc, count)?;
    for list in 0..lists.len() {
        add_list(list as u32, lists[list].as_slice(), &mut rows)?;
    }
    Rows::from_lists(alloc, rows.as_slice())
}

/// `count` empty lists.
fn empty_lists(alloc: Global, count: usize) -> Result<Vec<Vec<u32>>, NoMemory>
    ensures { IfOk result (λ lists. map (λ list. list.items) lists.items ≡ replicate count []) }
{
    let mut lists = Vec::new(alloc);
    for done in 0..count {
        lists.push(Vec::new(alloc))?;
    }
    Ok(lists)
}

/// Adds the number of a list to the row of each of its items. An item that has no row is passed over.
fn add_list(number: u32, items: &[u32], rows: &mut Vec<Vec<u32>>) -> Result<(), NoMemory>
    ensures { OnOk result (AddsPairs (λ x p. Contains items.now x × (number ≡ p)) (map (λ row. row.items) rows.old.items) (map (λ row. row.items) rows.new.items)) }
{
    for item in items {
        add_item(number, *item as usize, rows)?;
    }
    Ok(())
}

/// Adds the number of a list to the row of an item, if the item has a row.
fn add_item(number: u32, item: usize, rows: &mut Vec<Vec<u32>>) -> Result<(), NoMemory>
    ensures { OnOk result (AddsPairs (λ x p. (item ≡ x) × (number ≡ p)) (map (λ row. row.items) rows.old.items) (map (λ row. row.items) rows.new.items)) }
{
    if item < rows.len() {
        rows[item].push(number)?;
    }
    Ok(())
}
