use cov_host::NoMemory;
use index_sets::{IndexSet, Rows};
use std::alloc::Global;

/// Puts numbers below 8 in, one of them twice, empties the set, and uses it again.
fn keeps_members(alloc: Global) -> Result<bool, NoMemory> {
    let mut set = IndexSet::new(alloc, 8)?;
    let five = set.insert(5);
    let zero = set.insert(0);
    let seven = set.insert(7);
    let again = set.insert(0);
    let three = set.contains(3);
    let members = matches!(set.as_slice(), [5, 0, 7]);
    set.clear();
    let gone = !set.contains(5);
    let back = set.insert(7);
    let alone = matches!(set.as_slice(), [7]);
    Ok(five && zero && seven && !again && !three && members && gone && back && alone)
}

#[test]
fn members_of_sets(rt: HostRuntime) {
    assert!(rt; matches!(keeps_members(rt.alloc()), Ok(true)));
}

/// A set of no numbers has no member.
fn has_nothing(alloc: Global) -> Result<bool, NoMemory> {
    let set = IndexSet::new(alloc, 0)?;
    Ok(set.len() == 0)
}

#[test]
fn sets_of_nothing(rt: HostRuntime) {
    assert!(rt; matches!(has_nothing(rt.alloc()), Ok(true)));
}

/// Three lists, of which the middle one is empty, as rows.
fn keeps_rows(alloc: Global) -> Result<bool, NoMemory> {
    let mut lists: Vec<Vec<u32>> = Vec::new(alloc);
    lists.push(vec![in alloc; 4, 2]?)?;
    lists.push(Vec::new(alloc))?;
    lists.push(vec![in alloc; 9]?)?;
    let rows = Rows::from_lists(alloc, lists.as_slice())?;
    let first = matches!(rows.row(0), [4, 2]);
    let middle = rows.row(1).is_empty();
    let last = matches!(rows.row(2), [9]);
    Ok(first && middle && last)
}

#[test]
fn rows_of_lists(rt: HostRuntime) {
    assert!(rt; matches!(keeps_rows(rt.alloc()), Ok(true)));
}
