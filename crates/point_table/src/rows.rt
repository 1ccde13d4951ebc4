//! The instances of a design as a table has them, in the order of their paths.

ghost use Rattle.std.specs.Prelude.{◌≡◌, ◌<◌, ◌≤◌, ◌^◌, ℕ, IfOk, OnOk, All, length, map};
ghost use Rattle.std.specs.List.{range_with_len};
ghost use Rattle.std.specs.List.Sorted.{IsPermutation, IsSorted};
ghost use Rattle.point_table.specs.Rows.{ArePlaces, IsPathOrder, instance_at, path_cmp, row_at};

use cov_host::{Name, NoMemory, Sequence};
use coverage_db::DbInstance;
use design_model::Instance;
use std::alloc::Global;

/// The numbers of the instances, in the order of their paths.
pub(crate) fn path_order(alloc: Global, instances: &[Instance]) -> Result<Vec<u32>, NoMemory>
    ensures order { IfOk result (λ order. IsPathOrder instances.now order.items) }
    ensures count { IfOk result (λ order. length order.items < 2 ^ 32) }
{
    let mut order = numbers(alloc, instances.len())?;
    sort_by_path(instances, &mut order)?;
    Ok(order)
}

/// The numbers from 0 on. One past 32 bits is want of memory.
fn numbers(alloc: Global, count: usize) -> Result<Vec<u32>, NoMemory>
    ensures numbers { IfOk result (λ numbers. numbers.items ≡ range_with_len 0 count) }
    ensures count { IfOk result (λ numbers. length numbers.items < 2 ^ 32) }
{
    let Ok(count) = u32::try_from(count) else {
        return Err(NoMemory);
    };
    let mut numbers = Vec::new(alloc);
    for number in 0..count {
        numbers.push(number)?;
    }
    Ok(numbers)
}

/// Sorts numbers of instances by the bytes of the paths.
fn sort_by_path(instances: &[Instance], order: &mut Vec<u32>) -> Result<(), NoMemory>
    ensures permutation { IsPermutation order.old.items order.new.items }
    ensures sorted { OnOk result (IsSorted (path_cmp instances.now) order.new.items) }
{
    order.sort_by(|a, b| path_at(instances, *a).cmp(path_at(instances, *b)))?;
    Ok(())
}

/// The path of an instance; no bytes for a number that no instance has.
fn path_at(instances: &[Instance], instance: u32) -> &[u8]
    ensures { result.now ≡ (instance_at instances.now instance).path }
{
    match instances.get(instance as usize) {
        Some(instance) => instance.path.as_slice(),
        None => &[],
    }
}

/// For each number its place in the order.
pub(crate) fn places_of(alloc: Global, order: &[u32]) -> Result<Vec<u32>, NoMemory>
    requires order { IsPermutation (range_with_len 0 (length order.now)) order.now }
    requires count { length order.now < 2 ^ 32 }
    ensures { IfOk result (λ places. ArePlaces order.now places.items) }
{
    let mut places = vec![in alloc; 0u32; order.len()]?;
    for (place, number) in order.iter().enumerate() {
        places[*number as usize] = place as u32;
    }
    Ok(places)
}

/// The rows of the instances with these numbers.
pub(crate) fn rows_of(
    alloc: Global,
    instances: &[Instance],
    order: &[u32],
) -> Result<Sequence<DbInstance>, NoMemory>
    requires { IsPathOrder instances.now order.now }
    ensures { IfOk result (λ rows. rows ≡ map (row_at instances.now) order.now) }
{
    let mut rows = Sequence::new(alloc);
    for number in order {
        rows.push(row_of(alloc, &instances[*number as usize])?)?;
    }
    Ok(rows)
}

/// The row of an instance.
fn row_of(alloc: Global, instance: &Instance) -> Result<DbInstance, NoMemory>
    ensures { IfOk result (λ row. row ≡ record { path = instance.now.path; «module» = instance.now.«module» }) }
{
    Ok(DbInstance {
        path: name_of(alloc, instance.path.as_slice())?,
        module: name_of(alloc, instance.module.as_slice())?,
    })
}

/// A name with these bytes.
pub(crate) fn name_of(alloc: Global, bytes: &[u8]) -> Result<Name, NoMemory>
    ensures { IfOk result (λ name. name ≡ bytes.now) }
{
    Ok(Name::from_vec(Vec::from_slice(alloc, bytes)?))
}
