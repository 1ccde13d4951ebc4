//! The toggle points of the signals of a design, and the points of the words of its memories.

ghost use Rattle.std.specs.Prelude.{◌≡◌, ◌↔◌, ◌+◌, ◌++◌, ℕ, Bool, [], IfOk, OnOk, map};
ghost use Rattle.std.specs.List.{dedup};
ghost use Rattle.std.specs.List.Sorted.{IsPermutation, IsSorted, IsStrictlySortedBy};
ghost use Rattle.std.specs.Ordering.{eq_by_cmp};
ghost use Rattle.design_model.specs.Design.{In};
ghost use Rattle.design_model.specs.Lawful.{IsLawfulDesign};
ghost use Rattle.design_model.specs.Points.{IsPoint};
ghost use Rattle.design_model.specs.View.{design_view};
ghost use Rattle.design_model.specs.declared.point.Point.TheVariants.{Toggle as toggle_point, Word as word_point};
ghost use Rattle.cover_points.specs.Order.{index_cmp};
ghost use Rattle.cover_points.specs.Texts.{each_from};
ghost use Rattle.cover_points.specs.Things.{index_points, memory_indexes, signal_indexes, toggle_view, two_points, word_view};

use crate::compare::compare_indexes;
use crate::points::IndexPoint;
use cov_host::NoMemory;
use design_model::{Design, Memory, Signal};
use std::alloc::Global;

/// The toggle points of a design, each once, in their order.
pub fn toggle_points(alloc: Global, design: &Design) -> Result<Vec<IndexPoint>, NoMemory>
    requires { IsLawfulDesign (design_view design.now) }
    ensures rise { IfOk result (λ points. IsStrictlySortedBy (index_cmp (design_view design.now)) points.items) }
    ensures members { IfOk result (λ points. (s i : ℕ) (rise : Bool) → In (toggle_point s i rise) (map toggle_view points.items) ↔ IsPoint (design_view design.now) [] (toggle_point s i rise)) }
{
    let mut found = signal_indexes(alloc, design.signals.as_slice())?;
    sort_indexes(design, &mut found)?;
    keep_first_indexes(design, &mut found);
    Ok(found)
}

/// The points of the words of the memories of a design, each once, in their order.
pub fn word_points(alloc: Global, design: &Design) -> Result<Vec<IndexPoint>, NoMemory>
    requires { IsLawfulDesign (design_view design.now) }
    ensures rise { IfOk result (λ points. IsStrictlySortedBy (index_cmp (design_view design.now)) points.items) }
    ensures members { IfOk result (λ points. (m i : ℕ) (write : Bool) → In (word_point m i write) (map word_view points.items) ↔ IsPoint (design_view design.now) [] (word_point m i write)) }
{
    let base = design.signals.len();
    let mut found = memory_indexes(alloc, base, design.memories.as_slice())?;
    sort_indexes(design, &mut found)?;
    keep_first_indexes(design, &mut found);
    Ok(found)
}

/// Two points for each bit of the signals.
fn signal_indexes(alloc: Global, signals: &[Signal]) -> Result<Vec<IndexPoint>, NoMemory>
    ensures { IfOk result (λ found. found.items ≡ each_from signal_indexes 0 signals.now) }
{
    let mut found = Vec::new(alloc);
    for (number, signal) in signals.iter().enumerate() {
        push_indexes(number_of(0, number)?, signal.high, signal.low, &mut found)?;
    }
    Ok(found)
}

/// Two points for each word of the memories, which are numbered from `base` on.
fn memory_indexes(
    alloc: Global,
    base: usize,
    memories: &[Memory],
) -> Result<Vec<IndexPoint>, NoMemory>
    ensures { IfOk result (λ found. found.items ≡ each_from memory_indexes base memories.now) }
{
    let mut found = Vec::new(alloc);
    for (number, memory) in memories.iter().enumerate() {
        push_indexes(
            number_of(base, number)?,
            memory.first,
            memory.last,
            &mut found,
        )?;
    }
    Ok(found)
}

/// The number of a thing at a place after `base`. One past 32 bits is want of memory.
pub(crate) fn number_of(base: usize, place: usize) -> Result<u32, NoMemory>
    ensures { IfOk result (λ number. number ≡ base + place) }
{
    let Some(number) = base.checked_add(place) else {
        return Err(NoMemory);
    };
    match u32::try_from(number) {
        Ok(number) => Ok(number),
        Err(_) => Err(NoMemory),
    }
}

/// Adds two points for each index between two bounds, both included.
fn push_indexes(thing: u32, a: u32, b: u32, found: &mut Vec<IndexPoint>) -> Result<(), NoMemory>
    ensures { OnOk result (found.new.items ≡ found.old.items ++ index_points thing a b) }
{
    let least = a.min(b);
    let count = u64::from(a.max(b) - least) + 1;
    for step in 0..count {
        push_two(thing, least + step as u32, found)?;
    }
    Ok(())
}

/// Adds the two points of an index.
fn push_two(thing: u32, index: u32, found: &mut Vec<IndexPoint>) -> Result<(), NoMemory>
    ensures { OnOk result (found.new.items ≡ found.old.items ++ two_points thing index) }
{
    found.push(IndexPoint {
        thing,
        index,
        second: false,
    })?;
    found.push(IndexPoint {
        thing,
        index,
        second: true,
    })?;
    Ok(())
}

/// Sorts the points of signals or of memories.
fn sort_indexes(design: &Design, found: &mut Vec<IndexPoint>) -> Result<(), NoMemory>
    ensures permutation { IsPermutation found.old.items found.new.items }
    ensures sorted { OnOk result (IsSorted (index_cmp (design_view design.now)) found.new.items) }
{
    found.sort_by(|a, b| compare_indexes(design, a, b))?;
    Ok(())
}

/// Drops each point that is equal in the order to the one before it.
fn keep_first_indexes(design: &Design, found: &mut Vec<IndexPoint>)
    ensures { found.new.items ≡ dedup (eq_by_cmp (index_cmp (design_view design.now))) found.old.items }
{
    found.dedup_by(|a, b| compare_indexes(design, a, b).is_eq());
}
