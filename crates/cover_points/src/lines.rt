//! The line points of a design.

ghost use Rattle.std.specs.Prelude.{◌≡◌, ◌↔◌, ℕ, [], IfOk, OnOk, map};
ghost use Rattle.std.specs.List.{dedup};
ghost use Rattle.std.specs.List.Sorted.{IsPermutation, IsSorted, IsStrictlySortedBy};
ghost use Rattle.std.specs.Ordering.{eq_by_cmp};
ghost use Rattle.cov_host.specs.declared.place.Place.{Place};
ghost use Rattle.design_model.specs.Design.{In};
ghost use Rattle.design_model.specs.Lawful.{IsLawfulDesign};
ghost use Rattle.design_model.specs.Points.{IsPoint};
ghost use Rattle.design_model.specs.declared.point.Point.TheVariants.{Line as line_point};
ghost use Rattle.design_model.specs.point_words.declared.line_word.LineWord.{LineWord};
ghost use Rattle.design_model.specs.View.{design_view, process_view};
ghost use Rattle.cover_points.specs.Order.{line_cmp};
ghost use Rattle.cover_points.specs.Texts.{IsOwner, each_from, line_view, owner, process_lines};
ghost use Rattle.text_points.specs.declared.points.LinePoint.{LinePoint as TheLinePoint};

use crate::compare::compare_lines;
use cov_host::NoMemory;
use design_model::{Design, Instance, Process};
use std::alloc::Global;
use text_points::{LinePoint, Owner, push_lines};

/// The line points of a design, each once, in their order.
pub fn line_points(alloc: Global, design: &Design) -> Result<Vec<LinePoint>, NoMemory>
    requires { IsLawfulDesign (design_view design.now) }
    ensures rise { IfOk result (λ points. IsStrictlySortedBy (line_cmp design.now.instances) points.items) }
    ensures owners { IfOk result (λ points. (x : TheLinePoint) → In x points.items → IsOwner (design_view design.now) x.process x.instance) }
    ensures members { IfOk result (λ points. (p n : ℕ) (at : Place) (w : LineWord) → In (line_point p n at w) (map line_view points.items) ↔ IsPoint (design_view design.now) [] (line_point p n at w)) }
{
    let instances = design.instances.as_slice();
    let mut found = found_lines(alloc, design.processes.as_slice())?;
    sort_lines(instances, &mut found)?;
    keep_first_lines(instances, &mut found);
    Ok(found)
}

/// The line points of processes, once for each time that the unrolled text has them.
fn found_lines(alloc: Global, processes: &[Process]) -> Result<Vec<LinePoint>, NoMemory>
    ensures { IfOk result (λ found. found.items ≡ each_from process_lines 0 (map process_view processes.now)) }
{
    let mut found = Vec::new(alloc);
    for (number, process) in processes.iter().enumerate() {
        push_lines(owner_of(number, process)?, process, &mut found)?;
    }
    Ok(found)
}

/// The process as the owner of points. A number past 32 bits is want of memory.
pub(crate) fn owner_of(number: usize, process: &Process) -> Result<Owner, NoMemory>
    ensures { IfOk result (λ o. o ≡ owner number (process_view process.now)) }
{
    let (Process::Assign { instance, .. }
    | Process::Comb { instance, .. }
    | Process::Clocked { instance, .. }) = process;
    match u32::try_from(number) {
        Ok(number) => Ok(Owner {
            instance: *instance,
            process: number,
        }),
        Err(_) => Err(NoMemory),
    }
}

/// Sorts line points.
fn sort_lines(instances: &[Instance], found: &mut Vec<LinePoint>) -> Result<(), NoMemory>
    ensures permutation { IsPermutation found.old.items found.new.items }
    ensures sorted { OnOk result (IsSorted (line_cmp instances.now) found.new.items) }
{
    found.sort_by(|a, b| compare_lines(instances, a, b))?;
    Ok(())
}

/// Drops each line point that is equal in the order to the one before it.
fn keep_first_lines(instances: &[Instance], found: &mut Vec<LinePoint>)
    ensures { found.new.items ≡ dedup (eq_by_cmp (line_cmp instances.now)) found.old.items }
{
    found.dedup_by(|a, b| compare_lines(instances, a, b).is_eq());
}
