//! The cases of the counted nodes of a design.

ghost use Rattle.std.specs.Prelude.{◌≡◌, ◌↔◌, ℕ, List, [], IfOk, OnOk, map};
ghost use Rattle.std.specs.List.{dedup};
ghost use Rattle.std.specs.List.Sorted.{IsPermutation, IsSorted, IsStrictlySortedBy};
ghost use Rattle.std.specs.Ordering.{eq_by_cmp};
ghost use Rattle.cov_host.specs.declared.place.Place.{Place};
ghost use Rattle.design_model.specs.Design.{In};
ghost use Rattle.design_model.specs.Lawful.{IsLawfulDesign};
ghost use Rattle.design_model.specs.Points.{IsPoint};
ghost use Rattle.design_model.specs.declared.point.Point.TheVariants.{Logic as logic_point};
ghost use Rattle.design_model.specs.point_words.declared.node_case.NodeCase.{NodeCase};
ghost use Rattle.design_model.specs.View.{design_view, process_view};
ghost use Rattle.cover_points.specs.Order.{node_cmp};
ghost use Rattle.cover_points.specs.Texts.{IsOwner, each_from, node_view, process_nodes};
ghost use Rattle.text_points.specs.declared.points.NodePoint.{NodePoint as TheNodePoint};

use crate::compare::compare_nodes;
use crate::lines::owner_of;
use cov_host::NoMemory;
use design_model::{Design, Instance, Process};
use std::alloc::Global;
use text_points::{NodePoint, push_nodes};

/// The node cases of a design, each once, in their order.
pub fn node_points(alloc: Global, design: &Design) -> Result<Vec<NodePoint>, NoMemory>
    requires { IsLawfulDesign (design_view design.now) }
    ensures rise { IfOk result (λ points. IsStrictlySortedBy (node_cmp design.now.instances) points.items) }
    ensures owners { IfOk result (λ points. (x : TheNodePoint) → In x points.items → IsOwner (design_view design.now) x.process x.instance) }
    ensures members { IfOk result (λ points. (p n : ℕ) (at : Place) (op : List ℕ) (c : NodeCase) → In (logic_point p n at op c) (map node_view points.items) ↔ IsPoint (design_view design.now) [] (logic_point p n at op c)) }
{
    let instances = design.instances.as_slice();
    let mut found = found_nodes(alloc, design.processes.as_slice())?;
    sort_nodes(instances, &mut found)?;
    keep_first_nodes(instances, &mut found);
    Ok(found)
}

/// The node cases of processes, once for each time that the unrolled text has them.
fn found_nodes(alloc: Global, processes: &[Process]) -> Result<Vec<NodePoint>, NoMemory>
    ensures { IfOk result (λ found. found.items ≡ each_from process_nodes 0 (map process_view processes.now)) }
{
    let mut found = Vec::new(alloc);
    for (number, process) in processes.iter().enumerate() {
        push_nodes(owner_of(number, process)?, process, &mut found)?;
    }
    Ok(found)
}

/// Sorts node cases.
fn sort_nodes(instances: &[Instance], found: &mut Vec<NodePoint>) -> Result<(), NoMemory>
    ensures permutation { IsPermutation found.old.items found.new.items }
    ensures sorted { OnOk result (IsSorted (node_cmp instances.now) found.new.items) }
{
    found.sort_by(|a, b| compare_nodes(instances, a, b))?;
    Ok(())
}

/// Drops each node case that is equal in the order to the one before it.
fn keep_first_nodes(instances: &[Instance], found: &mut Vec<NodePoint>)
    ensures { found.new.items ≡ dedup (eq_by_cmp (node_cmp instances.now)) found.old.items }
{
    found.dedup_by(|a, b| compare_nodes(instances, a, b).is_eq());
}
