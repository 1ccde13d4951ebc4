//! The processes of line and node points.

ghost use Rattle.std.specs.Prelude.{◌≡◌, ◌≤◌, ◌++◌, IfOk, OnOk, length};
ghost use Rattle.cover_points.specs.Listed.{points_of};
ghost use Rattle.cover_marks.specs.Owners.{line_owners, node_owners, owners_of};

use cov_host::NoMemory;
use cover_points::{LinePoint, MOST_POINTS, NodePoint, Points};
use std::alloc::Global;

/// The process of each line and node point, by the number of the point.
pub(crate) fn owners(alloc: Global, points: &Points) -> Result<Vec<u32>, NoMemory>
    requires { length (points_of points.now) ≤ MOST_POINTS }
    ensures { IfOk result (λ owners. owners.items ≡ owners_of points.now) }
{
    let mut owners = Vec::with_capacity(alloc, points.lines.len() + points.nodes.len())?;
    add_lines(&mut owners, points.lines.as_slice())?;
    add_nodes(&mut owners, points.nodes.as_slice())?;
    Ok(owners)
}

/// Adds the processes of line points.
fn add_lines(owners: &mut Vec<u32>, points: &[LinePoint]) -> Result<(), NoMemory>
    ensures { OnOk result (owners.new.items ≡ owners.old.items ++ line_owners points.now) }
{
    for point in points {
        owners.push(point.process)?;
    }
    Ok(())
}

/// Adds the processes of node points.
fn add_nodes(owners: &mut Vec<u32>, points: &[NodePoint]) -> Result<(), NoMemory>
    ensures { OnOk result (owners.new.items ≡ owners.old.items ++ node_owners points.now) }
{
    for point in points {
        owners.push(point.process)?;
    }
    Ok(())
}
