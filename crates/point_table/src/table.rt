ghost use Rattle.std.specs.Prelude.{◌≡◌, ◌≤◌, List, All, IfOk, OnOk, length};
ghost use Rattle.cover_marks.specs.Marks.{AreMarksOf};
ghost use Rattle.cover_points.specs.Listed.{points_of};
ghost use Rattle.design_model.specs.View.{design_view};
ghost use Rattle.point_marks.specs.Marking.{IsMarked, Marking};
ghost use Rattle.point_table.specs.Addresses.{missed_points};
ghost use Rattle.point_table.specs.Collected.{AreListed, IsCollected};
ghost use Rattle.point_table.specs.Verdicts.{AreShown, HaveVerdicts, IsOfDesign};

use crate::addresses::{push_lines, push_machine_points, push_nodes, push_toggles, push_words};
use crate::rows::{name_of, path_order, places_of, rows_of};
use crate::verdicts::with_verdicts;
use cov_host::{Name, NoMemory, Sequence};
use cover_marks::Marks;
use cover_points::{MOST_POINTS, Points};
use coverage_db::{Db, DbPoint, Window};
use design_model::Design;
use std::alloc::Global;

/// The table of a design from these sources, under dumps with these windows: each point with the verdict of its marks.
pub fn collect(
    alloc: Global,
    design: &Design,
    points: &Points,
    marks: &Marks,
    windows: Sequence<Window>,
    sources: Sequence<Name>,
) -> Result<Db, NoMemory>
    requires listed { AreListed (design_view design.now) points.now }
    requires few { length (points_of points.now) ≤ MOST_POINTS }
    requires marks { AreMarksOf points.now marks.now }
    requires things { All (IsOfDesign (design_view design.now)) marks.now.verdicts }
    ensures table { IfOk result (IsCollected (design_view design.now) sources points.now) }
    ensures windows { IfOk result (λ db. db.windows ≡ windows) }
    ensures verdicts { IfOk result (λ db. AreShown (design_view design.now) marks.now.verdicts db.points) }
    ensures markings { (markings : List Marking) → IsMarked markings marks.now.verdicts → IfOk result (λ db. HaveVerdicts (design_view design.now) markings db.points) }
{
    let instances = design.instances.as_slice();
    let order = path_order(alloc, instances)?;
    let places = places_of(alloc, order.as_slice())?;
    let missed = missed_points(alloc, design, places.as_slice(), points)?;
    let rows = with_verdicts(alloc, design, marks, missed)?;
    Ok(Db {
        top: name_of(alloc, design.top.as_slice())?,
        sources,
        instances: rows_of(alloc, instances, order.as_slice())?,
        points: Sequence::from_vec(rows),
        windows,
    })
}

/// The points in a table with these places of instances, as if none were hit.
fn missed_points(
    alloc: Global,
    design: &Design,
    places: &[u32],
    points: &Points,
) -> Result<Vec<DbPoint>, NoMemory>
    requires { AreListed (design_view design.now) points.now }
    ensures { IfOk result (λ rows. rows.items ≡ missed_points (design_view design.now) places.now points.now) }
{
    let mut rows = Vec::new(alloc);
    push_lines(places, points.lines.as_slice(), &mut rows)?;
    push_nodes(places, points.nodes.as_slice(), &mut rows)?;
    push_toggles(alloc, design, places, points.toggles.as_slice(), &mut rows)?;
    push_machine_points(
        alloc,
        points.machines.as_slice(),
        places,
        points.states.as_slice(),
        &mut rows,
    )?;
    push_words(alloc, design, places, points.words.as_slice(), &mut rows)?;
    Ok(rows)
}
