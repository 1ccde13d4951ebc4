//! The tables of the points of each kind.

ghost use Rattle.std.specs.Prelude.{◌≡◌, ◌≤◌, IfOk, length};
ghost use Rattle.cover_points.specs.Listed.{points_of};
ghost use Rattle.cover_points.specs.Visits.{AreApart, AreOnce, ArePlaced};
ghost use Rattle.cover_marks.specs.Index.{FindsLines, FindsNodes, FindsStates, FindsToggles, FindsWords};
ghost use Rattle.cover_marks.specs.Slots.{state_counts};

use crate::slots::{index_slots, line_slots, machine_slots, node_slots};
use cov_host::NoMemory;
use cover_points::{MOST_POINTS, Points};
use number_tables::NumberTable;
use std::alloc::Global;

/// The numbers of the statements.
pub(crate) fn line_table(alloc: Global, points: &Points) -> Result<NumberTable, NoMemory>
    requires apart { AreApart points.now }
    requires few { length (points_of points.now) ≤ MOST_POINTS }
    ensures { IfOk result (FindsLines points.now) }
{
    let slots = line_slots(alloc, points.lines.as_slice())?;
    NumberTable::new(alloc, slots.as_slice(), 0)
}

/// The numbers of the cases of nodes.
pub(crate) fn node_table(alloc: Global, points: &Points) -> Result<NumberTable, NoMemory>
    requires apart { AreApart points.now }
    requires few { length (points_of points.now) ≤ MOST_POINTS }
    ensures { IfOk result (FindsNodes points.now) }
{
    let first = points.lines.len();
    let slots = node_slots(alloc, points.nodes.as_slice())?;
    NumberTable::new(alloc, slots.as_slice(), first as u32)
}

/// The numbers of the toggles of bits.
pub(crate) fn toggle_table(alloc: Global, points: &Points) -> Result<NumberTable, NoMemory>
    requires apart { AreApart points.now }
    requires few { length (points_of points.now) ≤ MOST_POINTS }
    ensures { IfOk result (FindsToggles points.now) }
{
    let first = points.lines.len() + points.nodes.len();
    let slots = index_slots(alloc, points.toggles.as_slice())?;
    NumberTable::new(alloc, slots.as_slice(), first as u32)
}

/// The numbers of the states and arcs of machines with these counts of states.
pub(crate) fn state_table(
    alloc: Global,
    points: &Points,
    counts: &[u32],
) -> Result<NumberTable, NoMemory>
    requires once { AreOnce points.now }
    requires placed { ArePlaced points.now }
    requires few { length (points_of points.now) ≤ MOST_POINTS }
    requires counts { counts.now ≡ state_counts points.now.machines.items }
    ensures { IfOk result (FindsStates points.now counts.now) }
{
    let first = points.lines.len() + points.nodes.len() + points.toggles.len();
    let slots = machine_slots(alloc, counts, points.states.as_slice())?;
    NumberTable::new(alloc, slots.as_slice(), first as u32)
}

/// The numbers of the reads and writes of words.
pub(crate) fn word_table(alloc: Global, points: &Points) -> Result<NumberTable, NoMemory>
    requires apart { AreApart points.now }
    requires few { length (points_of points.now) ≤ MOST_POINTS }
    ensures { IfOk result (FindsWords points.now) }
{
    let first = points.lines.len()
        + points.nodes.len()
        + points.toggles.len()
        + points.states.len();
    let slots = index_slots(alloc, points.words.as_slice())?;
    NumberTable::new(alloc, slots.as_slice(), first as u32)
}
