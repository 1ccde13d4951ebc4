ghost use Rattle.std.specs.Prelude.{◌≡◌, ◌≤◌, ℕ, IfOk, length};
ghost use Rattle.cover_points.specs.Listed.{points_of};
ghost use Rattle.cover_points.specs.Visits.{AreApart, AreOnce, ArePlaced, IsMachinePointAt, IsVisitOf};
ghost use Rattle.cover_points.specs.declared.listing.Points.{Points as ThePoints};
ghost use Rattle.cover_marks.specs.Index.{IsIndexOf};

use crate::slots::{index_slot, line_slot, machine_slot, node_slot, state_counts};
use crate::tables::{line_table, node_table, state_table, toggle_table, word_table};
use cov_host::NoMemory;
use cover_points::{MOST_POINTS, MachinePoint, Points, Visit};
use number_tables::NumberTable;
use std::alloc::Global;

/// The numbers of points by their visits.
#[derive(Drop)]
pub(crate) struct PointIndex {
    pub(crate) lines: NumberTable,
    pub(crate) nodes: NumberTable,
    pub(crate) toggles: NumberTable,
    /// How many states each machine has.
    pub(crate) counts: Vec<u32>,
    pub(crate) states: NumberTable,
    pub(crate) words: NumberTable,
}

impl PointIndex {
    /// The numbers of these points.
    pub(crate) fn new(alloc: Global, points: &Points) -> Result<Self, NoMemory>
        requires apart { AreApart points.now }
        requires once { AreOnce points.now }
        requires placed { ArePlaced points.now }
        requires few { length (points_of points.now) ≤ MOST_POINTS }
        ensures { IfOk result (IsIndexOf points.now) }
    {
        let lines = line_table(alloc, points)?;
        let nodes = node_table(alloc, points)?;
        let toggles = toggle_table(alloc, points)?;
        let counts = state_counts(alloc, points.machines.as_slice())?;
        let states = state_table(alloc, points, counts.as_slice())?;
        let words = word_table(alloc, points)?;
        Ok(PointIndex {
            lines,
            nodes,
            toggles,
            counts,
            states,
            words,
        })
    }

    /// The number of the point of a visit.
    pub(crate) fn number(&self, visit: Visit) -> u32
        ensures { (points : ThePoints) (k : ℕ) → IsIndexOf points self.now → IsVisitOf points k visit → result ≡ k }
    {
        match visit {
            Visit::Line { process, line } => self.lines.number(line_slot(process, line)),
            Visit::Node {
                process,
                node,
                case,
            } => self.nodes.number(node_slot(process, node, case)),
            Visit::Toggle {
                signal,
                index,
                rise,
            } => self.toggles.number(index_slot(signal, index, !rise)),
            Visit::Read { memory, index } => self.words.number(index_slot(memory, index, false)),
            Visit::Write { memory, index } => self.words.number(index_slot(memory, index, true)),
        }
    }
    /// The number of a state or an arc.
    pub(crate) fn machine_number(&self, point: MachinePoint) -> u32
        ensures { (points : ThePoints) (k : ℕ) → IsIndexOf points self.now → IsMachinePointAt points k point → result ≡ k }
    {
        self.states
            .number(machine_slot(self.counts.as_slice(), point))
    }
}
