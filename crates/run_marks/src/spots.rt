//! The point of a spot of a body.

ghost use Rattle.std.specs.Prelude.{◌≡◌, ◌≢◌, ◌↔◌, ◌<◌, ◌+◌, ℕ, None, Some, IsTrue, length};
ghost use Rattle.term_replay.specs.Noted.{spot_of};
ghost use Rattle.cover_points.specs.Listed.{points_of};
ghost use Rattle.cover_points.specs.Visits.{IsVisitOf};
ghost use Rattle.cover_points.specs.declared.listing.Points.{Points as ThePoints};
ghost use Rattle.cover_points.specs.declared.visit.Visit.TheVariants.{Line, Node};
ghost use Rattle.cover_marks.specs.Marks.{AreMarksOf};
ghost use Rattle.mark_laws.specs.Marked.{verdict_at};
ghost use Rattle.mark_laws.specs.Numbered.{visit_at};
ghost use Rattle.point_marks.specs.declared.verdict.Verdict.TheVariants.{Hit};
ghost use Rattle.run_marks.specs.Reported.{word_visit};

use cover_marks::{Marks, Verdict};
use cover_points::{IndexPoint, Points, Visit};
use design_model::NodeCase;
use term_replay::Spot;
use text_points::{LinePoint, NodePoint};

/// Whether a note of the spot changes no mark, since all line and node points of the process are hit. It takes constant time and
/// no memory.
pub(crate) fn is_settled(marks: &Marks, process: u32, spot: Spot) -> bool
    ensures { IsTrue result → (points : ThePoints) (k : ℕ) → AreMarksOf points marks.now → IsVisitOf points k (visit_at process (spot_of spot)) → verdict_at marks.now.verdicts k ≡ Hit }
{
    match spot {
        Spot::Line(_) => marks.is_settled(process),
        Spot::Node { .. } => marks.is_settled(process),
        Spot::WordRead { .. } | Spot::WordWrite { .. } => false,
    }
}

/// The number of the point of a spot of a process, if there is one that is not hit yet. The record of the point with the number is
/// read only where it is not hit. It takes constant time and no memory.
#[tactic(auto, using(crate::proofs::Reports::found_at))]
pub(crate) fn find_open(points: &Points, marks: &Marks, process: u32, spot: Spot) -> Option<u32>
    requires { length marks.now.verdicts ≡ length (points_of points.now) }
    ensures found { (k : ℕ) → result ≡ Some k → IsVisitOf points.now k (visit_at process (spot_of spot)) }
    ensures open { (k : ℕ) → result ≡ Some k → verdict_at marks.now.verdicts k ≢ Hit }
    ensures none { result ≡ None → AreMarksOf points.now marks.now → (k : ℕ) → IsVisitOf points.now k (visit_at process (spot_of spot)) → verdict_at marks.now.verdicts k ≡ Hit }
{
    let number = number_of(marks, process, spot);
    if is_hit(points, marks, number) {
        None
    } else if is_point(points, number, process, spot) {
        Some(number)
    } else {
        None
    }
}

/// Whether there is a point with this number, and it is hit.
fn is_hit(points: &Points, marks: &Marks, number: u32) -> bool
    requires { length marks.now.verdicts ≡ length (points_of points.now) }
    ensures { IsTrue result ↔ (verdict_at marks.now.verdicts number ≡ Hit) }
{
    is_listed(points, number) && is_of_hit(marks.verdict(number))
}

/// Whether a verdict is that of a point which is hit.
fn is_of_hit(verdict: Verdict) -> bool
    ensures { IsTrue result ↔ (verdict ≡ Hit) }
{
    match verdict {
        Verdict::Hit => true,
        Verdict::Missed | Verdict::Undetermined(_) => false,
    }
}

/// Whether there is a point with this number.
fn is_listed(points: &Points, number: u32) -> bool
    ensures { IsTrue result ↔ (number < length (points_of points.now)) }
{
    let count = points
        .lines
        .len()
        .saturating_add(points.nodes.len())
        .saturating_add(points.toggles.len())
        .saturating_add(points.states.len())
        .saturating_add(points.words.len());
    (number as usize) < count
}

/// The number of the point of a spot of a process, and some number where there is no such point.
fn number_of(marks: &Marks, process: u32, spot: Spot) -> u32
    ensures { (points : ThePoints) (k : ℕ) → AreMarksOf points marks.now → IsVisitOf points k (visit_at process (spot_of spot)) → result ≡ k }
{
    let visit = visit(process, spot);
    marks.point(&visit)
}

/// The visit of a spot of a process.
fn visit(process: u32, spot: Spot) -> Visit
    ensures { result ≡ visit_at process (spot_of spot) }
{
    match spot {
        Spot::Line(line) => Visit::Line { process, line },
        Spot::Node { node, case } => Visit::Node {
            process,
            node,
            case,
        },
        Spot::WordRead { memory, index } => Visit::Read { memory, index },
        Spot::WordWrite { memory, index } => Visit::Write { memory, index },
    }
}

/// Whether the point with this number is that of the spot.
fn is_point(points: &Points, number: u32, process: u32, spot: Spot) -> bool
    ensures { IsTrue result ↔ IsVisitOf points.now number (visit_at process (spot_of spot)) }
{
    match spot {
        Spot::Line(line) => is_line(points, number, process, line),
        Spot::Node { node, case } => is_node(points, number, process, node, case),
        Spot::WordRead { memory, index } => is_word(points, number, memory, index, false),
        Spot::WordWrite { memory, index } => is_word(points, number, memory, index, true),
    }
}

/// Whether it is that of a statement.
fn is_line(points: &Points, number: u32, process: u32, line: u32) -> bool
    ensures { IsTrue result ↔ IsVisitOf points.now number (Line process line) }
{
    match points.lines.as_slice().get(number as usize) {
        Some(point) => is_statement(point, process, line),
        None => false,
    }
}

/// Whether a point of a line is that of the statement.
fn is_statement(point: &LinePoint, process: u32, line: u32) -> bool
    ensures { IsTrue result ↔ ((point.now.process ≡ process) × (point.now.line ≡ line)) }
{
    point.process == process && point.line == line
}

/// Whether it is that of a case of a node.
fn is_node(points: &Points, number: u32, process: u32, node: u32, case: NodeCase) -> bool
    ensures { IsTrue result ↔ IsVisitOf points.now number (Node process node case) }
{
    match node_place(points, number) {
        Some(place) => is_node_at(points, place, process, node, case),
        None => false,
    }
}

/// Whether the point at a place in the points of nodes is that of the case of the node.
fn is_node_at(points: &Points, place: usize, process: u32, node: u32, case: NodeCase) -> bool
    ensures { (k : ℕ) → k ≡ length points.now.lines.items + place → (IsTrue result ↔ IsVisitOf points.now k (Node process node case)) }
{
    match points.nodes.as_slice().get(place) {
        Some(point) => is_case(point, process, node, case),
        None => false,
    }
}

/// Whether a point of a node is that of the case.
fn is_case(point: &NodePoint, process: u32, node: u32, case: NodeCase) -> bool
    ensures { IsTrue result ↔ (((point.now.process ≡ process) × (point.now.node ≡ node)) × (point.now.case ≡ case)) }
{
    is_of_node(point, process, node) && point.case == case
}

/// Whether a point of a node is one of this node.
fn is_of_node(point: &NodePoint, process: u32, node: u32) -> bool
    ensures { IsTrue result ↔ ((point.now.process ≡ process) × (point.now.node ≡ node)) }
{
    point.process == process && point.node == node
}

/// Whether it is that of a word which is read, or written.
fn is_word(points: &Points, number: u32, memory: u32, index: u32, written: bool) -> bool
    ensures { IsTrue result ↔ IsVisitOf points.now number (word_visit memory index written) }
{
    match word_place(points, number) {
        Some(place) => is_word_at(points, place, memory, index, written),
        None => false,
    }
}

/// Whether the point at a place in the points of words is that of the use of the word.
fn is_word_at(points: &Points, place: usize, memory: u32, index: u32, written: bool) -> bool
    ensures { (k : ℕ) → k ≡ length points.now.lines.items + length points.now.nodes.items + length points.now.toggles.items + length points.now.states.items + place
        → (IsTrue result ↔ IsVisitOf points.now k (word_visit memory index written)) }
{
    match points.words.as_slice().get(place) {
        Some(point) => is_use(point, memory, index, written),
        None => false,
    }
}

/// Whether a point of a word is that of its reads, or of its writes.
#[tactic(auto, using(crate::proofs::Found::same_flags))]
fn is_use(point: &IndexPoint, memory: u32, index: u32, written: bool) -> bool
    ensures { IsTrue result ↔ (((point.now.thing ≡ memory) × (point.now.index ≡ index)) × (point.now.second ≡ written)) }
{
    is_of_word(point, memory, index) && point.second == written
}

/// Whether a point of a word is one of this word.
fn is_of_word(point: &IndexPoint, memory: u32, index: u32) -> bool
    ensures { IsTrue result ↔ ((point.now.thing ≡ memory) × (point.now.index ≡ index)) }
{
    point.thing == memory && point.index == index
}

/// The place in the points of nodes of the point with this number, which may be past them. None before them.
fn node_place(points: &Points, number: u32) -> Option<usize>
    ensures { (j : ℕ) → (result ≡ Some j) ↔ (number ≡ length points.now.lines.items + j) }
{
    (number as usize).checked_sub(points.lines.len())
}

/// The place in the points of words of the point with this number, which may be past them. None before them.
fn word_place(points: &Points, number: u32) -> Option<usize>
    ensures { (j : ℕ) → (result ≡ Some j) ↔ (number ≡ length points.now.lines.items + length points.now.nodes.items + length points.now.toggles.items + length points.now.states.items + j) }
{
    (number as usize)
        .checked_sub(points.lines.len())?
        .checked_sub(points.nodes.len())?
        .checked_sub(points.toggles.len())?
        .checked_sub(points.states.len())
}
