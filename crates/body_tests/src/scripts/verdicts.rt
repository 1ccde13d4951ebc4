//! The verdicts of points after runs whose notes are marked, as texts.

ghost use Rattle.std.specs.Prelude.{◌≡◌, IfSome, length};
ghost use Rattle.cover_points.specs.Listed.{points_of};

use block_runs::Doubt;
use body_trials::{Mark, Outcome};
use cov_host::NoMemory;
use cover_marks::Verdict;
use cover_points::{Points, Visit};
use design_model::Design;
use run_marks::MarkNotes;
use std::alloc::Global;
use term_replay::Spot;

/// The points of lines, nodes and words that are not missed, in the order of the points, in the form of the notes of a run at
/// this time: each by its spot, with its first doubt where it is not hit.
pub(crate) fn shown(
    alloc: Global,
    design: &Design,
    notes: &MarkNotes,
    time: u64,
) -> Result<Vec<u8>, NoMemory> {
    let mut marks = Vec::new(alloc);
    add_lines(notes, &mut marks)?;
    add_nodes(notes, &mut marks)?;
    add_words(notes, &mut marks)?;
    let values = Vec::new(alloc);
    Outcome { values, marks }.notes(alloc, design, time)
}

fn add_lines(notes: &MarkNotes, marks: &mut Vec<Mark>) -> Result<(), NoMemory> {
    for point in notes.points.lines.as_slice() {
        let visit = Visit::Line {
            process: point.process,
            line: point.line,
        };
        add_mark(notes, &visit, Spot::Line(point.line), marks)?;
    }
    Ok(())
}

fn add_nodes(notes: &MarkNotes, marks: &mut Vec<Mark>) -> Result<(), NoMemory> {
    for point in notes.points.nodes.as_slice() {
        let visit = Visit::Node {
            process: point.process,
            node: point.node,
            case: point.case,
        };
        let spot = Spot::Node {
            node: point.node,
            case: point.case,
        };
        add_mark(notes, &visit, spot, marks)?;
    }
    Ok(())
}

fn add_words(notes: &MarkNotes, marks: &mut Vec<Mark>) -> Result<(), NoMemory> {
    for point in notes.points.words.as_slice() {
        let (visit, spot) = word_of(point.thing, point.index, point.second);
        add_mark(notes, &visit, spot, marks)?;
    }
    Ok(())
}

/// The visit and the spot of a word that is written, or read.
fn word_of(memory: u32, index: u32, is_written: bool) -> (Visit, Spot) {
    if is_written {
        (
            Visit::Write { memory, index },
            Spot::WordWrite { memory, index },
        )
    } else {
        (
            Visit::Read { memory, index },
            Spot::WordRead { memory, index },
        )
    }
}

/// Adds the spot of the point of a visit, unless the point is missed.
fn add_mark(
    notes: &MarkNotes,
    visit: &Visit,
    spot: Spot,
    marks: &mut Vec<Mark>,
) -> Result<(), NoMemory> {
    let doubt = match verdict_of(notes, visit) {
        None | Some(Verdict::Missed) => return Ok(()),
        Some(Verdict::Hit) => None,
        Some(Verdict::Undetermined(doubt)) => Some(Doubt {
            time: doubt.time,
            thing: doubt.thing,
        }),
    };
    marks.push(Mark { spot, doubt })?;
    Ok(())
}

/// The verdict of the point of a visit.
fn verdict_of(notes: &MarkNotes, visit: &Visit) -> Option<Verdict> {
    let number = notes.marks.point(visit);
    let count = count_of(notes.points)?;
    if (number as usize) < count {
        Some(notes.marks.verdict(number))
    } else {
        None
    }
}

/// How many points there are, if that is a number of a machine.
fn count_of(points: &Points) -> Option<usize>
    ensures { IfSome result (λ count. count ≡ length (points_of points.now)) }
{
    points
        .lines
        .len()
        .checked_add(points.nodes.len())?
        .checked_add(points.toggles.len())?
        .checked_add(points.states.len())?
        .checked_add(points.words.len())
}
