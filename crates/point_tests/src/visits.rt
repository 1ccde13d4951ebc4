//! The visits of points, in the order of the points.
use cov_host::NoMemory;
use cover_points::{IndexPoint, Points, Visit};
use std::alloc::Global;

/// The visit of each point that is no state and no arc, up to the first of those, and from the last of them on.
pub(crate) fn visits_of(
    alloc: Global,
    points: &Points,
) -> Result<(Vec<Visit>, Vec<Visit>), NoMemory> {
    let mut visits = Vec::new(alloc);
    for point in points.lines.as_slice() {
        visits.push(Visit::Line {
            process: point.process,
            line: point.line,
        })?;
    }
    for point in points.nodes.as_slice() {
        visits.push(Visit::Node {
            process: point.process,
            node: point.node,
            case: point.case,
        })?;
    }
    add_toggles(points.toggles.as_slice(), &mut visits)?;
    let mut words = Vec::new(alloc);
    add_words(points.words.as_slice(), &mut words)?;
    Ok((visits, words))
}

fn add_toggles(points: &[IndexPoint], visits: &mut Vec<Visit>) -> Result<(), NoMemory> {
    for point in points {
        visits.push(Visit::Toggle {
            signal: point.thing,
            index: point.index,
            rise: !point.second,
        })?;
    }
    Ok(())
}

fn add_words(points: &[IndexPoint], visits: &mut Vec<Visit>) -> Result<(), NoMemory> {
    for point in points {
        visits.push(word_visit(point.thing, point.index, point.second))?;
    }
    Ok(())
}

fn word_visit(memory: u32, index: u32, write: bool) -> Visit {
    if write {
        Visit::Write { memory, index }
    } else {
        Visit::Read { memory, index }
    }
}
