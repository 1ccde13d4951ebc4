//! The visits of points.
use cover_marks::Marks;
use cover_points::{Points, Visit};

/// The sum of the numbers of the points, each found by its visit.
pub(crate) fn sum_of_numbers(marks: &Marks, points: &Points) -> u64 {
    let mut sum: u64 = 0;
    for point in points.lines.as_slice() {
        sum = sum.wrapping_add(number(
            marks,
            &Visit::Line {
                process: point.process,
                line: point.line,
            },
        ));
    }
    sum.wrapping_add(node_numbers(marks, points))
        .wrapping_add(toggle_numbers(marks, points))
        .wrapping_add(word_numbers(marks, points))
}

fn number(marks: &Marks, visit: &Visit) -> u64 {
    u64::from(marks.point(visit))
}

fn node_numbers(marks: &Marks, points: &Points) -> u64 {
    let mut sum: u64 = 0;
    for point in points.nodes.as_slice() {
        let visit = Visit::Node {
            process: point.process,
            node: point.node,
            case: point.case,
        };
        sum = sum.wrapping_add(number(marks, &visit));
    }
    sum
}

fn toggle_numbers(marks: &Marks, points: &Points) -> u64 {
    let mut sum: u64 = 0;
    for point in points.toggles.as_slice() {
        let visit = Visit::Toggle {
            signal: point.thing,
            index: point.index,
            rise: !point.second,
        };
        sum = sum.wrapping_add(number(marks, &visit));
    }
    sum
}

fn word_numbers(marks: &Marks, points: &Points) -> u64 {
    let mut sum: u64 = 0;
    for point in points.words.as_slice() {
        sum = sum.wrapping_add(number(marks, &word_visit(point.thing, point.index, point.second)));
    }
    sum
}

fn word_visit(memory: u32, index: u32, write: bool) -> Visit {
    if write {
        Visit::Write { memory, index }
    } else {
        Visit::Read { memory, index }
    }
}
