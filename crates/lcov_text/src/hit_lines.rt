ghost use Rattle.std.specs.Prelude.{◌≡◌, map, IfOk};
ghost use Rattle.std.specs.List.Sorted.{IsSorted};
ghost use Rattle.coverage_db.specs.declared.address.SourceLine.{SourceLine as SpecSourceLine};
ghost use Rattle.cov_report.specs.Order.{place_cmp};
ghost use Rattle.lcov_text.specs.Points.{is_reached};
ghost use Rattle.lcov_text.specs.Views.{trace_view, is_among};

use crate::traced::Traced;
use cov_host::NoMemory;
use coverage_db::SourceLine;
use std::alloc::Global;
use std::cmp::Ordering;

/// The lines at which a point is hit, in order. A line may be there more than once.
pub(crate) fn hit_lines(alloc: Global, points: &[Traced<'_>]) -> Result<Vec<SourceLine>, NoMemory>
    ensures lines { IfOk result (λ lines. (at : SpecSourceLine) → is_among lines.items at ≡ is_reached (map trace_view points.now) at) }
    ensures sorted { IfOk result (λ lines. IsSorted place_cmp lines.items) }
{
    let mut lines = lines_of_hits(alloc, points)?;
    lines.sort_by(|left, right| compare_lines(*left, *right))?;
    Ok(lines)
}

/// The lines at which a point is hit, in the order of the points.
fn lines_of_hits(alloc: Global, points: &[Traced<'_>]) -> Result<Vec<SourceLine>, NoMemory>
    ensures { IfOk result (λ lines. (at : SpecSourceLine) → is_among lines.items at ≡ is_reached (map trace_view points.now) at) }
{
    let mut lines = Vec::new(alloc);
    for point in points {
        if point.is_hit {
            lines.push(point.at)?;
        }
    }
    Ok(lines)
}

/// Whether the line is one of these.
pub(crate) fn is_among(lines: &[SourceLine], at: SourceLine) -> bool
    requires { IsSorted place_cmp lines.now }
    ensures { result ≡ is_among lines.now at }
{
    lines
        .binary_search_by(|line| compare_lines(*line, at))
        .is_ok()
}

/// By source, and then by line.
fn compare_lines(left: SourceLine, right: SourceLine) -> Ordering
    ensures { result ≡ place_cmp left right }
{
    left.source
        .cmp(&right.source)
        .then(left.line.cmp(&right.line))
}
