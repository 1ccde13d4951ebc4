ghost use Rattle.std.specs.Prelude.{◌≡◌, ◌++◌, ◌∷◌, length, map, count_by, OnOk};
ghost use Rattle.std.specs.List.Sorted.{IsSorted};
ghost use Rattle.coverage_db.specs.Text.{text_of_lines, ended};
ghost use Rattle.cov_report.specs.Order.{place_cmp};
ghost use Rattle.lcov_text.specs.Tracefile.{record_lines, branch_part, line_part, line_line, hit_count};
ghost use Rattle.lcov_text.specs.Views.{trace_view, is_among};

use crate::branch_line::push_branches;
use crate::line::{push_count, push_number, push_word};
use crate::traced::Traced;
use cov_host::{Name, NoMemory, Text};
use coverage_db::SourceLine;

/// Appends the record of a source with these lines and branches.
pub(crate) fn push_record(
    text: &mut Text,
    name: &Name,
    hit_lines: &[SourceLine],
    lines: &[Traced<'_>],
    branches: &[Traced<'_>],
) -> Result<(), NoMemory>
    requires { IsSorted place_cmp hit_lines.now }
    ensures { OnOk result (text.new ≡ text.old ++ text_of_lines (record_lines (is_among hit_lines.now) name.now (map trace_view lines.now) (map trace_view branches.now))) }
{
    push_word(text, b"SF:", name.as_slice())?;
    push_branch_part(text, hit_lines, branches)?;
    push_line_part(text, lines)?;
    text.extend_from_slice(b"end_of_record\n")
}

/// Appends the branches and how many there are.
fn push_branch_part(
    text: &mut Text,
    hit_lines: &[SourceLine],
    branches: &[Traced<'_>],
) -> Result<(), NoMemory>
    requires { IsSorted place_cmp hit_lines.now }
    ensures { OnOk result (text.new ≡ text.old ++ text_of_lines (branch_part (is_among hit_lines.now) (map trace_view branches.now))) }
{
    push_branches(text, hit_lines, branches)?;
    push_count(text, b"BRF:", branches.len())?;
    push_count(text, b"BRH:", hit_count(branches))
}

/// Appends the lines and how many there are.
fn push_line_part(text: &mut Text, lines: &[Traced<'_>]) -> Result<(), NoMemory>
    ensures { OnOk result (text.new ≡ text.old ++ text_of_lines (line_part (map trace_view lines.now))) }
{
    push_lines(text, lines)?;
    push_count(text, b"LF:", lines.len())?;
    push_count(text, b"LH:", hit_count(lines))
}

/// Appends the lines on which statements begin.
fn push_lines(text: &mut Text, lines: &[Traced<'_>]) -> Result<(), NoMemory>
    ensures { OnOk result (text.new ≡ text.old ++ text_of_lines (map (λ line. line_line (trace_view line)) lines.now)) }
{
    for line in lines {
        push_line(text, line)?;
    }
    Ok(())
}

/// Appends the line of a line on which a statement begins.
fn push_line(text: &mut Text, line: &Traced<'_>) -> Result<(), NoMemory>
    ensures { OnOk result (text.new ≡ text.old ++ ended (line_line (trace_view line.now))) }
{
    text.extend_from_slice(b"DA:")?;
    push_number(text, line.at.line)?;
    text.extend_from_slice(if line.is_hit { b",1\n" } else { b",0\n" })
}

/// How many of the points are hit.
fn hit_count(points: &[Traced<'_>]) -> usize
    ensures { result ≡ hit_count (map trace_view points.now) }
{
    points.iter().filter(|point| point.is_hit).count()
}
