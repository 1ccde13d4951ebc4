ghost use Rattle.std.specs.Prelude.{◌≡◌, ◌<◌, ◌+◌, ◌≤◌, ◌++◌, ◌∷◌, None, map, option_map, OnOk};
ghost use Rattle.std.specs.List.Sorted.{IsSorted};
ghost use Rattle.coverage_db.specs.Text.{text_of_lines, ended};
ghost use Rattle.cov_report.specs.Order.{place_cmp};
ghost use Rattle.lcov_text.specs.Tracefile.{branch_lines, branch_line, next_block, taken_text};
ghost use Rattle.lcov_text.specs.Views.{trace_view, trace_behind, is_among};

use crate::hit_lines::is_among;
use crate::line::{push_next_number, push_number};
use crate::traced::Traced;
use cov_host::{NoMemory, Text};
use coverage_db::SourceLine;

/// Appends the lines of the branches of a source, in order.
pub(crate) fn push_branches(
    text: &mut Text,
    hit_lines: &[SourceLine],
    branches: &[Traced<'_>],
) -> Result<(), NoMemory>
    requires { IsSorted place_cmp hit_lines.now }
    ensures { OnOk result (text.new ≡ text.old ++ text_of_lines (branch_lines (is_among hit_lines.now) None 0 (map trace_view branches.now))) }
{
    let mut last = None;
    let mut block = 0;
    for branch in branches {
        block = next_block(last, block, branch);
        push_branch(text, hit_lines, block, branch)?;
        last = Some(branch);
    }
    Ok(())
}

/// The block of a branch, after the branch before it and its block.
fn next_block(last: Option<&Traced<'_>>, block: usize, branch: &Traced<'_>) -> usize
    requires { block < usize.MAX }
    ensures block { result ≡ next_block (option_map trace_behind last.entry) block (trace_view branch.now) }
    ensures next { result ≤ block + 1 }
{
    match last {
        None => 0,
        Some(last) => {
            if last.at != branch.at {
                return 0;
            }
            if last.is_same_node(branch) {
                block
            } else {
                block + 1
            }
        }
    }
}

/// Appends the line of a branch in a block.
fn push_branch(
    text: &mut Text,
    hit_lines: &[SourceLine],
    block: usize,
    branch: &Traced<'_>,
) -> Result<(), NoMemory>
    requires { IsSorted place_cmp hit_lines.now }
    ensures { OnOk result (text.new ≡ text.old ++ ended (branch_line (is_among hit_lines.now) block (trace_view branch.now))) }
{
    text.extend_from_slice(b"BRDA:")?;
    push_number(text, branch.at.line)?;
    push_next_number(text, block)?;
    push_next_number(text, branch.branch_number())?;
    text.push(b',')?;
    text.extend_from_slice(taken(hit_lines, branch))?;
    text.push(b'\n')
}

/// Whether a branch was taken: `1`, `0`, or `-` where nothing at its line was executed.
fn taken(hit_lines: &[SourceLine], branch: &Traced<'_>) -> &'static [u8]
    requires { IsSorted place_cmp hit_lines.now }
    ensures { result.now ≡ taken_text (is_among hit_lines.now) (trace_view branch.now) }
{
    if branch.is_hit {
        b"1"
    } else if is_among(hit_lines, branch.at) {
        b"0"
    } else {
        b"-"
    }
}
