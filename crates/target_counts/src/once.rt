//! What a process names at most once on each path.

ghost use Rattle.std.specs.Prelude.{◌≡◌, ◌<◌, ◌++◌, OnOk, filter, length, nat_le};
ghost use Rattle.std.specs.List.{All};
ghost use Rattle.design_model.specs.Design.{body};
ghost use Rattle.design_model.specs.Once.{names_once};
ghost use Rattle.design_model.specs.View.{process_view};
ghost use Rattle.target_counts.specs.Counts.{IsClear, count_at};

use crate::TargetCounts;
use crate::walk::count_process;
use cov_host::NoMemory;
use design_model::Process;

/// Adds those of some signals and memories that at most one target names on each path through the process.
pub fn push_once(
    counts: &mut TargetCounts,
    process: &Process,
    things: &[u32],
    found: &mut Vec<u32>,
) -> Result<(), NoMemory>
    requires clear { IsClear counts.old }
    requires within { All (λ thing. thing < length counts.old.counts.items) things.now }
    ensures found { OnOk result (found.new.items ≡ found.old.items ++ filter (names_once (body (process_view process.now))) things.now) }
    ensures clear { OnOk result (IsClear counts.new) }
    ensures size { OnOk result (length counts.new.counts.items ≡ length counts.old.counts.items) }
{
    count_process(counts, process)?;
    push_counted(counts, things, found)?;
    counts.clear();
    Ok(())
}

/// Adds those that are named at most once.
fn push_counted(counts: &TargetCounts, things: &[u32], found: &mut Vec<u32>) -> Result<(), NoMemory>
    requires { All (λ thing. thing < length counts.now.counts.items) things.now }
    ensures { OnOk result (found.new.items ≡ found.old.items ++ filter (λ thing. nat_le (count_at counts.now thing) 1) things.now) }
{
    for thing in things {
        if counts.count(*thing as usize) <= 1 {
            found.push(*thing)?;
        }
    }
    Ok(())
}
