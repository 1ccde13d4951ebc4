ghost use Rattle.std.specs.Prelude.{◌≡◌, ◌<◌, All, IfOk};
ghost use Rattle.test_ranking.specs.Ranking.{AreMarked, skipped_of};

use crate::Use;
use cov_host::{NoMemory, Sequence};
use std::alloc::Global;

/// The places of the tables that are not used, of `count` tables, in their order.
pub(crate) fn skipped_tables(
    alloc: Global,
    count: usize,
    used: &[Use],
) -> Result<Sequence<usize>, NoMemory>
    requires { All (λ use_at. use_at.table < count) used.now }
    ensures { IfOk result (λ skipped. skipped ≡ skipped_of count used.now) }
{
    let marks = mark_used(alloc, count, used)?;
    let mut skipped = Sequence::new(alloc);
    for (place, is_used) in marks.iter().enumerate() {
        if !*is_used {
            skipped.push(place)?;
        }
    }
    Ok(skipped)
}

/// A mark for each of `count` tables, set where it is used.
fn mark_used(alloc: Global, count: usize, used: &[Use]) -> Result<Vec<bool>, NoMemory>
    requires { All (λ use_at. use_at.table < count) used.now }
    ensures { IfOk result (λ marks. AreMarked count used.now marks.items) }
{
    let mut marks = vec![in alloc; false; count]?;
    for used in used {
        marks[used.table] = true;
    }
    Ok(marks)
}
