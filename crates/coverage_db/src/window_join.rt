ghost use Rattle.std.specs.Prelude.{◌≡◌, [], ◌<◌, ◌^◌, length, IfOk, MatchOption};
ghost use Rattle.coverage_db.specs.Joining.{IsTaken};
ghost use Rattle.coverage_db.specs.Table.{Rises};
ghost use Rattle.coverage_db.specs.Windows.{joined_windows, window_cmp};

use crate::Window;
use cov_host::{NoMemory, Sequence};
use std::alloc::Global;
use std::cmp::Ordering;

/// The windows that either list has, each once, in rising order.
pub(crate) fn join_windows(
    alloc: Global,
    first: &[Window],
    second: &[Window],
) -> Result<Sequence<Window>, NoMemory>
    requires first { Rises window_cmp first.now }
    requires second { Rises window_cmp second.now }
    ensures joined { IfOk result (λ windows. windows ≡ joined_windows first.now second.now) }
    ensures few { IfOk result (λ windows. length windows < 2 ^ 64) }
{
    let mut joined = Sequence::new(alloc);
    let mut left = first;
    let mut right = second;
    while let Some((window, more, others)) = take_first(left, right) {
        joined.push(window)?;
        left = more;
        right = others;
    }
    let _count = joined.len();
    Ok(joined)
}

/// The first window of two lists, and what is left of each without it.
fn take_first<'a>(
    left: &'a [Window],
    right: &'a [Window],
) -> Option<(Window, &'a [Window], &'a [Window])>
    requires left { Rises window_cmp left.now }
    requires right { Rises window_cmp right.now }
    ensures { MatchOption result (joined_windows left.now right.now ≡ []) (λ taken. IsTaken left.now right.now taken.0 taken.1.now taken.2.now) }
{
    let Some((first, more)) = left.split_first() else {
        let (second, others) = right.split_first()?;
        return Some((*second, left, others));
    };
    let Some((second, others)) = right.split_first() else {
        return Some((*first, more, right));
    };
    match first.compare(second) {
        Ordering::Less => Some((*first, more, right)),
        Ordering::Equal => Some((*first, more, others)),
        Ordering::Greater => Some((*second, left, others)),
    }
}
