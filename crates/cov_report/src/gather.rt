ghost use Rattle.std.specs.Prelude.{◌≡◌, ◌≤◌, false, [], ◌∷◌, ◌++◌, length, IfOk};
ghost use Rattle.std.specs.declared.cmp.Ordering.{Ordering as SpecOrdering};
ghost use Rattle.std.specs.Cmp.{IsTotalOrder};
ghost use Rattle.std.specs.List.Sorted.{IsSorted};
ghost use Rattle.std.specs.Ordering.{is_gt};
ghost use Rattle.coverage_db.specs.Table.{Rises};
ghost use Rattle.cov_report.specs.Gathered.{placed, gathered};

use cov_host::NoMemory;
use std::alloc::Global;
use std::cmp::Ordering;

/// What has an order, and is joined with what is equal in that order.
pub(crate) trait Ranked: Copy + Drop {
    ghost cmp: { Self → Self → SpecOrdering };

    ghost join: { Self → Self → Self };

    /// The order of the two.
    fn compare(&self, other: &Self) -> Ordering
        ensures { result ≡ cmp self.now other.now };

    /// Both as one, which is equal to this one in the order.
    fn joined(&self, other: &Self) -> Self
        ensures { result ≡ join self.now other.now };

    ghost total: { IsTotalOrder cmp };

    ghost stays: { (a b c : Self) → cmp (join a b) c ≡ cmp a c };
}

/// All items in their order, those that are equal in it joined.
pub(crate) fn gather<T: Ranked>(alloc: Global, items: Vec<T>) -> Result<Vec<T>, NoMemory>
    ensures gathered { IfOk result (λ joined. joined.items ≡ gathered T.cmp T.join items.items) }
    ensures rising { IfOk result (λ joined. Rises T.cmp joined.items) }
    ensures short { IfOk result (λ joined. length joined.items ≤ length items.items) }
{
    let mut items = items;
    items.sort_by(|left, right| left.compare(right))?;
    join_neighbours(alloc, &items)
}

/// Sorted items, those that are equal in the order joined.
fn join_neighbours<T: Ranked>(alloc: Global, items: &[T]) -> Result<Vec<T>, NoMemory>
    requires { IsSorted T.cmp items.now }
    ensures { IfOk result (λ joined. joined.items ≡ gathered T.cmp T.join items.now) }
{
    let Some((first, others)) = items.split_first() else {
        return Ok(Vec::new(alloc));
    };
    let mut joined = Vec::with_capacity(alloc, items.len())?;
    let mut last = *first;
    for item in others {
        last = follow(&mut joined, last, item)?;
    }
    joined.push(last)?;
    Ok(joined)
}

/// The last item joined with the one that follows it, or the one that follows, where the last one is kept.
fn follow<T: Ranked>(kept: &mut Vec<T>, last: T, item: &T) -> Result<T, NoMemory>
    requires rising { Rises T.cmp (kept.old.items ++ last ∷ []) }
    requires upto { is_gt (T.cmp last item.now) ≡ false }
    ensures { IfOk result (λ next. kept.new.items ++ next ∷ [] ≡ placed T.cmp T.join (kept.old.items ++ last ∷ []) item.now) }
{
    if last.compare(item).is_eq() {
        return Ok(last.joined(item));
    }
    kept.push(last)?;
    Ok(*item)
}
