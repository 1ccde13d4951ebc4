ghost use Rattle.std.specs.Prelude.{◌≡◌, ◌≤◌, ◌<◌, ◌+◌, ◌^◌, Bool, length, bytes_eq, IfSome};
ghost use Rattle.coverage_db.specs.Merge.{first_other, difference_of};
ghost use Rattle.coverage_db.specs.Same.{same_instance, same_point};
ghost use Rattle.coverage_db.specs.Table.{IsTable};

use crate::same::is_same_name;
use crate::{Db, DbInstance, DbPoint};
use cov_host::Name;

/// What can be compared with its like.
trait Compared {
    /// Whether both are the same.
    ghost same: { Self → Self → Bool };

    fn is_like(&self, other: &Self) -> bool
        ensures { result ≡ same self.now other.now };
}

impl Compared for Name {
    ghost same = { bytes_eq };

    fn is_like(&self, other: &Name) -> bool {
        is_same_name(self, other)
    }
}

impl Compared for DbInstance {
    ghost same = { same_instance };

    fn is_like(&self, other: &DbInstance) -> bool {
        is_same_name(&self.path, &other.path) && is_same_name(&self.module, &other.module)
    }
}

impl Compared for DbPoint {
    ghost same = { same_point };

    fn is_like(&self, other: &DbPoint) -> bool {
        self.address.is_same(&other.address)
    }
}

/// The first place where two lists differ, or one of them ends.
fn first_other<T: Compared>(left: &[T], right: &[T]) -> Option<usize>
    ensures place { result ≡ first_other T.same left.now right.now }
    ensures within { IfSome result (λ place. place ≤ length left.now) }
    ensures inside { length left.now ≡ length right.now → IfSome result (λ place. place < length left.now) }
{
    for (place, item) in left.iter().enumerate() {
        match right.get(place) {
            Some(other) if item.is_like(other) => {}
            _ => return Some(place),
        }
    }
    if right.len() > left.len() {
        Some(left.len())
    } else {
        None
    }
}

/// The number of lines before the first that differs, where each point is without its verdict.
pub(crate) fn first_difference(left: &Db, right: &Db) -> Option<usize>
    requires left { IsTable left.now }
    requires right { IsTable right.now }
    ensures place { result ≡ difference_of left.now right.now }
    ensures within { IfSome result (λ place. place + 1 < 2 ^ 32) }
{
    if !is_same_name(&left.top, &right.top) {
        return Some(1);
    }
    if let Some(place) = first_other(left.sources.as_slice(), right.sources.as_slice()) {
        return Some(2 + place);
    }
    let before = 2 + left.sources.len();
    if let Some(place) = first_other(left.instances.as_slice(), right.instances.as_slice()) {
        return Some(before + place);
    }
    let before = before + left.instances.len();
    if left.points.len() != right.points.len() {
        return Some(before);
    }
    let place = first_other(left.points.as_slice(), right.points.as_slice())?;
    Some(before + 1 + place)
}
