//! Lists that rise, with each item once.

ghost use Rattle.std.specs.Prelude.{◌≡◌, ◌↔◌, true};
ghost use Rattle.std.specs.List.{Contains};
ghost use Rattle.std.specs.List.Sorted.{IsStrictlySortedBy};

use cov_host::Sequence;

/// The items in rising order, each once. It takes no memory.
pub(crate) fn sorted<T: Ord + Drop>(items: Vec<T>) -> Sequence<T>
    requires { (a b : T) → T.eq a b ≡ true → a ≡ b }
    ensures rising { IsStrictlySortedBy T.cmp result }
    ensures same { (item : T) → Contains result item ↔ Contains items.items item }
{
    let mut items = items;
    items.sort_unstable();
    items.dedup();
    Sequence::from_vec(items)
}
