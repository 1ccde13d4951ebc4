ghost use Rattle.std.specs.Prelude.{◌≡◌, ◌+◌, ◌-◌, ◌<◌, ◌≤◌, length, vec_capacity, vec_len};
ghost use Rattle.std.specs.List.{All};
ghost use Rattle.word_log.specs.Entries.{Fits, Moved};

use crate::{OverwrittenWord, StoredMemory};

/// Puts back what was overwritten last, and adds what it overwrites by that to the other list.
fn put_back(
    from: &mut Vec<OverwrittenWord>,
    to: &mut Vec<OverwrittenWord>,
    memories: &mut [StoredMemory],
)
    requires some { 0 < length from.old.items }
    requires room { vec_len to.old < vec_capacity to.old }
    requires fit { All (Fits memories.old) from.old.items }
    requires fit_to { All (Fits memories.old) to.old.items }
    ensures moved { Moved from.old.items to.old.items memories.old from.new.items to.new.items memories.new }
    ensures less { length from.new.items + 1 ≡ length from.old.items }
    ensures more { length to.new.items ≡ length to.old.items + 1 }
    ensures capacity { vec_capacity to.new ≡ vec_capacity to.old }
    ensures capacity_from { vec_capacity from.new ≡ vec_capacity from.old }
    ensures fit { All (Fits memories.new) from.new.items }
    ensures fit_to { All (Fits memories.new) to.new.items }
{
    let Some(entry) = from.pop() else {
        unreachable!()
    };
    let overwritten = memories[entry.memory].swap(&entry);
    to.push_reserved(overwritten);
}

/// Puts back what was overwritten, the last first, until so many entries are left, and adds to the other list what is
/// overwritten by that.
pub(crate) fn put_all_back(
    from: &mut Vec<OverwrittenWord>,
    to: &mut Vec<OverwrittenWord>,
    left: usize,
    memories: &mut [StoredMemory],
)
    requires left { left ≤ length from.old.items }
    requires room { (length from.old.items - left) + length to.old.items ≤ vec_capacity to.old }
    requires fit { All (Fits memories.old) from.old.items }
    requires fit_to { All (Fits memories.old) to.old.items }
    ensures moved { Moved from.old.items to.old.items memories.old from.new.items to.new.items memories.new }
    ensures less { length from.new.items ≡ left }
    ensures more { length to.new.items + left ≡ length to.old.items + length from.old.items }
    ensures capacity { vec_capacity to.new ≡ vec_capacity to.old }
    ensures capacity_from { vec_capacity from.new ≡ vec_capacity from.old }
    ensures fit { All (Fits memories.new) from.new.items }
    ensures fit_to { All (Fits memories.new) to.new.items }
{
    while from.len() > left {
        put_back(from, to, memories);
    }
}
