ghost use Rattle.std.specs.Prelude.{◌≡◌, ◌+◌, ◌-◌, ◌<◌, ◌≤◌, length, vec_capacity, vec_len};
ghost use Rattle.std.specs.List.{All};
ghost use Rattle.write_log.specs.Entries.{Fits, Moved};

use crate::Overwritten;
use value_store::Signals;

/// Puts back what was overwritten last, and adds what it overwrites by that to the other list.
fn put_back(from: &mut Vec<Overwritten>, to: &mut Vec<Overwritten>, signals: &mut Signals)
    requires some { 0 < length from.old.items }
    requires room { vec_len to.old < vec_capacity to.old }
    requires fit { All (Fits signals.old) from.old.items }
    requires fit_to { All (Fits signals.old) to.old.items }
    ensures moved { Moved from.old.items to.old.items signals.old from.new.items to.new.items signals.new }
    ensures less { length from.new.items + 1 ≡ length from.old.items }
    ensures more { length to.new.items ≡ length to.old.items + 1 }
    ensures capacity { vec_capacity to.new ≡ vec_capacity to.old }
    ensures capacity_from { vec_capacity from.new ≡ vec_capacity from.old }
    ensures fit { All (Fits signals.new) from.new.items }
    ensures fit_to { All (Fits signals.new) to.new.items }
{
    let Some(entry) = from.pop() else {
        unreachable!()
    };
    let value = signals.read(entry.signal);
    to.push_reserved(Overwritten {
        signal: entry.signal,
        value,
    });
    signals.assign(entry.signal, entry.value);
}

/// Puts back what was overwritten, the last first, until so many entries are left, and adds to the other list what is
/// overwritten by that.
pub(crate) fn put_all_back(
    from: &mut Vec<Overwritten>,
    to: &mut Vec<Overwritten>,
    left: usize,
    signals: &mut Signals,
)
    requires left { left ≤ length from.old.items }
    requires room { (length from.old.items - left) + length to.old.items ≤ vec_capacity to.old }
    requires fit { All (Fits signals.old) from.old.items }
    requires fit_to { All (Fits signals.old) to.old.items }
    ensures moved { Moved from.old.items to.old.items signals.old from.new.items to.new.items signals.new }
    ensures less { length from.new.items ≡ left }
    ensures more { length to.new.items + left ≡ length to.old.items + length from.old.items }
    ensures capacity { vec_capacity to.new ≡ vec_capacity to.old }
    ensures capacity_from { vec_capacity from.new ≡ vec_capacity from.old }
    ensures fit { All (Fits signals.new) from.new.items }
    ensures fit_to { All (Fits signals.new) to.new.items }
{
    while from.len() > left {
        put_back(from, to, signals);
    }
}
