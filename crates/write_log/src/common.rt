ghost use Rattle.std.specs.Prelude.{◌≡◌, ◌∷◌, [], length};
ghost use Rattle.std.specs.List.{All};
ghost use Rattle.value_store.specs.Signals.{SameUnder};
ghost use Rattle.write_log.specs.Entries.{Fits, IsCommon, Joined, Seen};

use crate::Overwritten;
use index_sets::IndexSet;
use known_state::Known;
use value_store::Signals;

/// What both ways of an undecided test leave of a signal: the value that both have, or else what they have in common,
/// blamed on the test.
fn common(one: &Known, other: &Known, test: u32) -> Known
    requires width { length one.now.bits ≡ length other.now.bits }
    requires sign { one.now.signed ≡ other.now.signed }
    ensures common { IsCommon test one.now other.now result }
    ensures width { length result.bits ≡ length one.now.bits }
    ensures sign { result.signed ≡ one.now.signed }
{
    let joined = one.join(other, test);
    if joined.sure() != one.sure() {
        return joined;
    }
    if joined.sure() != other.sure() {
        return joined;
    }
    if one.blame() != other.blame() {
        return joined;
    }
    *one
}

/// Joins the value of the entry with that of its signal, unless the signal has been seen.
fn join_one(entry: &Overwritten, seen: &mut IndexSet, signals: &mut Signals, test: u32)
    requires fit { Fits signals.old entry.now }
    requires size { seen.old.size ≡ length signals.old.kept }
    ensures joined { Joined test (entry.now ∷ []) seen.old.items signals.old signals.new }
    ensures seen { Seen (entry.now ∷ []) seen.old.items seen.new.items }
    ensures size { seen.new.size ≡ seen.old.size }
    ensures under { SameUnder signals.old signals.new }
{
    if seen.insert(entry.signal as usize) {
        let value = common(&entry.value, &signals.read(entry.signal), test);
        signals.assign(entry.signal, value);
    }
}

/// Joins the values of the first entry of each signal with what the signals have, except those that have been seen.
pub(crate) fn join_all(
    entries: &[Overwritten],
    seen: &mut IndexSet,
    signals: &mut Signals,
    test: u32,
)
    requires fit { All (Fits signals.old) entries.now }
    requires size { seen.old.size ≡ length signals.old.kept }
    ensures joined { Joined test entries.now seen.old.items signals.old signals.new }
    ensures seen { Seen entries.now seen.old.items seen.new.items }
    ensures size { seen.new.size ≡ seen.old.size }
    ensures under { SameUnder signals.old signals.new }
{
    for entry in entries {
        join_one(entry, seen, signals, test);
    }
}
