//! The signals that have changed, with their lowest bits before and after.

ghost use Rattle.std.specs.Prelude.{◌≡◌, ◌≤◌, [], length, map};
ghost use Rattle.step_changes.specs.Changes.{change_by, lowest as lowest_of};

use code_values::CodeValues;
use four_state::{Bit, Four};
use index_sets::IndexSet;
use step_wakes::SignalChange;
use value_store::Queue;

/// Puts the change of each signal that has changed on an empty list. It takes no memory, and constant time for each.
pub(crate) fn note_changes(
    changed: &IndexSet,
    codes: &[Option<u32>],
    values: &CodeValues,
    changes: &mut Queue<SignalChange>,
)
    requires few { changed.now.size ≤ 65536 }
    requires empty { changes.old.items ≡ [] }
    requires room { changed.now.size ≤ changes.old.room }
    ensures room { changes.new.room ≡ changes.old.room }
    ensures changes { changes.new.items ≡ map (change_by codes.now values.now) changed.now.items }
{
    for place in 0..changed.len() {
        let signal = changed.get(place);
        changes.push(change_of(signal as u32, codes, values));
    }
}

/// The change of a signal.
fn change_of(signal: u32, codes: &[Option<u32>], values: &CodeValues) -> SignalChange
    ensures { result ≡ change_by codes.now values.now signal }
{
    match codes.get(signal as usize) {
        Some(Some(code)) => SignalChange {
            signal,
            old: lowest(values.closed_value(*code)),
            new: lowest(values.value(*code)),
        },
        _ => SignalChange {
            signal,
            old: Bit::X,
            new: Bit::X,
        },
    }
}

/// The lowest bit of a value.
fn lowest(value: Option<Four>) -> Bit
    ensures { result ≡ lowest_of value }
{
    match value {
        Some(value) => value.bit(0),
        None => Bit::X,
    }
}
