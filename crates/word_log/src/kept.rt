//! What a write may change is logged before it is made.

ghost use Rattle.std.specs.Prelude.{◌≡◌, ◌+◌, ◌<◌, ◌≤◌, Contains, false, length, true, vec_capacity, vec_len, ℕ};
ghost use Rattle.known_state.specs.Partly.{is_whole as is_wholly_sure};
ghost use Rattle.memory_rebuild.specs.Words.{count};
ghost use Rattle.word_log.specs.Keeps.{Kept, NamedKept};

use crate::{OverwrittenWord, StoredMemory};
use known_state::Known;

/// Adds an entry for each word that a write by this index may change, and at least one for the memory.
pub(crate) fn keep(
    done: &mut Vec<OverwrittenWord>,
    stored: &StoredMemory,
    memory: usize,
    index: &Known,
)
    requires room { vec_len done.old + count stored.now.words.shape + 1 ≤ vec_capacity done.old }
    ensures kept { Kept stored.now memory index.now done.old.items done.new.items }
    ensures capacity { vec_capacity done.new ≡ vec_capacity done.old }
    ensures few { length done.new.items ≤ length done.old.items + count stored.now.words.shape + 1 }
{
    if index.is_whole() {
        let place = stored.words.place_of(index).unwrap_or(0);
        done.push_reserved(stored.entry(memory, place));
    } else {
        done.push_reserved(stored.entry(memory, 0));
        keep_named(done, stored, memory, index);
    }
}

/// Adds an entry for each word that is not unknown and that this index may name.
fn keep_named(done: &mut Vec<OverwrittenWord>, stored: &StoredMemory, memory: usize, index: &Known)
    requires room { vec_len done.old + count stored.now.words.shape ≤ vec_capacity done.old }
    ensures kept { NamedKept stored.now memory index.now done.old.items done.new.items }
    ensures capacity { vec_capacity done.new ≡ vec_capacity done.old }
    ensures few { length done.new.items ≤ length done.old.items + count stored.now.words.shape }
{
    let places = stored.words.written_places();
    for place in places {
        if stored.words.may_name(index, *place) {
            done.push_reserved(stored.entry(memory, *place));
        }
    }
}
