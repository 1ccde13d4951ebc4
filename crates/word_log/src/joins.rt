ghost use Rattle.std.specs.Prelude.{◌≡◌, ◌∷◌, [], if◌then◌else◌, length};
ghost use Rattle.std.specs.List.{All};
ghost use Rattle.known_state.specs.Join.{joined};
ghost use Rattle.word_log.specs.Entries as e;
ghost use Rattle.word_log.specs.Entries.{Fits, Joined, flags, words};
ghost use Rattle.word_log.specs.Logs.{sizes_of};
ghost use Rattle.word_log.specs.Seen.{seen_sizes, sees_memory, sees_word};
ghost use Rattle.word_log.specs.Memories.{SameShapes};

use crate::seen::Seen;
use crate::{OverwrittenWord, StoredMemory};
use known_state::Known;

/// What is left of a word: where it is seen for the first time what both values have in common, and else what it has.
pub(crate) fn common(value: &Known, now: &Known, first: bool) -> Known
    requires width { length value.now.bits ≡ length now.now.bits }
    requires sign { value.now.signed ≡ now.now.signed }
    ensures bits { result.bits ≡ (if first then joined value.now.bits now.now.bits else now.now.bits) }
    ensures width { length result.bits ≡ length now.now.bits }
    ensures sign { result.signed ≡ now.now.signed }
{
    if first {
        value.join(now, now.blame())
    } else {
        *now
    }
}

/// Joins what the entry says with what its memory holds, unless that has been seen.
fn join_one(entry: &OverwrittenWord, seen: &mut Seen, memories: &mut [StoredMemory])
    requires fit { Fits memories.old entry.now }
    requires sizes { seen_sizes seen.old ≡ sizes_of memories.old }
    ensures words { Joined words (entry.now ∷ []) (sees_word seen.old) memories.old memories.new }
    ensures flags { Joined flags (entry.now ∷ []) (sees_memory seen.old) memories.old memories.new }
    ensures seen_words { e.Seen words (entry.now ∷ []) (sees_word seen.old) (sees_word seen.new) }
    ensures seen_memories { e.Seen flags (entry.now ∷ []) (sees_memory seen.old) (sees_memory seen.new) }
    ensures sizes { seen_sizes seen.new ≡ seen_sizes seen.old }
    ensures shapes { SameShapes memories.old memories.new }
{
    let first = seen.see(entry.memory, entry.place);
    memories[entry.memory].join(entry, first);
}

/// Joins what the first entry of each word and of each memory says with what the memories hold, except what has been seen.
pub(crate) fn join_all(entries: &[OverwrittenWord], seen: &mut Seen, memories: &mut [StoredMemory])
    requires fit { All (Fits memories.old) entries.now }
    requires sizes { seen_sizes seen.old ≡ sizes_of memories.old }
    ensures words { Joined words entries.now (sees_word seen.old) memories.old memories.new }
    ensures flags { Joined flags entries.now (sees_memory seen.old) memories.old memories.new }
    ensures seen_words { e.Seen words entries.now (sees_word seen.old) (sees_word seen.new) }
    ensures seen_memories { e.Seen flags entries.now (sees_memory seen.old) (sees_memory seen.new) }
    ensures sizes { seen_sizes seen.new ≡ seen_sizes seen.old }
    ensures shapes { SameShapes memories.old memories.new }
{
    for entry in entries {
        join_one(entry, seen, memories);
    }
}
