#![tactic(auto, using(crate::proofs::Hits::hits_then, crate::proofs::Hits::hits_none))]
//! The words of a memory.

ghost use Rattle.std.specs.Prelude.{◌≡◌, ◌<◌, length, map};
ghost use Rattle.design_model.specs.Design.{memory_at};
ghost use Rattle.design_model.specs.View.{design_view};
ghost use Rattle.value_store.specs.body_replay.Replay.{hit};
ghost use Rattle.value_store.specs.body_replay.Store.{words as words_of};
ghost use Rattle.term_replay.specs.Noted.{Adds, access_spot};
ghost use Rattle.term_replay.specs.Words.{IsOf};

use design_model::{Design, Range};
use term_replay::{Access, Notes};

/// The declared range of the words of a memory; the one word 0 where the design has no memory with this number.
fn words(design: &Design, memory: u32) -> Range
    ensures { IsOf result (memory_at (design_view design.now) memory) }
{
    let first = design.signals.len();
    let place = memory as usize;
    if place < first || place - first >= design.memories.len() {
        return Range { high: 0, low: 0 };
    }
    let memory = &design.memories.as_slice()[place - first];
    Range {
        high: memory.first,
        low: memory.last,
    }
}

/// Notes a use of each word of a memory.
pub(crate) fn note_words<N: Notes>(access: Access, design: &Design, memory: u32, notes: &mut N)
    ensures { Adds N.noted notes.old (map hit (map (access_spot access memory) (words_of (memory_at (design_view design.now) memory)))) notes.new }
{
    let words = words(design, memory);
    let low = words.high.min(words.low);
    let high = words.high.max(words.low);
    for word in u64::from(low)..u64::from(high) + 1 {
        notes.note(access.spot(memory, word as u32), None);
    }
}
