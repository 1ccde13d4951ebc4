//! What a body reads where nothing is known, and sinks of notes for its evaluation.

ghost use Rattle.std.specs.Prelude.{◌≡◌};
ghost use Rattle.term_replay.specs.Words.{IsOf, marks_of_words};
ghost use Rattle.value_store.specs.body_replay.Replay.{word_read};
ghost use Rattle.design_model.specs.declared.design.Memory.{Memory};
ghost use Rattle.weak_runs.specs.Unread.{has_marks};

use design_model::Range;
use four_state::{Bit, Four};
use known_state::Known;
use term_replay::{Access, Notes, Reads, Spot, note_words};

/// The design of what is read, with all bits unsure.
#[derive(Drop)]
pub(crate) struct Unread<'a, R> {
    /// What is read where bits are known.
    pub(crate) reads: &'a R,
}

impl<'a, R: Reads> Reads for Unread<'a, R> {
    ghost use Rattle.weak_runs.specs.Unread.{unread_scene};

    ghost scene = { λ x. unread_scene (R.scene x.reads.now) };

    fn signal(&self, signal: u32) -> Known {
        Known::unknown(self.reads.signal(signal).width(), false, 0)
    }

    fn word(&self, memory: u32, index: &Known) -> Known {
        let width = self.reads.word(memory, index).width();
        if may_name_some(memory, self.reads.words(memory), index) {
            Known::unknown(width, false, 0)
        } else {
            Known::whole(Four::fill(width, false, Bit::X))
        }
    }

    fn blame(&self, _memory: u32) -> u32 {
        0
    }

    fn wrote(&self, _memory: u32) -> bool {
        false
    }

    fn signal_range(&self, signal: u32) -> Range {
        self.reads.signal_range(signal)
    }

    fn word_range(&self, memory: u32) -> Range {
        self.reads.word_range(memory)
    }

    fn words(&self, memory: u32) -> Range {
        self.reads.words(memory)
    }
}

/// Whether an index names or may name a word of a memory.
fn may_name_some(memory: u32, words: Range, index: &Known) -> bool
    ensures { (m : Memory) → IsOf words m → result ≡ has_marks (marks_of_words m (word_read memory) index.now.signed index.now.bits index.now.blame) }
{
    let mut notes = AnyNote { found: false };
    note_words(Access::Read, memory, words, index, None, &mut notes);
    notes.found
}

/// Whether there was a note.
#[derive(Drop)]
struct AnyNote {
    found: bool,
}

impl Notes for AnyNote {
    ghost use Rattle.std.specs.Prelude.{◌≡◌, ⊤};
    ghost use Rattle.weak_runs.specs.Unread.{has_marks};

    ghost Start = { ⊤ };

    ghost noted = { λ start ms notes. notes.found ≡ has_marks ms };

    fn note(&mut self, _spot: Spot, _doubt: Option<u32>) {
        self.found = true;
    }
}

/// Keeps no notes.
#[derive(Drop)]
pub(crate) struct Unnoted;

impl Notes for Unnoted {
    ghost use Rattle.std.specs.Prelude.{⊤};

    ghost Start = { ⊤ };

    ghost noted = { λ start ms notes. ⊤ };

    fn note(&mut self, _spot: Spot, _doubt: Option<u32>) {}
}
