ghost use Rattle.std.specs.Prelude.{◌≡◌, ◌<◌, true, false, length, map};
ghost use Rattle.known_state.specs.Partly.{is_whole};
ghost use Rattle.design_model.specs.Design.{is_memory, memory_at, signal_at, signal_cells};
ghost use Rattle.body_replay.specs.Store.{read_word};
ghost use Rattle.term_replay.specs.Stands.{Scene};

use design_model::Range;
use known_state::Known;

/// What terms read: what is known of the bits of each signal and of each word of a memory, as a body reads them in the
/// middle of its run, and the thing to blame where they are not known. No call takes memory.
pub trait Reads {
    /// The design whose signals and memories are read, what is known of each bit, and what each signal and memory is
    /// blamed on.
    ghost scene: { Self → Scene };

    /// What is known of a signal, with its blame where it is not wholly sure. The sign flag is free.
    fn signal(&self, signal: u32) -> Known
        requires { signal < length (scene self.now).design.signals }
        ensures bits { result.bits ≡ map (scene self.now).kept (signal_cells (scene self.now).design signal) }
        ensures blame { is_whole result ≡ false → result.blame ≡ (scene self.now).blames.blame signal };

    /// What is known of the word of a memory that an index names: all bits x where it names none (IEEE 1364-2001, clause
    /// 4.2.2), and where the index is not wholly sure what x and all words that it may name have in common. The sign flag
    /// and the blame are free.
    fn word(&self, memory: u32, index: &Known) -> Known
        requires { is_memory (scene self.now).design memory ≡ true }
        ensures { result.bits ≡ read_word (scene self.now).design (scene self.now).kept memory index.now.signed index.now.bits };

    /// The thing to blame where a word of the memory is not wholly sure.
    fn blame(&self, memory: u32) -> u32
        requires { is_memory (scene self.now).design memory ≡ true }
        ensures { result ≡ (scene self.now).blames.blame memory };

    /// Whether the run has written the memory by a blocking assignment.
    fn wrote(&self, memory: u32) -> bool
        requires { is_memory (scene self.now).design memory ≡ true }
        ensures { result ≡ (scene self.now).blames.wrote memory };

    /// The declared range of the bits of a signal.
    fn signal_range(&self, signal: u32) -> Range
        requires { signal < length (scene self.now).design.signals }
        ensures { result ≡ record { high = (signal_at (scene self.now).design signal).high; low = (signal_at (scene self.now).design signal).low } };

    /// The declared range of the bits of a word of a memory.
    fn word_range(&self, memory: u32) -> Range
        requires { is_memory (scene self.now).design memory ≡ true }
        ensures { result ≡ record { high = (memory_at (scene self.now).design memory).high; low = (memory_at (scene self.now).design memory).low } };

    /// The declared range of the words of a memory, in either direction.
    fn words(&self, memory: u32) -> Range
        requires { is_memory (scene self.now).design memory ≡ true }
        ensures { result ≡ record { high = (memory_at (scene self.now).design memory).first; low = (memory_at (scene self.now).design memory).last } };
}
