//! What is kept between the runs of bodies.

ghost use Rattle.std.specs.Prelude.{◌≡◌, ◌-◌, ◌<◌, ◌≤◌, ℕ, [], length, true};
ghost use Rattle.design_model.specs.Design.{Design, is_memory, memory_at, signal_at, signal_cells};
ghost use Rattle.design_model.specs.View.{design_view};
ghost use Rattle.body_calls.specs.body_replay.Replay.{Blames};
ghost use Rattle.body_calls.specs.body_replay.Store.{Kept, keep_all, read_word, write_bits, write_word, writes_of};
ghost use Rattle.write_log.specs.value_store.Held.{IsSignal};
ghost use Rattle.word_log.specs.memory_rebuild.Words.{StandsFor, cell_writes};
ghost use Rattle.body_calls.specs.Lvalues.{if_certain};

use crate::Store;
use crate::write::signed_as;
use known_state::Known;
use word_log::Rebuilt;

impl<'a> Store<'a> {
    ghost use Rattle.body_store.specs.Held.{HoldsStore};
    ghost use Rattle.body_store.specs.Made.{unblamed};
    ghost use Rattle.body_store.specs.Bodies.{around_of, rooms_of};
    ghost use Rattle.body_store.specs.Veils.{SameButWords, kept_words as words_kept};
    ghost use Rattle.body_store.specs.Views.{hides};

    /// What is kept of a signal, which is not what bodies read where the signal is shown or veiled.
    pub fn kept_signal(&self, signal: u32) -> Known
        requires { signal < length self.now.design.now.signals }
        ensures { (k : Kept) (e : Blames) → HoldsStore (design_view self.now.design.now) k e self.now → IsSignal (design_view self.now.design.now) k e.blame signal result }
    {
        self.signals.signal(signal)
    }

    /// What an index reads of what is kept of a memory. The sign flag and the blame are free.
    pub fn kept_word(&self, memory: u32, index: &Known) -> Known
        requires { is_memory (design_view self.now.design.now) memory ≡ true }
        ensures { (k : Kept) (e : Blames) → HoldsStore (design_view self.now.design.now) k e self.now → result.bits ≡ read_word (design_view self.now.design.now) k memory index.now.signed index.now.bits }
    {
        self.kept_words(memory).read(index)
    }

    /// Keeps a value of a signal, or, where it is not certain, what it has in common with what is kept. The signal is to
    /// blame for what is not sure of it.
    pub fn set(&mut self, signal: u32, value: &Known, certain: bool)
        requires place { signal < length self.old.design.now.signals }
        requires width { length value.now.bits ≡ (signal_at (design_view self.old.design.now) signal).width }
        ensures design { self.new.design ≡ self.old.design }
        ensures updates { self.new.updates ≡ self.old.updates }
        ensures around { around_of self.old ≡ [] → around_of self.new ≡ [] }
        ensures rooms { rooms_of self.new ≡ rooms_of self.old }
        ensures log { self.new.log ≡ self.old.log }
        ensures hides { hides self.new ≡ hides self.old }
        ensures kept { (k : Kept) → HoldsStore (design_view self.old.design.now) k unblamed self.old → HoldsStore (design_view self.old.design.now) (keep_all k (if_certain certain (writes_of (signal_cells (design_view self.old.design.now) signal) value.now.bits))) unblamed self.new }
    {
        let signed = self.signals.signal(signal).is_signed();
        let value = signed_as(value, signed, signal);
        self.signals.update(signal, &value, certain);
    }

    /// Keeps the bits of a part of a signal, from the bit with the index `low` up.
    pub fn set_part(&mut self, signal: u32, low: &Known, part: &Known, certain: bool)
        requires place { signal < length self.old.design.now.signals }
        requires width { 1 ≤ length part.now.bits }
        ensures design { self.new.design ≡ self.old.design }
        ensures updates { self.new.updates ≡ self.old.updates }
        ensures around { around_of self.old ≡ [] → around_of self.new ≡ [] }
        ensures rooms { rooms_of self.new ≡ rooms_of self.old }
        ensures log { self.new.log ≡ self.old.log }
        ensures hides { hides self.new ≡ hides self.old }
        ensures kept { (k : Kept) → HoldsStore (design_view self.old.design.now) k unblamed self.old → HoldsStore (design_view self.old.design.now) (keep_all k (if_certain certain (write_bits (design_view self.old.design.now) signal low.now.signed low.now.bits part.now.bits))) unblamed self.new }
    {
        self.signals.update_part(signal, low, part, certain);
    }

    /// Keeps a value of the word of a memory that an index names.
    pub fn set_word(&mut self, memory: u32, index: &Known, value: &Known, certain: bool)
        requires place { is_memory (design_view self.old.design.now) memory ≡ true }
        requires width { length value.now.bits ≡ (memory_at (design_view self.old.design.now) memory).width }
        ensures design { self.new.design ≡ self.old.design }
        ensures updates { self.new.updates ≡ self.old.updates }
        ensures around { around_of self.old ≡ [] → around_of self.new ≡ [] }
        ensures rooms { rooms_of self.new ≡ rooms_of self.old }
        ensures log { self.new.log ≡ self.old.log }
        ensures hides { hides self.new ≡ hides self.old }
        ensures kept { (k : Kept) → HoldsStore (design_view self.old.design.now) k unblamed self.old → HoldsStore (design_view self.old.design.now) (keep_all k (if_certain certain (write_word (design_view self.old.design.now) memory index.now.signed index.now.bits value.now.bits))) unblamed self.new }
    {
        let signed = self.are_signed(memory);
        let value = signed_as(value, signed, memory);
        let place = memory as usize - self.signals.len();
        self.write_kept(place, index, &value, certain);
    }

    /// The words that are kept of a memory.
    fn kept_words(&self, memory: u32) -> &Rebuilt
        requires { is_memory (design_view self.now.design.now) memory ≡ true }
        ensures { result.now ≡ words_kept self.now.veils self.now.memories.items (memory - length self.now.design.now.signals) }
    {
        let place = memory as usize - self.signals.len();
        if self.veils.is_veiled(place) {
            &self.veils.under[place]
        } else {
            &self.memories[place].words
        }
    }

    /// Whether the words of a memory are signed.
    fn are_signed(&self, memory: u32) -> bool
        requires { is_memory (design_view self.now.design.now) memory ≡ true }
        ensures { result ≡ (words_kept self.now.veils self.now.memories.items (memory - length self.now.design.now.signals)).shape.signed }
    {
        self.kept_words(memory).shape().signed
    }

    /// Writes a value into the words that are kept of the memory with this place.
    fn write_kept(&mut self, place: usize, index: &Known, value: &Known, certain: bool)
        requires place { place < length self.old.design.now.memories }
        requires width { length value.now.bits ≡ (words_kept self.old.veils self.old.memories.items place).shape.width }
        requires sign { value.now.signed ≡ (words_kept self.old.veils self.old.memories.items place).shape.signed }
        ensures design { self.new.design ≡ self.old.design }
        ensures signals { self.new.signals ≡ self.old.signals }
        ensures log { self.new.log ≡ self.old.log }
        ensures words { self.new.words ≡ self.old.words }
        ensures updates { self.new.updates ≡ self.old.updates }
        ensures veiled { self.new.veils.veiled ≡ self.old.veils.veiled }
        ensures others { SameButWords place self.old.veils self.old.memories.items self.new.veils self.new.memories.items }
        ensures shape { (words_kept self.new.veils self.new.memories.items place).shape ≡ (words_kept self.old.veils self.old.memories.items place).shape }
        ensures here { (d : Design) (k : Kept) (m : ℕ) → StandsFor d k m (words_kept self.old.veils self.old.memories.items place) → StandsFor d (keep_all k (cell_writes d m index.now value.now.bits certain)) m (words_kept self.new.veils self.new.memories.items place) }
    {
        if self.veils.is_veiled(place) {
            self.veils.under[place].write(index, value, certain);
        } else {
            self.memories[place].words.write(index, value, certain);
        }
    }
}
