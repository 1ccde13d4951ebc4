//! What is known is given up.

ghost use Rattle.std.specs.Prelude.{◌≡◌, ◌-◌, ◌<◌, ◌≤◌, [], length, true};
ghost use Rattle.design_model.specs.Design.{is_memory};
ghost use Rattle.design_model.specs.View.{design_view};
ghost use Rattle.body_calls.specs.body_replay.Replay.{Blames};
ghost use Rattle.body_calls.specs.body_replay.Store.{Kept};
ghost use Rattle.word_log.specs.memory_rebuild.Words.{unwritten};

use crate::Store;

impl<'a> Store<'a> {
    ghost use Rattle.body_store.specs.Bodies.{around_of, rooms_of};
    ghost use Rattle.body_store.specs.Held.{HoldsStore};
    ghost use Rattle.body_store.specs.Made.{itself_to_blame, nothing, without};
    ghost use Rattle.body_store.specs.Veils.{SameButWords, kept_words as words_kept};
    ghost use Rattle.body_store.specs.Views.{hides};

    /// Nothing is known of the words of a memory any more. What bodies read in their place, where it is veiled, stays.
    pub fn smudge(&mut self, memory: u32)
        requires { is_memory (design_view self.old.design.now) memory ≡ true }
        ensures design { self.new.design ≡ self.old.design }
        ensures updates { self.new.updates ≡ self.old.updates }
        ensures around { around_of self.old ≡ [] → around_of self.new ≡ [] }
        ensures rooms { rooms_of self.new ≡ rooms_of self.old }
        ensures log { self.new.log ≡ self.old.log }
        ensures hides { hides self.new ≡ hides self.old }
        ensures kept { (k : Kept) (e : Blames) → HoldsStore (design_view self.old.design.now) k e self.old → HoldsStore (design_view self.old.design.now) (without memory k) e self.new }
    {
        let place = memory as usize - self.signals.len();
        self.smudge_words(place);
    }

    /// Nothing is known of any signal or memory any more, and each is to blame for itself. What bodies read in the place of
    /// what is kept stays.
    pub fn forget(&mut self)
        requires few { length self.old.design.now.signals ≤ 65536 }
        ensures design { self.new.design ≡ self.old.design }
        ensures updates { self.new.updates ≡ self.old.updates }
        ensures around { around_of self.old ≡ [] → around_of self.new ≡ [] }
        ensures rooms { rooms_of self.new ≡ rooms_of self.old }
        ensures log { self.new.log ≡ self.old.log }
        ensures hides { hides self.new ≡ hides self.old }
        ensures kept { (k : Kept) (e : Blames) → HoldsStore (design_view self.old.design.now) k e self.old → HoldsStore (design_view self.old.design.now) nothing (itself_to_blame e) self.new }
    {
        self.signals.forget();
        for place in 0..self.memories.len() {
            self.smudge_words(place);
        }
    }

    /// Makes the words unknown that are kept of the memory with this place.
    fn smudge_words(&mut self, place: usize)
        requires { place < length self.old.design.now.memories }
        ensures design { self.new.design ≡ self.old.design }
        ensures signals { self.new.signals ≡ self.old.signals }
        ensures log { self.new.log ≡ self.old.log }
        ensures words { self.new.words ≡ self.old.words }
        ensures updates { self.new.updates ≡ self.old.updates }
        ensures veiled { self.new.veils.veiled ≡ self.old.veils.veiled }
        ensures others { SameButWords place self.old.veils self.old.memories.items self.new.veils self.new.memories.items }
        ensures here { words_kept self.new.veils self.new.memories.items place ≡ unwritten (words_kept self.old.veils self.old.memories.items place).shape }
    {
        if self.veils.is_veiled(place) {
            self.veils.under[place].smudge();
        } else {
            self.memories[place].words.smudge();
        }
    }
}
