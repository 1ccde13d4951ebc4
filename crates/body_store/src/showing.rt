//! What bodies read in the place of what is kept.

ghost use Rattle.std.specs.Prelude.{◌≡◌, ◌<◌, ◌==◌, ◌||◌, ℕ, [], false, length, true};
ghost use Rattle.design_model.specs.Design.{is_number, signal_at};
ghost use Rattle.design_model.specs.View.{design_view};
ghost use Rattle.body_calls.specs.body_replay.Replay.{Blames};
ghost use Rattle.body_calls.specs.body_replay.Store.{Kept};
ghost use Rattle.word_log.specs.memory_rebuild.Words.{unwritten};

use crate::Store;
use crate::write::signed_as;
use known_state::Known;
use std::mem;

impl<'a> Store<'a> {
    ghost use Rattle.body_store.specs.Bodies.{around_of, rooms_of};
    ghost use Rattle.body_store.specs.Fitting.{memory_in};
    ghost use Rattle.body_store.specs.Held.{HoldsStore};
    ghost use Rattle.body_store.specs.Scenes.{scene_of};
    ghost use Rattle.body_store.specs.Veils.{Exchanged, IsAside};
    ghost use Rattle.body_store.specs.Views.{hides, kept_scene, showing, veiling};

    /// Until `plain`, bodies read this value of a signal, which is to blame for what is not sure of it. The sign flag and the
    /// blame of the value are free.
    pub fn show(&mut self, signal: u32, value: &Known)
        requires place { signal < length self.old.design.now.signals }
        requires width { length value.now.bits ≡ (signal_at (design_view self.old.design.now) signal).width }
        ensures design { self.new.design ≡ self.old.design }
        ensures updates { self.new.updates ≡ self.old.updates }
        ensures around { around_of self.old ≡ [] → around_of self.new ≡ [] }
        ensures rooms { rooms_of self.new ≡ rooms_of self.old }
        ensures reads { scene_of self.new ≡ showing signal value.now.bits (scene_of self.old) }
        ensures hides { (x : ℕ) → hides self.new x ≡ ((signal == x) || hides self.old x) }
        ensures kept { kept_scene self.new ≡ kept_scene self.old }
        ensures holds { (k : Kept) (e : Blames) → HoldsStore (design_view self.old.design.now) k e self.old → HoldsStore (design_view self.old.design.now) k e self.new }
    {
        let signed = self.signals.signal(signal).is_signed();
        self.signals.show(signal, signed_as(value, signed, signal));
    }

    /// Until `plain`, bodies read unknown bits of a signal or memory, which is to blame for them.
    pub fn veil(&mut self, thing: u32)
        requires { is_number (design_view self.old.design.now) thing ≡ true }
        ensures design { self.new.design ≡ self.old.design }
        ensures updates { self.new.updates ≡ self.old.updates }
        ensures around { around_of self.old ≡ [] → around_of self.new ≡ [] }
        ensures rooms { rooms_of self.new ≡ rooms_of self.old }
        ensures reads { scene_of self.new ≡ veiling thing (scene_of self.old) }
        ensures hides { (x : ℕ) → hides self.new x ≡ ((thing == x) || hides self.old x) }
        ensures kept { kept_scene self.new ≡ kept_scene self.old }
        ensures holds { (k : Kept) (e : Blames) → HoldsStore (design_view self.old.design.now) k e self.old → HoldsStore (design_view self.old.design.now) k e self.new }
    {
        let count = self.signals.len();
        let number = thing as usize;
        if number < count {
            self.signals.veil(thing);
        } else {
            self.veil_memory(number - count);
        }
    }

    /// Nothing is shown or veiled any more: bodies read what is kept. It costs what was veiled.
    pub fn plain(&mut self)
        ensures design { self.new.design ≡ self.old.design }
        ensures updates { self.new.updates ≡ self.old.updates }
        ensures around { around_of self.old ≡ [] → around_of self.new ≡ [] }
        ensures rooms { rooms_of self.new ≡ rooms_of self.old }
        ensures reads { scene_of self.new ≡ kept_scene self.old }
        ensures hides { (x : ℕ) → hides self.new x ≡ false }
        ensures kept { kept_scene self.new ≡ kept_scene self.old }
        ensures holds { (k : Kept) (e : Blames) → HoldsStore (design_view self.old.design.now) k e self.old → HoldsStore (design_view self.old.design.now) k e self.new }
    {
        for listed in 0..self.veils.veiled.len() {
            let place = self.veils.veiled.get(listed);
            self.exchange(place);
        }
        self.veils.veiled.clear();
        self.signals.plain();
    }

    /// Bodies read unknown bits of the memory with this place.
    fn veil_memory(&mut self, place: usize)
        requires { place < length self.old.design.now.memories }
        ensures design { self.new.design ≡ self.old.design }
        ensures signals { self.new.signals ≡ self.old.signals }
        ensures log { self.new.log ≡ self.old.log }
        ensures words { self.new.words ≡ self.old.words }
        ensures updates { self.new.updates ≡ self.old.updates }
        ensures aside { IsAside place self.old.veils self.old.memories.items self.new.veils self.new.memories.items }
        ensures unknown { (memory_in self.new.memories.items place).words ≡ unwritten (memory_in self.new.memories.items place).words.shape }
    {
        self.put_aside(place);
        self.memories[place].words.smudge();
    }

    /// Keeps the words of the memory with this place aside, if they are not yet.
    fn put_aside(&mut self, place: usize)
        requires { place < length self.old.design.now.memories }
        ensures design { self.new.design ≡ self.old.design }
        ensures signals { self.new.signals ≡ self.old.signals }
        ensures log { self.new.log ≡ self.old.log }
        ensures words { self.new.words ≡ self.old.words }
        ensures updates { self.new.updates ≡ self.old.updates }
        ensures aside { IsAside place self.old.veils self.old.memories.items self.new.veils self.new.memories.items }
    {
        if self.veils.veiled.insert(place) {
            self.exchange(place);
        }
    }

    /// Exchanges the words of the memory with this place that bodies read with the words that are kept beside them.
    fn exchange(&mut self, place: usize)
        requires { place < length self.old.design.now.memories }
        ensures design { self.new.design ≡ self.old.design }
        ensures signals { self.new.signals ≡ self.old.signals }
        ensures log { self.new.log ≡ self.old.log }
        ensures words { self.new.words ≡ self.old.words }
        ensures updates { self.new.updates ≡ self.old.updates }
        ensures exchanged { Exchanged place self.old.veils self.old.memories.items self.new.veils self.new.memories.items }
    {
        mem::swap(
            &mut self.memories[place].words,
            &mut self.veils.under[place],
        );
    }
}
