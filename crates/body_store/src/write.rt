//! The writes of blocking assignments.

ghost use Rattle.std.specs.Prelude.{◌≡◌, ◌<◌, ◌≤◌, ◌==◌, ℕ, None, if◌then◌else◌, length, true};
ghost use Rattle.std.specs.Option.{unwrap_or as or_old};
ghost use Rattle.known_state.specs.Partly.{is_whole as is_wholly_sure, with_blame};
ghost use Rattle.write_log.specs.value_store.Signals.{HasShape, read_at, shape_at};

use crate::Store;
use known_state::Known;

/// The same bits with this sign, and this thing to blame where not all of them are sure.
pub(crate) fn signed_as(part: &Known, signed: bool, thing: u32) -> Known
    ensures { result ≡ with_blame part.now.bits signed thing }
{
    if part.is_signed() == signed {
        return part.join(part, thing);
    }
    let value = part.extend(part.width(), signed);
    value.join(&value, thing)
}

/// The thing to blame for a part of a value that is written by this index, where `old` is to blame before.
fn part_blame(low: &Known, blame: Option<u32>, old: u32) -> u32
    ensures { result ≡ (if is_wholly_sure low.now then or_old blame old else low.now.blame) }
{
    if low.is_whole() {
        blame.unwrap_or(old)
    } else {
        low.blame()
    }
}

impl<'a> Store<'a> {
    ghost use Rattle.design_model.specs.View.{design_view};
    ghost use Rattle.body_calls.specs.Lvalues.{Like, Takes, written};
    ghost use Rattle.body_calls.specs.declared.lvalue.Lvalue.TheVariants.{Part, Signal, Word};
    ghost use Rattle.body_calls.specs.Rooms.{Leaves, takes_in};
    ghost use Rattle.body_store.specs.Scenes.{scene_of};
    ghost use Rattle.body_store.specs.Bodies.{around_of, rooms_of};
    ghost use Rattle.body_store.specs.Views.{under_of};

    /// Bodies read this value of a signal from now on.
    fn assign(&mut self, signal: u32, value: Known)
        requires place { signal < length self.old.design.now.signals }
        requires shape { HasShape (shape_at self.old.signals signal) value }
        requires room { takes_in (around_of self.old) (rooms_of self.old) signal ≤ (rooms_of self.old).log }
        ensures design { self.new.design ≡ self.old.design }
        ensures memories { self.new.memories ≡ self.old.memories }
        ensures updates { self.new.updates ≡ self.old.updates }
        ensures around { around_of self.new ≡ around_of self.old }
        ensures rooms { Leaves (takes_in (around_of self.old) (rooms_of self.old) signal) 0 (rooms_of self.old) (rooms_of self.new) }
        ensures under { under_of self.new ≡ under_of self.old }
        ensures reads { (x : ℕ) → read_at self.new.signals x ≡ (if signal == x then value else read_at self.old.signals x) }
    {
        self.log.assign(&mut self.signals, signal, value);
    }

    /// A blocking assignment writes a whole signal.
    pub(crate) fn write_whole(&mut self, signal: u32, part: &Known, blame: Option<u32>)
        requires place { Takes (design_view self.old.design.now) (Signal signal) (length part.now.bits) }
        requires room { takes_in (around_of self.old) (rooms_of self.old) signal ≤ (rooms_of self.old).log }
        ensures design { self.new.design ≡ self.old.design }
        ensures updates { self.new.updates ≡ self.old.updates }
        ensures around { around_of self.new ≡ around_of self.old }
        ensures rooms { Leaves (takes_in (around_of self.old) (rooms_of self.old) signal) 0 (rooms_of self.old) (rooms_of self.new) }
        ensures under { under_of self.new ≡ under_of self.old }
        ensures scene { Like (written (Signal signal) part.now.bits blame (scene_of self.old)) (scene_of self.new) }
    {
        let old = self.signals.read(signal);
        let value = signed_as(part, old.is_signed(), blame.unwrap_or(old.blame()));
        self.assign(signal, value);
    }

    /// A blocking assignment writes a part of a signal.
    pub(crate) fn write_part(&mut self, signal: u32, low: &Known, part: &Known, blame: Option<u32>)
        requires place { Takes (design_view self.old.design.now) (Part signal low.now) (length part.now.bits) }
        requires room { takes_in (around_of self.old) (rooms_of self.old) signal ≤ (rooms_of self.old).log }
        ensures design { self.new.design ≡ self.old.design }
        ensures updates { self.new.updates ≡ self.old.updates }
        ensures around { around_of self.new ≡ around_of self.old }
        ensures rooms { Leaves (takes_in (around_of self.old) (rooms_of self.old) signal) 0 (rooms_of self.old) (rooms_of self.new) }
        ensures under { under_of self.new ≡ under_of self.old }
        ensures scene { Like (written (Part signal low.now) part.now.bits blame (scene_of self.old)) (scene_of self.new) }
    {
        let old = self.signals.read(signal);
        let new = self.signals.with_part(signal, low, part);
        let value = new.join(&new, part_blame(low, blame, old.blame()));
        self.assign(signal, value);
    }

    /// A blocking assignment writes a word of a memory.
    pub(crate) fn write_word(&mut self, memory: u32, index: &Known, part: &Known)
        requires place { Takes (design_view self.old.design.now) (Word memory index.now) (length part.now.bits) }
        requires room { takes_in (around_of self.old) (rooms_of self.old) memory ≤ (rooms_of self.old).log }
        ensures design { self.new.design ≡ self.old.design }
        ensures updates { self.new.updates ≡ self.old.updates }
        ensures around { around_of self.new ≡ around_of self.old }
        ensures rooms { Leaves (takes_in (around_of self.old) (rooms_of self.old) memory) 0 (rooms_of self.old) (rooms_of self.new) }
        ensures under { under_of self.new ≡ under_of self.old }
        ensures scene { Like (written (Word memory index.now) part.now.bits None (scene_of self.old)) (scene_of self.new) }
    {
        let place = memory as usize - self.signals.len();
        let signed = self.memories[place].words.shape().signed;
        let value = signed_as(part, signed, memory);
        self.words
            .write(self.memories.as_mut_slice(), place, index, &value);
    }
}
