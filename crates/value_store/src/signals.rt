ghost use Rattle.std.specs.Prelude.{◌≡◌, ◌<◌, ◌==◌, ◌≤◌, ◌↔◌, ◌||◌, ℕ, IfOk, IsTrue, None, Some, false, if◌then◌else◌, is_some, length, map, slice_set};
ghost use Rattle.std.specs.List.{All};
ghost use Rattle.body_replay.specs.known_state.Partly.{with_blame};
ghost use Rattle.value_store.specs.Signals.{HasShape, HasWidth, SameUnder, assigned, hidden_at, kept_at, read_at, shape_at, shape_of, unknown_from, unknown_of, unknown_signals};
ghost use Rattle.value_store.specs.Parts.{part_written, updated};

use crate::part::{blamed, with_part, with_update};
use crate::slot::{Slot, forget, rewind};
use body_replay::{Known, NoMemory};
use design_model::{Range, Signal};
use std::alloc::Global;
use std::marker::Model;

/// What is kept of the signals of a design, and what bodies read in its place where a signal is shown or veiled.
///
/// Contracts see lists by the number of a signal.
pub struct Signals {
    slots: Vec<Slot>,
    /// What was put into a slot to be read holds in the epoch in which it was put there.
    epoch: u64,
}

// Written out so that a crate which lets one go does not prove again how each of its parts is let go.
impl Drop for Signals {
    fn drop(self) {
        let Signals { slots: _, epoch: _ } = self;
    }
}

impl Model for Signals {
    ghost use Rattle.std.specs.List.{All};
    ghost use Rattle.value_store.specs.Signals.{Signals as SignalsView};
    ghost use Rattle.value_store.specs.Slots.{IsSlot, signals_in};

    ghost Value = { SignalsView };

    ghost view = { λ s. signals_in s.epoch s.slots.items };

    ghost invariant = { λ s. All (IsSlot s.epoch) s.slots.items };
}

impl Signals {
    /// No bit of any signal is known, and each signal is to blame for itself.
    pub fn new(alloc: Global, signals: &[Signal]) -> Result<Self, NoMemory>
        requires widths { All HasWidth signals.now }
        requires few { length signals.now ≤ 65536 }
        ensures { IfOk result (λ made. made ≡ unknown_signals (map shape_of signals.now)) }
    {
        let mut slots = Vec::new(alloc);
        for (place, signal) in signals.iter().enumerate() {
            slots.push(Slot::new(signal, place as u32))?;
        }
        Ok(Signals { slots, epoch: 1 })
    }

    /// How many signals there are.
    pub fn len(&self) -> usize
        ensures { result ≡ length self.now.kept }
    {
        self.slots.len()
    }

    /// The declared range of a signal.
    pub fn range(&self, signal: u32) -> Range
        requires { signal < length self.now.kept }
        ensures { result ≡ (shape_at self.now signal).range }
    {
        self.slots[signal as usize].range
    }

    /// Whether a value has the width and the sign of a signal.
    pub fn takes(&self, signal: u32, value: &Known) -> bool
        requires { signal < length self.now.kept }
        ensures { IsTrue result ↔ HasShape (shape_at self.now signal) value.now }
    {
        let slot = &self.slots[signal as usize];
        value.width() == slot.width && value.is_signed() == slot.signed
    }

    /// What is kept of a signal.
    pub fn signal(&self, signal: u32) -> Known
        requires { signal < length self.now.kept }
        ensures value { result ≡ kept_at self.now signal }
        ensures shape { HasShape (shape_at self.now signal) result }
    {
        self.slots[signal as usize].kept
    }

    /// What bodies read of a signal: the value that is shown, unknown bits where it is veiled, and else what is kept.
    pub fn read(&self, signal: u32) -> Known
        requires { signal < length self.now.kept }
        ensures value { result ≡ read_at self.now signal }
        ensures shape { HasShape (shape_at self.now signal) result }
    {
        let slot = &self.slots[signal as usize];
        if slot.epoch == self.epoch {
            slot.shown
        } else {
            slot.kept
        }
    }

    /// Keeps a value of a signal.
    pub fn set(&mut self, signal: u32, value: Known)
        requires place { signal < length self.old.kept }
        requires shape { HasShape (shape_at self.old signal) value }
        ensures { self.new ≡ record self.old { kept = slice_set self.old.kept signal value } }
    {
        let slot = &mut self.slots[signal as usize];
        slot.kept = value;
    }

    /// A body assigns a value to a signal by a blocking assignment: bodies then read it. What is kept under a value that is
    /// shown or veiled stays.
    pub fn assign(&mut self, signal: u32, value: Known)
        requires place { signal < length self.old.kept }
        requires shape { HasShape (shape_at self.old signal) value }
        ensures value { self.new ≡ assigned self.old signal value }
        ensures reads { (x : ℕ) → read_at self.new x ≡ (if signal == x then value else read_at self.old x) }
        ensures under { SameUnder self.old self.new }
    {
        let slot = &self.slots[signal as usize];
        if slot.epoch == self.epoch {
            self.show(signal, value);
        } else {
            self.set(signal, value);
        }
    }

    /// What is kept of each signal, and what bodies read of it, has the width and sign of the signal. It does nothing.
    pub fn fitting(&self)
        ensures kept { (x : ℕ) → x < length self.now.kept → HasShape (shape_at self.now x) (kept_at self.now x) }
        ensures read { (x : ℕ) → x < length self.now.kept → HasShape (shape_at self.now x) (read_at self.now x) }
    {
        let _slots = self.slots.as_slice();
    }

    /// What a write of a part leaves of what bodies read of a signal, from the bit with this index up.
    pub fn with_part(&self, signal: u32, index: &Known, part: &Known) -> Known
        requires { signal < length self.now.kept }
        ensures value { result ≡ part_written (shape_at self.now signal).range index.now part.now (read_at self.now signal) }
        ensures shape { HasShape (shape_at self.now signal) result }
    {
        with_part(&self.read(signal), self.range(signal), index, part)
    }

    /// Keeps the bits of a part of a signal, from the bit with this index up. The part is to blame where it is not whole;
    /// by an index that is not whole any bit of the part can come to each bit of the signal, and the index is to blame.
    pub fn set_part(&mut self, signal: u32, index: &Known, part: &Known)
        requires { signal < length self.old.kept }
        ensures { self.new ≡ record self.old { kept = slice_set self.old.kept signal (part_written (shape_at self.old signal).range index.now part.now (kept_at self.old signal)) } }
    {
        let value = with_part(&self.signal(signal), self.range(signal), index, part);
        self.set(signal, value);
    }

    /// Makes a queued update of a whole signal, which is then to blame for itself. One that is not certain leaves what
    /// the value and the old one have in common.
    pub fn update(&mut self, signal: u32, value: &Known, certain: bool)
        requires place { signal < length self.old.kept }
        requires shape { HasShape (shape_at self.old signal) value.now }
        ensures { self.new ≡ record self.old { kept = slice_set self.old.kept signal (updated certain signal value.now (kept_at self.old signal)) } }
    {
        let kept = with_update(value, &self.signal(signal), certain, signal);
        self.set(signal, kept);
    }

    /// Makes a queued update of a part of a signal, from the bit with this index up.
    pub fn update_part(&mut self, signal: u32, index: &Known, part: &Known, certain: bool)
        requires { signal < length self.old.kept }
        ensures { self.new ≡ record self.old { kept = slice_set self.old.kept signal (updated certain signal (part_written (shape_at self.old signal).range index.now part.now (kept_at self.old signal)) (kept_at self.old signal)) } }
    {
        let old = self.signal(signal);
        let new = with_part(&old, self.range(signal), index, part);
        self.set(signal, with_update(&new, &old, certain, signal));
    }

    /// The signal is to blame for what is not sure of it.
    pub fn blame_itself(&mut self, signal: u32)
        requires { signal < length self.old.kept }
        ensures { self.new ≡ record self.old { kept = slice_set self.old.kept signal (with_blame (kept_at self.old signal).bits (kept_at self.old signal).signed signal) } }
    {
        let kept = blamed(&self.signal(signal), signal);
        self.set(signal, kept);
    }

    /// Nothing is known of any signal any more, and each is to blame for itself. What bodies read in the place of what is
    /// kept stays.
    pub fn forget(&mut self)
        requires { length self.old.kept ≤ 65536 }
        ensures value { self.new ≡ record self.old { kept = unknown_from 0 self.old.shapes } }
        ensures each { (x : ℕ) → x < length self.old.kept → kept_at self.new x ≡ unknown_of (shape_at self.old x) x }
        ensures count { length self.new.kept ≡ length self.old.kept }
    {
        forget(self.slots.as_mut_slice());
    }

    /// Bodies read this value of a signal, until `plain`.
    pub fn show(&mut self, signal: u32, value: Known)
        requires place { signal < length self.old.kept }
        requires shape { HasShape (shape_at self.old signal) value }
        ensures value { self.new ≡ record self.old { hidden = slice_set self.old.hidden signal (Some value) } }
        ensures reads { (x : ℕ) → read_at self.new x ≡ (if signal == x then value else read_at self.old x) }
        ensures hides { (x : ℕ) → is_some (hidden_at self.new x) ≡ ((signal == x) || is_some (hidden_at self.old x)) }
    {
        let slot = &mut self.slots[signal as usize];
        slot.shown = value;
        slot.epoch = self.epoch;
    }

    /// Bodies read unknown bits of a signal, which is to blame for itself, until `plain`.
    pub fn veil(&mut self, signal: u32)
        requires { signal < length self.old.kept }
        ensures value { self.new ≡ record self.old { hidden = slice_set self.old.hidden signal (Some (unknown_of (shape_at self.old signal) signal)) } }
        ensures reads { (x : ℕ) → read_at self.new x ≡ (if signal == x then unknown_of (shape_at self.old signal) signal else read_at self.old x) }
        ensures hides { (x : ℕ) → is_some (hidden_at self.new x) ≡ ((signal == x) || is_some (hidden_at self.old x)) }
    {
        let kept = self.signal(signal);
        self.show(
            signal,
            Known::unknown(kept.width(), kept.is_signed(), signal),
        );
    }

    /// Nothing is shown or veiled any more.
    pub fn plain(&mut self)
        ensures value { self.new ≡ record self.old { hidden = map (λ x. None) self.old.hidden } }
        ensures reads { (x : ℕ) → read_at self.new x ≡ kept_at self.old x }
        ensures hides { (x : ℕ) → is_some (hidden_at self.new x) ≡ false }
    {
        if self.epoch == u64::MAX {
            rewind(self.slots.as_mut_slice());
            self.epoch = 0;
        }
        self.epoch += 1;
    }
}
