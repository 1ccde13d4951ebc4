ghost use Rattle.std.specs.Prelude.{◌≡◌, ◌<◌, ◌^◌, ℕ, length, map, slice_set};
ghost use Rattle.design_model.specs.Design.{Design, signal_cells};
ghost use Rattle.design_model.specs.View.{design_view};
ghost use Rattle.store_knowledge.specs.body_replay.Store.{Kept};
ghost use Rattle.process_targets.specs.Targets.{has_bit};
ghost use Rattle.store_knowledge.specs.Knows.{Knows};
ghost use Rattle.step_values.specs.Loose.{forgetting};
ghost use Rattle.step_values.specs.Vectors.{AreOpened, FitsSignals, IsSetAside, bits_before, vector_at};

use bit_changes::forgotten;
use known_state::Known;
use process_targets::Bits;
use std::marker::Model;
use store_knowledge::{Store, known_signal};

/// What is set aside of each signal in a step. It says something of the signals that may move in the step alone.
///
/// Contracts see two lists by the number of a signal.
pub struct StepValues {
    /// What was known of the signal at the start of the step.
    pub(crate) before: Vec<Known>,
    /// What was made of it in the step, before the dump's value took its place.
    pub(crate) made: Vec<Known>,
}

// Written out so that a crate which lets one go does not prove again how each of its parts is let go.
impl Drop for StepValues {
    fn drop(self) {
        let StepValues { before: _, made: _ } = self;
    }
}

impl Model for StepValues {
    ghost use Rattle.std.specs.Prelude.{◌<◌, ◌^◌, length};
    ghost use Rattle.step_values.specs.Vectors.{StepVectors};

    ghost Value = { StepVectors };

    ghost view = { λ v. record { before = v.before.items; made = v.made.items } };

    ghost invariant = { λ v. length v.before.items < 2 ^ 32 };
}

impl StepValues {
    /// What was known of a signal at the start of the step.
    pub fn before(&self, signal: u32) -> Known
        requires { signal < length self.now.before }
        ensures { result ≡ vector_at self.now.before signal }
    {
        self.before[signal as usize]
    }

    /// What is known of a signal before the step, where this is known of it after the step. A time that the dump does not list may represent
    /// more such times, so there it is what is the same before and after.
    pub fn before_step(&self, signal: u32, after: &Known, listed: bool) -> Known
        requires place { signal < length self.now.before }
        requires width { length (vector_at self.now.before signal).bits ≡ length after.now.bits }
        ensures { result.bits ≡ bits_before listed (vector_at self.now.before signal).bits after.now.bits }
    {
        let before = self.before[signal as usize];
        if listed {
            before
        } else {
            before.join(after, signal)
        }
    }

    /// What was made of a signal in the step.
    pub fn made(&self, signal: u32) -> Known
        requires { signal < length self.now.made }
        ensures { result ≡ vector_at self.now.made signal }
    {
        self.made[signal as usize]
    }

    /// What was made of each signal.
    pub fn all_made(&self) -> &[Known]
        ensures { result.now ≡ self.now.made }
    {
        self.made.as_slice()
    }

    /// This was made of a signal in the step.
    pub fn set_made(&mut self, signal: u32, value: Known)
        requires { signal < length self.old.made }
        ensures { self.new ≡ record self.old { made = slice_set self.old.made signal value } }
    {
        self.made[signal as usize] = value;
    }

    /// A step begins: what is known of the signals that may move is set aside, and nothing else has been made of them yet.
    /// `moves` are signals and memories; it takes time for these.
    pub fn open(&mut self, store: &Store, moves: &[usize])
        requires { FitsSignals (design_view store.now.design.now) self.old }
        ensures fits { (d : Design) (k : Kept) → Knows d k store.now → FitsSignals d self.new }
        ensures opened { (d : Design) (k : Kept) → Knows d k store.now → AreOpened d k moves.now self.new }
    {
        for thing in moves {
            if *thing < self.before.len() {
                self.set_aside(store, *thing as u32);
            }
        }
    }

    /// What is known of a signal is set aside.
    fn set_aside(&mut self, store: &Store, signal: u32)
        requires place { signal < length store.now.design.now.signals }
        requires before { signal < length self.old.before }
        requires made { signal < length self.old.made }
        ensures { IsSetAside store.now signal self.old self.new }
    {
        let value = known_signal(store, signal);
        self.before[signal as usize] = value;
        self.made[signal as usize] = value;
    }

    /// Nothing is known any more of what was made of these bits.
    pub(crate) fn forget_made(&mut self, bits: &Bits)
        requires place { bits.now.signal < length self.old.made }
        requires mask { bits.now.mask < 2 ^ length (vector_at self.old.made bits.now.signal).bits }
        ensures before { self.new.before ≡ self.old.before }
        ensures fits { (d : Design) → FitsSignals d self.old → FitsSignals d self.new }
        ensures made { (d : Design) (m : Kept) (s : ℕ) → FitsSignals d self.old → s < length d.signals → (vector_at self.old.made s).bits ≡ map m (signal_cells d s) → (vector_at self.new.made s).bits ≡ map (forgetting (has_bit bits.now) m) (signal_cells d s) }
    {
        let signal = bits.signal as usize;
        self.made[signal] = forgotten(&self.made[signal], bits.mask, bits.signal);
    }
}
