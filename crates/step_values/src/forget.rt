//! The bits that processes may write are made unknown.

ghost use Rattle.std.specs.Prelude.{◌≡◌};
ghost use Rattle.std.specs.List.{All};
ghost use Rattle.design_model.specs.Design.{Design};
ghost use Rattle.design_model.specs.View.{design_view};
ghost use Rattle.store_knowledge.specs.body_replay.Store.{Kept};
ghost use Rattle.process_targets.specs.Rows.{IsInside};
ghost use Rattle.process_targets.specs.Targets.{has_bit, row_has};
ghost use Rattle.store_knowledge.specs.Knows.{Knows};
ghost use Rattle.step_values.specs.Loose.{HaveRows, forgetting, has_code, some_row_has};
ghost use Rattle.step_values.specs.Loosens.{Loosens};
ghost use Rattle.step_values.specs.Vectors.{FitsSignals};

use crate::StepValues;
use bit_changes::forgotten;
use index_sets::Rows;
use process_targets::Bits;
use store_knowledge::{Store, keep_signal, known_signal};

impl StepValues {
    /// What a process may write is to be made anew: nothing is known of it, where the dump does not have the signal, and
    /// of what was made of it, where the dump has it. `targets` are the bits that the process may write, and `codes` has the
    /// code of each signal. It takes time for the targets.
    pub fn loosen(&mut self, store: &mut Store, targets: &[Bits], codes: &[Option<u32>])
        requires known { (d : Design) × (k : Kept) × Knows d k store.old }
        requires fits { FitsSignals (design_view store.old.design.now) self.old }
        requires inside { All (IsInside (design_view store.old.design.now)) targets.now }
        ensures { Loosens codes.now (row_has targets.now) store.old store.new self.old self.new }
    {
        for bits in targets {
            self.loosen_bits(store, bits, codes);
        }
    }

    /// The same of some bits of one signal.
    fn loosen_bits(&mut self, store: &mut Store, bits: &Bits, codes: &[Option<u32>])
        requires known { (d : Design) × (k : Kept) × Knows d k store.old }
        requires fits { FitsSignals (design_view store.old.design.now) self.old }
        requires inside { IsInside (design_view store.old.design.now) bits.now }
        ensures { Loosens codes.now (has_bit bits.now) store.old store.new self.old self.new }
    {
        if is_coded(codes, bits.signal) {
            self.forget_made(bits);
        } else {
            forget_kept(store, bits);
        }
    }

    /// The same for each of these processes, where `targets` has those of each process.
    pub(crate) fn loosen_all(
        &mut self,
        store: &mut Store,
        running: &[usize],
        targets: &Rows<Bits>,
        codes: &[Option<u32>],
    )
        requires known { (d : Design) × (k : Kept) × Knows d k store.old }
        requires fits { FitsSignals (design_view store.old.design.now) self.old }
        requires rows { HaveRows (design_view store.old.design.now) targets.now running.now }
        ensures { Loosens codes.now (some_row_has targets.now running.now) store.old store.new self.old self.new }
    {
        for process in running {
            self.loosen(store, targets.row(*process), codes);
        }
    }
}

/// Whether a signal has a code.
pub fn is_coded(codes: &[Option<u32>], signal: u32) -> bool
    ensures { result ≡ has_code codes.now signal }
{
    match codes.get(signal as usize) {
        Some(code) => code.is_some(),
        None => false,
    }
}

/// Nothing is known of these bits any more.
fn forget_kept(store: &mut Store, bits: &Bits)
    requires known { (d : Design) × (k : Kept) × Knows d k store.old }
    requires inside { IsInside (design_view store.old.design.now) bits.now }
    ensures design { store.new.design ≡ store.old.design }
    ensures knows { (d : Design) (k : Kept) → Knows d k store.old → Knows d (forgetting (has_bit bits.now) k) store.new }
{
    let value = known_signal(store, bits.signal);
    keep_signal(
        store,
        bits.signal,
        &forgotten(&value, bits.mask, bits.signal),
    );
}
