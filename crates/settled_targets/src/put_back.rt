//! What a run made of the targets of a process takes its place.

ghost use Rattle.std.specs.Prelude.{◌≡◌, ◌==◌, ◌<◌, ◌≤◌, ◌^◌, ℕ, None, if◌then◌else◌, length, map};
ghost use Rattle.std.specs.List.{All};
ghost use Rattle.four_state.specs.Masks.{is_set};
ghost use Rattle.design_model.specs.Design.{Design, signal_cells};
ghost use Rattle.design_model.specs.View.{design_view};
ghost use Rattle.step_values.specs.body_replay.Store.{Kept};
ghost use Rattle.bit_changes.specs.Changes.{bit_at};
ghost use Rattle.process_targets.specs.Rows.{IsInside};
ghost use Rattle.process_targets.specs.Targets.{IsOnce, has_bit, names, row_has};
ghost use Rattle.step_values.specs.store_knowledge.Knows.{Knows};
ghost use Rattle.step_values.specs.Vectors.{FitsSignals, vector_at};
ghost use Rattle.settled_targets.specs.Returned.{IsMadeOf, Returns};
ghost use Rattle.settled_targets.specs.Saved.{AreSaved, IsSaved};

use crate::SavedValues;
use bit_changes::{forgotten, merged};
use known_state::Known;
use process_targets::Bits;
use step_values::{StepValues, Store, is_coded, keep_signal, known_signal};

impl SavedValues {
    /// The saved values take the place of what the run left of the signals of these targets. Of each bit that the process
    /// may write, what the run made of it is kept where the dump does not have the signal, and is what was made of it in
    /// the step where the dump has it. It is unknown where it does not hold: `is_kept` says whether what is kept holds, and
    /// `is_made` whether what was made does. `codes` has the code of each signal. It takes time for the targets.
    pub fn put_back(
        &self,
        store: &mut Store,
        values: &mut StepValues,
        targets: &[Bits],
        codes: &[Option<u32>],
        is_kept: bool,
        is_made: bool,
    )
        requires saved { (k : Kept) × AreSaved (design_view store.old.design.now) k targets.now self.now }
        requires known { (d : Design) × (r : Kept) × Knows d r store.old }
        requires fits { FitsSignals (design_view store.old.design.now) values.old }
        requires once { IsOnce targets.now }
        requires inside { All (IsInside (design_view store.old.design.now)) targets.now }
        ensures { Returns codes.now (names targets.now) (row_has targets.now) is_kept is_made (λ d k. AreSaved d k targets.now self.now) store.old store.new values.old values.new }
    {
        for place in 0..targets.len() {
            let saved = self.at(place);
            put_back_bits(
                store,
                values,
                &targets[place],
                &saved,
                codes,
                is_kept,
                is_made,
            );
        }
    }
}

/// The same of some bits of one signal, with its saved value.
fn put_back_bits(
    store: &mut Store,
    values: &mut StepValues,
    bits: &Bits,
    saved: &Known,
    codes: &[Option<u32>],
    is_kept: bool,
    is_made: bool,
)
    requires saved { (k : Kept) × IsSaved (design_view store.old.design.now) k bits.now.signal saved.now }
    requires known { (d : Design) × (r : Kept) × Knows d r store.old }
    requires fits { FitsSignals (design_view store.old.design.now) values.old }
    requires inside { IsInside (design_view store.old.design.now) bits.now }
    ensures { Returns codes.now (λ s. bits.now.signal == s) (has_bit bits.now) is_kept is_made (λ d k. IsSaved d k bits.now.signal saved.now) store.old store.new values.old values.new }
{
    let result = known_signal(store, bits.signal);
    if is_coded(codes, bits.signal) {
        make_bits(values, bits, &result, is_made);
        keep_signal(store, bits.signal, saved);
    } else {
        let kept = replaced(saved, &result, bits, is_kept);
        keep_signal(store, bits.signal, &kept);
    }
}

/// This was made of some bits of a signal in the step, where it holds; else it is not known what was.
fn make_bits(values: &mut StepValues, bits: &Bits, left: &Known, holds: bool)
    requires place { bits.now.signal < length values.old.made }
    requires width { length (vector_at values.old.made bits.now.signal).bits ≡ length left.now.bits }
    requires mask { bits.now.mask < 2 ^ length left.now.bits }
    ensures { IsMadeOf bits.now left.now.bits holds values.old values.new }
{
    let made = values.made(bits.signal);
    values.set_made(bits.signal, replaced(&made, left, bits, holds));
}

/// A vector with some bits replaced by those of another one, where these hold, and not sure where they do not.
fn replaced(old: &Known, left: &Known, bits: &Bits, holds: bool) -> Known
    requires width { length old.now.bits ≡ length left.now.bits }
    requires mask { bits.now.mask < 2 ^ length old.now.bits }
    ensures width { length result.bits ≡ length old.now.bits }
    ensures bits { (i : ℕ) → i < length old.now.bits → bit_at result.bits i ≡ (if is_set bits.now.mask i then (if holds then bit_at left.now.bits i else None) else bit_at old.now.bits i) }
{
    if holds {
        merged(old, left, bits.mask, bits.signal)
    } else {
        forgotten(old, bits.mask, bits.signal)
    }
}
