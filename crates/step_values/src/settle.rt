//! The Assigns and Combs of a step begin.

ghost use Rattle.std.specs.Prelude.{◌≡◌, ◌≤◌, length};
ghost use Rattle.design_model.specs.Design.{Design};
ghost use Rattle.design_model.specs.View.{design_view};
ghost use Rattle.store_knowledge.specs.body_replay.Replay.{flush};
ghost use Rattle.store_knowledge.specs.body_replay.Store.{Kept};
ghost use Rattle.event_machine.specs.Cell.{Values};
ghost use Rattle.four_state.specs.declared.bit.Bit.{Bit};
ghost use Rattle.replay_steps.specs.replay_model.Step.{Closing, Working, settle_start};
ghost use Rattle.store_knowledge.specs.Knows.{Knows};
ghost use Rattle.step_values.specs.Dumped.{AreDumped, HaveCodes};
ghost use Rattle.step_values.specs.Loose.{HaveRows};
ghost use Rattle.step_values.specs.Starts.{AreTaken, HasValues, IsStartOf};
ghost use Rattle.step_values.specs.Vectors.{FitsSignals};

use crate::{StepValues, put_dump};
use code_values::CodeValues;
use index_sets::Rows;
use process_targets::Bits;
use store_knowledge::Store;

impl StepValues {
    /// The Assigns and Combs that are to run make their targets anew, and the dump's values are put in of the signals that have
    /// changed and of those that a Clocked has overwritten. `targets` has the bits that each process may write, and `codes` the
    /// code of each signal. It takes no memory, and time for the targets of the processes that run and for these signals.
    pub fn settle(
        &mut self,
        store: &mut Store,
        running: &[usize],
        targets: &Rows<Bits>,
        changed: &[usize],
        overwritten: &[usize],
        codes: &[Option<u32>],
        values: &CodeValues,
    )
        requires few { length store.old.design.now.signals ≤ 65536 }
        requires known { (d : Design) × (k : Kept) × Knows d k store.old }
        requires fits { FitsSignals (design_view store.old.design.now) self.old }
        requires rows { HaveRows (design_view store.old.design.now) targets.now running.now }
        requires changed { HaveCodes (design_view store.old.design.now) codes.now changed.now }
        requires overwritten { HaveCodes (design_view store.old.design.now) codes.now overwritten.now }
        requires dumped { (new : Values Bit) × AreDumped (design_view store.old.design.now) codes.now values.now.last new }
        ensures design { store.new.design ≡ store.old.design }
        ensures known { (d : Design) × (k : Kept) × Knows d k store.new }
        ensures fits { FitsSignals (design_view store.old.design.now) self.new }
        ensures starts { (st : Closing) (w : Working) → Knows st.design (flush w.kept w.queue) store.old → AreTaken st (flush w.kept w.queue) overwritten.now self.old
            → IsStartOf st w running.now targets.now changed.now overwritten.now codes.now values.now.last → HasValues st (settle_start st w) store.new self.new }
    {
        self.loosen_all(store, running, targets, codes);
        put_dump(store, changed, codes, values);
        put_dump(store, overwritten, codes, values);
    }
}
