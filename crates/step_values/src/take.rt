//! What the Clocked processes of a step have overwritten.

ghost use Rattle.std.specs.Prelude.{◌≡◌, ◌<◌, ◌==◌, ℕ, [], true, length};
ghost use Rattle.std.specs.List.{All};
ghost use Rattle.design_model.specs.Design.{Design};
ghost use Rattle.design_model.specs.View.{design_view};
ghost use Rattle.store_knowledge.specs.body_calls.Own.{is_in};
ghost use Rattle.store_knowledge.specs.body_replay.Store.{Kept};
ghost use Rattle.replay_steps.specs.replay_model.Step.{Closing};
ghost use Rattle.store_knowledge.specs.Knows.{Knows};
ghost use Rattle.step_values.specs.Dumped.{HaveCodes};
ghost use Rattle.step_values.specs.Loose.{has_code};
ghost use Rattle.step_values.specs.Starts.{AreTaken};
ghost use Rattle.step_values.specs.Taken.{AreOfRows, Takes, TakesKnown};
ghost use Rattle.step_values.specs.Vectors.{FitsSignals};

use crate::{StepValues, is_coded};
use index_sets::{IndexSet, Rows};
use store_knowledge::{Store, known_signal};

impl StepValues {
    /// After the Clocked have run and what they queued is made: of each signal with a code that one of these processes assigns,
    /// what was made is what is known now, and the set has these signals. `written` has what each process assigns, and `codes`
    /// the code of each signal. It takes no memory, and time for what these processes assign.
    pub fn take_made(
        &mut self,
        store: &Store,
        ran: &[usize],
        written: &Rows<u32>,
        codes: &[Option<u32>],
        overwritten: &mut IndexSet,
    )
        requires known { (d : Design) × (k : Kept) × Knows d k store.now }
        requires fits { FitsSignals (design_view store.now.design.now) self.old }
        requires rows { All (λ p. p < length written.now) ran.now }
        requires coded { (s : ℕ) → has_code codes.now s ≡ true → s < length store.now.design.now.signals }
        requires size { overwritten.old.size ≡ length store.now.design.now.signals }
        ensures before { self.new.before ≡ self.old.before }
        ensures fits { FitsSignals (design_view store.now.design.now) self.new }
        ensures size { overwritten.new.size ≡ overwritten.old.size }
        ensures overwritten { AreOfRows codes.now written.now ran.now overwritten.new.items }
        ensures coded { HaveCodes (design_view store.now.design.now) codes.now overwritten.new.items }
        ensures made { (d : Design) (k : Kept) → Knows d k store.now → TakesKnown d k overwritten.new.items self.old self.new }
        ensures taken { (st : Closing) (k : Kept) → Knows st.design k store.now → AreTaken st k [] self.old → AreTaken st k overwritten.new.items self.new }
    {
        overwritten.clear();
        for process in ran {
            self.take_row(store, written.row(*process), codes, overwritten);
        }
    }

    /// The same of what one process assigns, beside what the set has already.
    fn take_row(
        &mut self,
        store: &Store,
        things: &[u32],
        codes: &[Option<u32>],
        overwritten: &mut IndexSet,
    )
        requires known { (d : Design) × (k : Kept) × Knows d k store.now }
        requires fits { FitsSignals (design_view store.now.design.now) self.old }
        requires coded { (s : ℕ) → has_code codes.now s ≡ true → s < length store.now.design.now.signals }
        requires size { overwritten.old.size ≡ length store.now.design.now.signals }
        ensures size { overwritten.new.size ≡ overwritten.old.size }
        ensures takes { Takes codes.now (is_in things.now) store.now overwritten.old.items overwritten.new.items self.old self.new }
    {
        for thing in things {
            self.take_thing(store, *thing, codes, overwritten);
        }
    }

    /// The same of one signal or memory.
    fn take_thing(
        &mut self,
        store: &Store,
        thing: u32,
        codes: &[Option<u32>],
        overwritten: &mut IndexSet,
    )
        requires known { (d : Design) × (k : Kept) × Knows d k store.now }
        requires fits { FitsSignals (design_view store.now.design.now) self.old }
        requires coded { (s : ℕ) → has_code codes.now s ≡ true → s < length store.now.design.now.signals }
        requires size { overwritten.old.size ≡ length store.now.design.now.signals }
        ensures size { overwritten.new.size ≡ overwritten.old.size }
        ensures takes { Takes codes.now (λ s. thing == s) store.now overwritten.old.items overwritten.new.items self.old self.new }
    {
        if is_coded(codes, thing) {
            self.set_made(thing, known_signal(store, thing));
            overwritten.insert(thing as usize);
        }
    }
}
