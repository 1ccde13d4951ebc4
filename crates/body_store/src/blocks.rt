//! What is done to what is kept when a block runs, which `block_runs` calls.

ghost use Rattle.std.specs.Prelude.{◌≡◌, []};
ghost use Rattle.design_model.specs.View.{design_view};
ghost use Rattle.body_calls.specs.Own.{IsOwn};

use crate::{Store, Update};
use body_calls::{Blocks, Lvalue};
use known_state::Known;

impl<'a> Blocks for Store<'a> {
    fn weak_write(&mut self, to: &Lvalue, part: &Known) {
        self.signals.fitting();
        self.make(&Update {
            to: *to,
            value: *part,
            certain: false,
        });
    }

    fn end_run(&mut self, written: &[u32]) {
        self.signals.fitting();
        self.log.outside();
        self.words.outside();
        Store::end_run(self, written);
    }
}

impl<'a> Store<'a> {
    ghost use Rattle.body_store.specs.Bodies.{around_of, rooms_of};
    ghost use Rattle.body_store.specs.Held.{HoldsStore};
    ghost use Rattle.body_store.specs.Made.{unblamed};
    ghost use Rattle.body_store.specs.Views.{kept_scene, under_of};

    /// The store holds what is kept, so that the calls between runs can follow the run of a block, and outside of undecided
    /// tests all room of the log is free. It does nothing.
    pub fn holding(&self)
        ensures held { HoldsStore (design_view self.now.design.now) (kept_scene self.now).kept (kept_scene self.now).blames self.now }
        ensures own { IsOwn (kept_scene self.now) → HoldsStore (design_view self.now.design.now) (kept_scene self.now).kept unblamed self.now }
        ensures room { around_of self.now ≡ [] → (rooms_of self.now).log ≡ (under_of self.now).log }
    {
        self.signals.fitting();
        self.log.outside();
        self.words.outside();
    }
}
