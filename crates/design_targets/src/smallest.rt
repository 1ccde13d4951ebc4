//! What a constant is evaluated on: the smallest design that has something to read, with all bits x and no notes.

ghost use Rattle.std.specs.Prelude.{◌≡◌, ◌∷◌, [], false, ⊤};
ghost use Rattle.four_state.specs.declared.bit.Bit.TheVariants.{X};
ghost use Rattle.term_replay.specs.known_state.Partly.{whole_of};

use design_model::Range;
use four_state::{Bit, Four};
use term_replay::{Known, Notes, Reads, Spot};

/// One signal and one memory of one word, each of one bit, which is x. A constant reads neither.
#[derive(Drop)]
pub(crate) struct Smallest;

impl Reads for Smallest {
    ghost use Rattle.design_targets.specs.Written.{smallest_scene};

    ghost scene = { λ _. smallest_scene };

    fn signal(&self, _signal: u32) -> Known {
        one_x()
    }

    fn word(&self, _memory: u32, _index: &Known) -> Known {
        one_x()
    }

    fn blame(&self, _memory: u32) -> u32 {
        0
    }

    fn wrote(&self, _memory: u32) -> bool {
        false
    }

    fn signal_range(&self, _signal: u32) -> Range {
        Range { high: 0, low: 0 }
    }

    fn word_range(&self, _memory: u32) -> Range {
        Range { high: 0, low: 0 }
    }

    fn words(&self, _memory: u32) -> Range {
        Range { high: 0, low: 0 }
    }
}

/// A vector of one bit, which is x.
fn one_x() -> Known
    ensures { result ≡ whole_of (record { bits = X ∷ []; signed = false }) }
{
    Known::whole(Four::fill(1, false, Bit::X))
}

/// Keeps no notes.
#[derive(Drop)]
pub(crate) struct Unnoted;

impl Notes for Unnoted {
    ghost Start = { Unit {0} };

    ghost noted = { λ _ _ _. ⊤ };

    fn note(&mut self, _spot: Spot, _doubt: Option<u32>) {}
}
