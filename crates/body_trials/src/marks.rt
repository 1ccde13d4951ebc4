//! What runs note.

use block_runs::{BlockNotes, Doubt};
use cov_host::NoMemory;
use std::alloc::Global;
use term_replay::Spot;

/// A note of a run: a spot that is hit, or one that is left open, with the time and the thing that is to blame.
#[derive(Clone, Copy)]
pub struct Mark {
    pub spot: Spot,
    pub doubt: Option<Doubt>,
}

/// The notes of a run, in order.
#[derive(Drop)]
pub(crate) struct Marks {
    list: Vec<Mark>,
    /// A note has not been kept for want of memory.
    is_cut: bool,
}

impl Marks {
    /// No notes.
    pub(crate) fn new(alloc: Global) -> Marks {
        Marks {
            list: Vec::new(alloc),
            is_cut: false,
        }
    }

    /// All notes in order.
    pub(crate) fn taken(self) -> Result<Vec<Mark>, NoMemory> {
        if self.is_cut {
            Err(NoMemory)
        } else {
            Ok(self.list)
        }
    }
}

impl BlockNotes for Marks {
    ghost use Rattle.std.specs.Prelude.{⊤, List};
    ghost use Rattle.body_replay.specs.Contract.{Note};

    ghost Start = { ⊤ };

    ghost noted = { λ start ms x. ⊤ };

    fn note(&mut self, spot: Spot, doubt: Option<Doubt>) {
        if self.list.push(Mark { spot, doubt }).is_err() {
            self.is_cut = true;
        }
    }
}
