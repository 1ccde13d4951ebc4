//! What the runs of processes take.

use design_model::Design;
use early_sets::Wakes;
use index_sets::{IndexSet, Rows};
use settled_runs::Bits;
use settled_targets::SavedValues;
use step_parts::Piece;
use step_words::StepWords;
use value_store::Queue;
use wake_bits::Wake;

/// What is made once of a design and the binding of its signals.
#[derive(Drop)]
pub struct ProcessRows<'a> {
    pub design: &'a Design,
    /// The bits that each process may write.
    pub targets: &'a Rows<Bits>,
    /// The signals that each process assigns.
    pub written: &'a Rows<u32>,
    /// What each process watches, with the bits that wake it.
    pub wakes: &'a Rows<Wake>,
    /// The code of each signal that the dump has.
    pub codes: &'a [Option<u32>],
}

/// What is found of a step before its processes run.
#[derive(Drop)]
pub struct Found<'a> {
    /// What may move.
    pub sets: &'a Wakes,
    /// The signals whose value in the dump has changed.
    pub changed: &'a IndexSet,
    /// The memories of which a word has changed.
    pub words: &'a StepWords,
    /// The time at which the step ends.
    pub time: u64,
}

/// Room for the run of one process at a time.
pub struct Scratch {
    pub saved: SavedValues,
    /// The parts of an assignment, none between runs.
    pub pieces: Queue<Piece>,
}

// Written out so that a crate which lets one go does not prove again how each of its parts is let go.
impl Drop for Scratch {
    fn drop(self) {
        let Scratch {
            saved: _,
            pieces: _,
        } = self;
    }
}
