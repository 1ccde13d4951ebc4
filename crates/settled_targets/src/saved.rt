ghost use Rattle.std.specs.Prelude.{◌≡◌, ◌<◌, ◌≤◌, ℕ, IfOk, length, slice_set};
ghost use Rattle.std.specs.List.{All};
ghost use Rattle.design_model.specs.Design.{Design};
ghost use Rattle.design_model.specs.View.{design_view};
ghost use Rattle.step_values.specs.body_replay.Store.{Kept};
ghost use Rattle.index_sets.specs.Rows.{row_at};
ghost use Rattle.process_targets.specs.Rows.{IsInside};
ghost use Rattle.step_values.specs.store_knowledge.Knows.{Knows};
ghost use Rattle.step_values.specs.Vectors.{vector_at};
ghost use Rattle.settled_targets.specs.Saved.{AreSaved};

use cov_host::NoMemory;
use index_sets::Rows;
use known_state::Known;
use process_targets::Bits;
use std::alloc::Global;
use std::marker::Model;
use step_values::{Store, known_signal};

/// What was kept of the signals that a process writes, before it runs: a vector for each of its targets, in order.
///
/// Contracts see it as this list, with all the room that there is.
#[derive(Drop)]
pub struct SavedValues {
    values: Vec<Known>,
}

impl Model for SavedValues {
    ghost use Rattle.std.specs.Prelude.{List};
    ghost use Rattle.known_state.specs.Partly.{Partly};

    ghost Value = { List Partly };

    ghost view = { λ v. v.values.items };
}

impl SavedValues {
    /// Room for the targets of each of so many processes. All memory that is ever needed is taken here.
    pub fn new(alloc: Global, targets: &Rows<Bits>, processes: usize) -> Result<Self, NoMemory>
        requires { processes ≤ length targets.now }
        ensures { IfOk result (λ saved. (p : ℕ) → p < processes → length (row_at targets.now p) ≤ length saved) }
    {
        let longest = longest_row(targets, processes);
        let values = vec![in alloc; Known::unknown(1, false, 0); longest]?;
        Ok(SavedValues { values })
    }

    /// What is kept of the signals of these targets is saved. It takes time for the targets.
    pub fn save(&mut self, store: &Store, targets: &[Bits])
        requires room { length targets.now ≤ length self.old }
        requires inside { All (IsInside (design_view store.now.design.now)) targets.now }
        ensures room { length self.new ≡ length self.old }
        ensures saved { (d : Design) (k : Kept) → Knows d k store.now → AreSaved d k targets.now self.new }
    {
        for place in 0..targets.len() {
            let value = known_signal(store, targets[place].signal);
            self.set(place, value);
        }
    }

    /// The vector at a place.
    pub(crate) fn at(&self, place: usize) -> Known
        requires { place < length self.now }
        ensures { result ≡ vector_at self.now place }
    {
        self.values[place]
    }

    /// The vector at a place is another one.
    fn set(&mut self, place: usize, value: Known)
        requires { place < length self.old }
        ensures { self.new ≡ slice_set self.old place value }
    {
        self.values[place] = value;
    }
}

/// The length of the longest of so many rows.
fn longest_row(targets: &Rows<Bits>, processes: usize) -> usize
    requires { processes ≤ length targets.now }
    ensures { (p : ℕ) → p < processes → length (row_at targets.now p) ≤ result }
{
    let mut longest = 0;
    for process in 0..processes {
        longest = longest.max(targets.row(process).len());
    }
    longest
}
