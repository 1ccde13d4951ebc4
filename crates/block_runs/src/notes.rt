ghost use Rattle.std.specs.Prelude.{◌≡◌, ◌∷◌, [], List};
ghost use Rattle.body_replay.specs.Contract.{Note};
ghost use Rattle.block_runs.specs.Notes.{AddsNotes, note_of};

use term_replay::Spot;

/// Why a point is left open: the time of the step, and the thing that is to blame.
#[derive(Clone, Copy)]
pub struct Doubt {
    pub time: u64,
    pub thing: u32,
}

/// Takes what the runs of blocks note, in order.
pub trait BlockNotes {
    /// What is known of a sink when a run starts: what a table of verdicts was given before, for example.
    ghost Start: { Type 0 };

    /// The sink may have taken these notes, in order, since this start.
    ghost noted: { Start → List Note → Self → Type 0 };

    /// A spot of the block that runs is hit where `doubt` is None, and else left open. It takes no memory.
    fn note(&mut self, spot: Spot, doubt: Option<Doubt>)
        ensures { AddsNotes noted self.old (note_of spot doubt ∷ []) self.new };
}
