use crate::{BlockNotes, Certainty, Doubt};
use term_replay::{Notes, Spot};

/// Notes the marks of a run in the way in which the block runs.
#[derive(Drop)]
pub(crate) struct ByWay<'a, N> {
    /// How sure it is that the block runs.
    pub(crate) how: Certainty,
    /// Where the notes go.
    pub(crate) notes: &'a mut N,
}

impl<'a, N: BlockNotes> Notes for ByWay<'a, N> {
    ghost use Rattle.std.specs.Prelude.{Option};
    ghost use Rattle.block_runs.specs.Notes.{IsNoted, WayStart};

    ghost Start = { Option (WayStart N.Start) };

    ghost noted = { λ start ms w. IsNoted N.noted start w.how w.notes.ghost_name w.notes.now ms };

    fn note(&mut self, spot: Spot, doubt: Option<u32>) {
        match self.how {
            Certainty::Clean { time } => match doubt {
                None => self.notes.note(spot, None),
                Some(thing) => self.notes.note(spot, Some(Doubt { time, thing })),
            },
            Certainty::Quiet => {}
            Certainty::Perhaps { time, thing } | Certainty::Weak { time, thing } => {
                self.notes.note(spot, Some(Doubt { time, thing }));
            }
        }
    }
}
