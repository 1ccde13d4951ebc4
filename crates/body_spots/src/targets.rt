#![tactic(auto, using(crate::proofs::Hits::hits_then, crate::proofs::Hits::hits_none))]
//! The spots of targets: those of their indexes, and the words that they may write.

ghost use Rattle.std.specs.Prelude.{◌≡◌, ◌++◌, map};
ghost use Rattle.design_model.specs.View.{design_view, target_view, targets_of};
ghost use Rattle.value_store.specs.body_replay.Contract.{target_spots, targets_spots};
ghost use Rattle.value_store.specs.body_replay.Replay.{hit};
ghost use Rattle.term_replay.specs.Noted.{Adds};

use crate::terms::note_term;
use crate::words::note_words;
use design_model::{Design, Target};
use term_replay::{Access, Notes};

/// Notes the spots of a target.
#[cycle(targets)]
pub(crate) fn note_target<N: Notes>(design: &Design, target: &Target, notes: &mut N)
    ensures { Adds N.noted notes.old (map hit (target_spots (design_view design.now) (target_view target.now))) notes.new }
{
    match target {
        Target::Whole(_) => {}
        Target::Part { low, .. } => note_term(design, low, notes),
        Target::Word { memory, index } => {
            note_term(design, index, notes);
            note_words(Access::Write, design, *memory, notes);
        }
        Target::Several(parts) => note_targets(design, parts, notes),
    }
}

/// Notes the spots of targets.
#[cycle(targets)]
fn note_targets<N: Notes>(design: &Design, targets: &[Target], notes: &mut N)
    ensures { Adds N.noted notes.old (map hit (targets_spots (design_view design.now) (targets_of (map target_view targets.now)))) notes.new }
{
    for target in targets {
        note_target(design, target, notes);
    }
}
