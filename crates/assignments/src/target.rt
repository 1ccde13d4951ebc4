//! The parts of a target, with their indexes evaluated.

ghost use Rattle.std.specs.Prelude.{◌≡◌, ◌+◌, ◌≤◌, length, map, true};
ghost use Rattle.design_model.specs.Assignment.{target_width, targets_width};
ghost use Rattle.design_model.specs.Lawful.{span as span_of};
ghost use Rattle.design_model.specs.Shape.{are_targets, is_target};
ghost use Rattle.design_model.specs.View.{target_view, targets_of};
ghost use Rattle.value_store.specs.body_replay.Replay.{index_first, index_marks, indexes_first, indexes_marks};
ghost use Rattle.scene_laws.specs.term_replay.Noted.{Adds, in_this};
ghost use Rattle.assignments.specs.Pieces.{AllLocated, Located};
ghost use Rattle.assignments.specs.Widths.{HasWidths};

use crate::Piece;
use design_model::{Range, Target};
use scene_laws::{Lvalue, Notes, Progress, Reads, evaluate};
use value_store::Queue;

/// How many bits a range has.
fn span(range: Range) -> u8
    requires { span_of range.high range.low ≤ 128 }
    ensures { result ≡ span_of range.high range.low }
{
    (range.high.max(range.low) - range.high.min(range.low) + 1) as u8
}

/// Evaluates the indexes of a target in order, and adds its parts to those before. What is returned is the first read of the
/// run that was not wholly sure.
#[cycle(targets)]
pub fn locate<R: Reads, N: Notes>(
    reads: &R,
    target: &Target,
    run: Progress,
    pieces: &mut Queue<Piece>,
    notes: &mut N,
) -> Option<u32>
    requires target { is_target (R.scene reads.now).design (target_view target.now) ≡ true }
    requires widths { HasWidths (R.scene reads.now).design }
    requires room { length pieces.old.items + target_width (R.scene reads.now).design (target_view target.now) ≤ pieces.old.room }
    ensures first { result ≡ index_first (R.scene reads.now).design (R.scene reads.now).kept (R.scene reads.now).blames run.first (target_view target.now) }
    ensures notes { Adds N.noted notes.old (in_this run.mode (index_marks (R.scene reads.now).design (R.scene reads.now).kept (R.scene reads.now).blames run.first (target_view target.now))) notes.new }
    ensures pieces { Located (R.scene reads.now) run.first (target_view target.now) pieces.old pieces.new }
{
    match target {
        Target::Whole(signal) => {
            let width = span(reads.signal_range(*signal));
            let to = Lvalue::Signal(*signal);
            pieces.push(Piece { to, width });
            run.first
        }
        Target::Part { signal, low, width } => {
            let low = evaluate(reads, low, run, notes);
            let to = Lvalue::Part {
                signal: *signal,
                low: low.value,
            };
            pieces.push(Piece { to, width: *width });
            low.first
        }
        Target::Word { memory, index } => {
            let width = span(reads.word_range(*memory));
            let index = evaluate(reads, index, run, notes);
            let to = Lvalue::Word {
                memory: *memory,
                index: index.value,
            };
            pieces.push(Piece { to, width });
            index.first
        }
        Target::Several(targets) => locate_all(reads, targets, run, pieces, notes),
    }
}

/// The same of several targets.
#[cycle(targets)]
fn locate_all<R: Reads, N: Notes>(
    reads: &R,
    targets: &[Target],
    run: Progress,
    pieces: &mut Queue<Piece>,
    notes: &mut N,
) -> Option<u32>
    requires targets { are_targets (R.scene reads.now).design (targets_of (map target_view targets.now)) ≡ true }
    requires widths { HasWidths (R.scene reads.now).design }
    requires room { length pieces.old.items + targets_width (R.scene reads.now).design (targets_of (map target_view targets.now)) ≤ pieces.old.room }
    ensures first { result ≡ indexes_first (R.scene reads.now).design (R.scene reads.now).kept (R.scene reads.now).blames run.first (targets_of (map target_view targets.now)) }
    ensures notes { Adds N.noted notes.old (in_this run.mode (indexes_marks (R.scene reads.now).design (R.scene reads.now).kept (R.scene reads.now).blames run.first (targets_of (map target_view targets.now)))) notes.new }
    ensures pieces { AllLocated (R.scene reads.now) run.first (targets_of (map target_view targets.now)) pieces.old pieces.new }
{
    let mut first = run.first;
    for target in targets {
        first = locate(reads, target, run.after(first), pieces, notes);
    }
    first
}
