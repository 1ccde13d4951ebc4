ghost use Rattle.std.specs.Prelude.{◌≡◌, ℕ, Bool, length, map};
ghost use Rattle.design_model.specs.Tree as t;
ghost use Rattle.design_model.specs.View.{term_view, terms_of};
ghost use Rattle.scene_laws.specs.body_replay.Replay.{deeper, label_first, label_marks, labels_blame, labels_match};
ghost use Rattle.scene_laws.specs.term_replay.Noted.{Adds, in_this};
ghost use Rattle.scene_laws.specs.term_replay.Questions.{IsAnswer};
ghost use Rattle.scene_laws.specs.Contexts.{AreLabels};
ghost use Rattle.case_labels.specs.Labels.{undecided_after};

use design_model::Term;
use four_state::CaseKind;
use known_state::{Known, Maybe};
use scene_laws::{Notes, Progress, Reads, evaluate};

/// Whether some label of an arm matches the selector, and the blame of the first read of the run that was not wholly sure,
/// after the labels are evaluated.
#[derive(Clone, Copy)]
pub struct LabelsMatch {
    pub answer: Maybe,
    pub first: Option<u32>,
}

/// The run in a branch of a test that is not decided. The outermost such test stays to blame.
pub fn within(run: Progress, test: u32) -> Progress
    ensures { result ≡ record { mode = deeper run.mode test; first = run.first } }
{
    Progress {
        mode: Some(run.mode.unwrap_or(test)),
        first: run.first,
    }
}

/// The answer so far, after a label of which it is not decided whether it matches: the first such label is to blame.
fn with_undecided(answer: Maybe, thing: u32) -> Maybe
    ensures { result ≡ undecided_after answer thing }
{
    match answer {
        Maybe::Unsure(first) => Maybe::Unsure(first),
        Maybe::Yes | Maybe::No => Maybe::Unsure(thing),
    }
}

/// Evaluates the labels of an arm in order, up to one that is sure to match the selector. After a label of which it is not
/// decided whether it matches the others may not be evaluated, and what they note is a doubt.
pub fn matched<R: Reads, N: Notes>(
    reads: &R,
    kind: CaseKind,
    on: &Known,
    labels: &[Term],
    run: Progress,
    notes: &mut N,
) -> LabelsMatch
    requires { (signed : Bool) × AreLabels (R.scene reads.now).design (length on.now.bits) signed (terms_of (map term_view labels.now)) }
    ensures answer { IsAnswer (labels_match (R.scene reads.now).design kind on.now.bits (R.scene reads.now).kept (terms_of (map term_view labels.now))) (labels_blame (R.scene reads.now).design kind on.now.bits on.now.blame (R.scene reads.now).kept (R.scene reads.now).blames run.first (terms_of (map term_view labels.now))) result.answer }
    ensures first { result.first ≡ label_first (R.scene reads.now).design kind on.now.bits (R.scene reads.now).kept (R.scene reads.now).blames (terms_of (map term_view labels.now)) run.first }
    ensures notes { Adds N.noted notes.old (in_this run.mode (label_marks (R.scene reads.now).design kind on.now.bits on.now.blame (R.scene reads.now).kept (R.scene reads.now).blames (terms_of (map term_view labels.now)) run.first)) notes.new }
{
    let mut run = run;
    let mut answer = Maybe::No;
    for label in labels {
        let label = evaluate(reads, label, run, notes);
        run = run.after(label.first);
        match Known::label(kind, on, &label.value) {
            Maybe::Yes => {
                return LabelsMatch {
                    answer: Maybe::Yes,
                    first: run.first,
                };
            }
            Maybe::No => {}
            Maybe::Unsure(thing) => {
                answer = with_undecided(answer, thing);
                run = within(run, thing);
            }
        }
    }
    LabelsMatch {
        answer,
        first: run.first,
    }
}
