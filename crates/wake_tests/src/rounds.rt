//! What is asked of the sets of a step.

ghost use Rattle.design_model.specs.Lawful.{IsLawfulDesign};
ghost use Rattle.design_model.specs.View.{design_view};

use crate::answers::say_answers;
use crate::comparison::Comparison;
use crate::steps::take_step;
use crate::turns::say_counted;
use cov_host::NoMemory;
use design_model::Design;
use early_sets::Wakes;
use once_writers::once_writers;
use std::alloc::Global;
use std::marker::Brand;
use std::sync::ledger::Blank;
use step_wakes::{wakes_in_rounds, wakes_of};

/// What is asked of a step.
#[derive(Clone, Copy)]
pub(crate) enum Question {
    /// The answers by its first round.
    First,
    /// The answers by its last round.
    Last,
    /// What may move by its first round, with the turns of its loops counted.
    Turns,
}

/// Says the answer to a question about the step in which the signals change that the words name, if the words are right.
pub(crate) fn say_step(
    alloc: Global,
    design: &Design,
    bound: &[bool],
    question: Question,
    words: &str,
    said: &mut Comparison,
) -> bool
    requires { IsLawfulDesign (design_view design.now) }
{
    match wakes_for(alloc, design, bound, question) {
        Ok(wakes) => {
            let mut wakes = wakes;
            say_of(design, &mut wakes, question, words, said)
        }
        Err(_) => false,
    }
}

/// The sets of a design for a question.
fn wakes_for(
    alloc: Global,
    design: &Design,
    bound: &[bool],
    question: Question,
) -> Result<Wakes, NoMemory>
    requires { IsLawfulDesign (design_view design.now) }
{
    match question {
        Question::First | Question::Turns => wakes_of(alloc, design, bound),
        Question::Last => {
            let writers = once_writers(alloc, design, bound)?;
            wakes_in_rounds(alloc, design, bound, writers)
        }
    }
}

/// Says the answer to a question about a step, if the words are right.
fn say_of(
    design: &Design,
    wakes: &mut Wakes,
    question: Question,
    words: &str,
    said: &mut Comparison,
) -> bool {
    match question {
        Question::First | Question::Last => {
            let is_taken = take_step(design, wakes, words);
            if is_taken {
                say_answers(design, wakes, said);
            }
            is_taken
        }
        Question::Turns => {
            say_counted::<Brand>(design, wakes, said, Blank::new(1));
            true
        }
    }
}
