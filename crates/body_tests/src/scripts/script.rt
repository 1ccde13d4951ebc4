//! Scripts of runs.
//!
//! A script has parts that begin after a line `====`. The first lines of a part, up to a line `----`, are the source of a
//! module `m`. Each line after it is one of these.
//!
//! | Line | Meaning |
//! |---|---|
//! | `# ..` | a comment |
//! | `known a=0 m=0,1,x,?` | what is known before the next runs; of all else nothing is known |
//! | `clean 0`, `quiet 0` | the process with this number runs in this way |
//! | `perhaps 0 a`, `weak 0 a` | it runs in this way by this thing |
//! | `notes l1 c1:0?a r0 w3` | the lines, cases of nodes, and words read and written that the last run has noted, in order; a doubt is `?` and the thing that is to blame |
//! | `keeps q=1 p=?` | what the last run has left, with what it queued |
//!
//! The assignment of a net is noted as line 0, which is no point.

ghost use Rattle.design_model.specs.Lawful.{IsLawfulDesign};
ghost use Rattle.design_model.specs.View.{design_view};

use block_runs::Certainty;
use body_trials::{Given, Outcome, given_of, run_block, thing_named};
use design_model::Design;
use lent_designs::{DesignUser, lend_design};
use std::alloc::Global;

/// The time of the steps.
pub(crate) const TIME: u64 = 5;

/// The lines of a part of a script, and the first of them that does not hold.
#[derive(Drop)]
struct Lines {
    text: &'static str,
    /// Its number from 1 on, 0 if all hold.
    fault: usize,
}

impl DesignUser for Lines {
    fn take(&mut self, alloc: Global, design: &Design) {
        self.fault = first_fault(alloc, design, self.text);
    }
}

/// The number of the first part of a script of which a line does not hold, with that of the line after `----`, each from 1 on;
/// None if all hold. The line is 0 where the source is refused.
pub(crate) fn fault_of(alloc: Global, script: &'static str) -> Option<(usize, usize)> {
    for (part, text) in script.split("====\n").enumerate().skip(1) {
        let (source, text) = text.split_once("----\n").unwrap_or((text, "?"));
        let mut lines = Lines { text, fault: 0 };
        let is_lent = lend_design(alloc, source.as_bytes(), &mut lines);
        if !is_lent || lines.fault > 0 {
            return Some((part, lines.fault));
        }
    }
    None
}

/// The number of the first line that does not hold, from 1 on, 0 if all hold.
fn first_fault(alloc: Global, design: &Design, text: &str) -> usize
    requires { IsLawfulDesign (design_view design.now) }
{
    let mut given = Some(Vec::new(alloc));
    let mut outcome = None;
    for (place, line) in text.lines().enumerate() {
        let (word, rest) = line.split_once(' ').unwrap_or((line, ""));
        let holds = match word {
            "#" => true,
            "known" => {
                given = given_of(alloc, design, rest);
                given.is_some()
            }
            "notes" => has_noted(alloc, design, &outcome, rest),
            "keeps" => keeps(alloc, design, &outcome, rest),
            _ => {
                outcome = run_line(alloc, design, &given, word, rest, TIME);
                outcome.is_some()
            }
        };
        if !holds {
            return place.saturating_add(1);
        }
    }
    0
}

/// Whether a run has noted this.
fn has_noted(alloc: Global, design: &Design, outcome: &Option<Outcome>, notes: &str) -> bool {
    match outcome {
        Some(outcome) => match outcome.notes(alloc, design, TIME) {
            Ok(text) => text.as_slice().strip_prefix(b" ").unwrap_or(b"") == notes.as_bytes(),
            Err(_) => false,
        },
        None => false,
    }
}

/// Whether a run has left this.
fn keeps(alloc: Global, design: &Design, outcome: &Option<Outcome>, values: &str) -> bool {
    match outcome {
        Some(outcome) => outcome.keeps(alloc, design, values).unwrap_or(false),
        None => false,
    }
}

/// What the run of a line gives, in a step at this time.
pub(crate) fn run_line(
    alloc: Global,
    design: &Design,
    given: &Option<Vec<Given>>,
    way: &str,
    rest: &str,
    time: u64,
) -> Option<Outcome>
    requires { IsLawfulDesign (design_view design.now) }
{
    let (number, thing) = rest.split_once(' ').unwrap_or((rest, ""));
    let process = number.parse::<usize>().ok()?;
    let how = way_of(design, way, thing, time)?;
    let given = given.as_ref()?;
    run_block(alloc, design, given.as_slice(), process, how).ok()?
}

/// The way of a run in a step at this time.
fn way_of(design: &Design, way: &str, thing: &str, time: u64) -> Option<Certainty> {
    match way {
        "clean" => return Some(Certainty::Clean { time }),
        "quiet" => return Some(Certainty::Quiet),
        _ => {}
    }
    let thing = thing_named(design, thing.as_bytes())?;
    match way {
        "perhaps" => Some(Certainty::Perhaps { time, thing }),
        "weak" => Some(Certainty::Weak { time, thing }),
        _ => None,
    }
}
