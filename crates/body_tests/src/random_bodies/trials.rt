//! A body that looks random, run in all four ways on values that are partly known, and on all values that these allow.

ghost use Rattle.design_model.specs.Lawful.{IsLawfulDesign};
ghost use Rattle.design_model.specs.View.{design_view};

use crate::random_bodies::bodies::body_text;
use crate::random_bodies::random::Random;
use crate::random_bodies::spots::{are_by, has_doubt, has_spots, hits_within, same_spots};
use crate::random_bodies::starts::{allowed, allows, count_of, given_of, left_by, start_of};
use block_runs::Certainty;
use body_trials::{Mark, run_block};
use design_model::Design;
use lent_designs::{DesignUser, lend_design};
use std::alloc::Global;

/// The time of the step.
const TIME: u64 = 5;

/// The thing that makes a block run perhaps or weakly: the clock, which no body reads.
const CLOCK: u32 = 0;

/// What a run leaves, as digits, and what it notes.
#[derive(Drop)]
struct Ran {
    digits: Vec<u8>,
    marks: Vec<Mark>,
}

/// A trial of the body with this number, and what is wrong with it.
#[derive(Drop)]
struct Trial {
    number: u64,
    fault: Option<&'static str>,
}

impl DesignUser for Trial {
    fn take(&mut self, alloc: Global, design: &Design) {
        self.fault = try_body(alloc, design, self.number);
    }
}

/// What is wrong with the runs of the body with this number.
pub(crate) fn fault_of(alloc: Global, number: u64) -> Option<&'static str> {
    let Some(text) = body_text(alloc, number) else {
        return Some("no text");
    };
    let mut trial = Trial {
        number,
        fault: None,
    };
    if lend_design(alloc, text.as_slice(), &mut trial) {
        trial.fault
    } else {
        Some("no design")
    }
}

/// What is wrong with the runs of the first process on digits that look random.
fn try_body(alloc: Global, design: &Design, number: u64) -> Option<&'static str>
    requires { IsLawfulDesign (design_view design.now) }
{
    let mut random = Random::new(number.wrapping_add(1_000_000));
    let Some(start) = start_of(alloc, &mut random) else {
        return Some("no start");
    };
    let Some(clean) = run_on(
        alloc,
        design,
        start.as_slice(),
        Certainty::Clean { time: TIME },
    ) else {
        return Some("no clean run");
    };
    let fault = ways_fault(alloc, design, start.as_slice(), &clean);
    if fault.is_some() {
        return fault;
    }
    exact_fault(alloc, design, start.as_slice(), &clean)
}

/// What the run of the first process on these digits leaves and notes.
fn run_on(alloc: Global, design: &Design, digits: &[u8], how: Certainty) -> Option<Ran>
    requires { IsLawfulDesign (design_view design.now) }
{
    let given = given_of(alloc, design, digits)?;
    let outcome = run_block(alloc, design, given.as_slice(), 0, how).ok()??;
    let digits = left_by(alloc, &outcome)?;
    Some(Ran {
        digits,
        marks: outcome.marks,
    })
}

/// What is wrong with the runs in the other ways, beside the clean one: a quiet one leaves the same and notes nothing; one
/// that is made perhaps leaves the same and notes each spot as a doubt by the clock.
fn ways_fault(alloc: Global, design: &Design, start: &[u8], clean: &Ran) -> Option<&'static str>
    requires { IsLawfulDesign (design_view design.now) }
{
    let Some(quiet) = run_on(alloc, design, start, Certainty::Quiet) else {
        return Some("no quiet run");
    };
    if quiet.digits.as_slice() != clean.digits.as_slice() || !quiet.marks.is_empty() {
        return Some("quiet");
    }
    let how = Certainty::Perhaps {
        time: TIME,
        thing: CLOCK,
    };
    let Some(perhaps) = run_on(alloc, design, start, how) else {
        return Some("no run perhaps");
    };
    let are_same = same_spots(perhaps.marks.as_slice(), clean.marks.as_slice());
    if perhaps.digits.as_slice() != clean.digits.as_slice() || !are_same {
        return Some("perhaps");
    }
    if !are_by(perhaps.marks.as_slice(), CLOCK, TIME) {
        return Some("doubt of a run perhaps");
    }
    None
}

/// What is wrong with a clean and a weak run beside the runs on all values that are allowed.
fn exact_fault(alloc: Global, design: &Design, start: &[u8], clean: &Ran) -> Option<&'static str>
    requires { IsLawfulDesign (design_view design.now) }
{
    let how = Certainty::Weak {
        time: TIME,
        thing: CLOCK,
    };
    let Some(weak) = run_on(alloc, design, start, how) else {
        return Some("no weak run");
    };
    if !are_by(weak.marks.as_slice(), CLOCK, TIME) {
        return Some("doubt of a weak run");
    }
    for number in 0..count_of(start) {
        let Some(values) = allowed(alloc, start, number) else {
            return Some("no values");
        };
        let how = Certainty::Clean { time: TIME };
        let Some(exact) = run_on(alloc, design, values.as_slice(), how) else {
            return Some("no exact run");
        };
        let fault = beside(clean, &weak, values.as_slice(), &exact);
        if fault.is_some() {
            return fault;
        }
    }
    None
}

/// What is wrong with a clean and a weak run beside the run on values that are allowed.
fn beside(clean: &Ran, weak: &Ran, values: &[u8], exact: &Ran) -> Option<&'static str> {
    let left = exact.digits.as_slice();
    let visits = exact.marks.as_slice();
    if has_doubt(visits) || left.contains(&b'?') {
        Some("doubt on sure values")
    } else if !allows(clean.digits.as_slice(), left) {
        Some("bit")
    } else if !hits_within(clean.marks.as_slice(), visits) {
        Some("hit")
    } else if !has_spots(clean.marks.as_slice(), visits) {
        Some("visit")
    } else if !allows(weak.digits.as_slice(), left) || !allows(weak.digits.as_slice(), values) {
        Some("weak bit")
    } else if !has_spots(weak.marks.as_slice(), visits) {
        Some("weak visit")
    } else {
        None
    }
}
