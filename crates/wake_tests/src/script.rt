//! Scripts of questions about designs.
//!
//! A script has parts that begin after a line `====`. The first lines of a part, up to a line `----`, are the source of a
//! module `m`. Each line after it is one of these, where what comes after the colon is the answer.
//!
//! | Line | Meaning |
//! |---|---|
//! | `# ..` | a comment |
//! | `first clk=01 d=??: ..` | the sets of a step by its first round (`steps`, `answers`) |
//! | `last clk=01 h=01: ..` | the sets of a step by its last round |
//! | `turns clk=??: ..` | what may move and which processes can wake in a step in which no signal that the dump gives changes (`turns`) |
//! | `once h=??: ..` | the signals that are written once (`writers`) |
//! | `order q=??: ..` | the order of the processes (`orders`) |
//! | `rows: ..` | the bits that each process writes and watches (`targets`) |
//!
//! The dump gives all signals except those whose name is given with `=??`. A name with two bits is a signal that changes, with
//! its lowest bit before and after the step.

ghost use Rattle.design_model.specs.Lawful.{IsLawfulDesign};
ghost use Rattle.design_model.specs.View.{design_view};

use crate::comparison::Comparison;
use crate::names::bound_signals;
use crate::rounds::{Question, say_step};
use crate::{orders, targets, writers};
use design_model::Design;
use lent_designs::{DesignUser, lend_design};
use std::alloc::Global;

/// The lines of a part of a script, and the first of them that does not hold.
#[derive(Drop)]
struct Lines {
    text: &'static str,
    /// Its number from 1 on, 0 if all hold.
    fault: usize,
}

impl DesignUser for Lines {
    fn take(&mut self, alloc: Global, design: &Design) {
        self.fault = first_fault(alloc, design, self.text);
    }
}

/// The number of the first part of a script of which a line does not hold, with that of the line after `----`, each from 1 on;
/// None if all hold. The line is 0 where the source is refused.
pub(crate) fn fault_of(alloc: Global, script: &'static str) -> Option<(usize, usize)> {
    for (part, text) in script.split("====\n").enumerate().skip(1) {
        let (source, text) = text.split_once("----\n").unwrap_or((text, "?"));
        let mut lines = Lines { text, fault: 0 };
        let is_lent = lend_design(alloc, source.as_bytes(), &mut lines);
        if !is_lent || lines.fault > 0 {
            return Some((part, lines.fault));
        }
    }
    None
}

/// The number of the first line that does not hold, from 1 on, 0 if all hold.
fn first_fault(alloc: Global, design: &Design, text: &str) -> usize
    requires { IsLawfulDesign (design_view design.now) }
{
    for (place, line) in text.lines().enumerate() {
        if !line.starts_with('#') && !holds(alloc, design, line) {
            return place.saturating_add(1);
        }
    }
    0
}

/// Whether a line has the answer to its question.
fn holds(alloc: Global, design: &Design, line: &str) -> bool
    requires { IsLawfulDesign (design_view design.now) }
{
    let (question, expected) = line.split_once(':').unwrap_or((line, "?"));
    let (kind, words) = question.split_once(' ').unwrap_or((question, ""));
    let mut said = Comparison::with(expected);
    match bound_signals(alloc, design, words) {
        Ok(bound) => {
            answer(alloc, design, bound.as_slice(), kind, words, &mut said) && said.holds()
        }
        Err(_) => false,
    }
}

/// Says the answer to a question. The result is whether there is one: not where the words are wrong or memory runs out.
fn answer(
    alloc: Global,
    design: &Design,
    bound: &[bool],
    kind: &str,
    words: &str,
    said: &mut Comparison,
) -> bool
    requires { IsLawfulDesign (design_view design.now) }
{
    match kind {
        "first" => say_step(alloc, design, bound, Question::First, words, said),
        "last" => say_step(alloc, design, bound, Question::Last, words, said),
        "turns" => say_step(alloc, design, bound, Question::Turns, words, said),
        "once" => writers::say_writers(alloc, design, bound, said),
        "order" => orders::say_order(alloc, design, bound, said),
        "rows" => targets::say_rows(alloc, design, said),
        _ => false,
    }
}

const REFUSED: &str = "
====
module m(input clk, output reg q);
  always @(posedge clk) q <= missing;
endmodule
----
once:
";

/// A name is not declared.
#[test]
fn a_refused_source(rt: HostRuntime) {
    let (part, line) = fault_of(rt.alloc(), REFUSED).unwrap_or((0, 0));
    assert!(rt; part == 1 && line == 0, "part {part}, line {line}");
}

const WRONG: &str = "
====
module m(input a, output y);
  assign y = a;
endmodule
----
rows: writes y=1, watches a=1
rows: writes y=1, watches a=1; writes
====
module m(input a, output y);
  assign y = a;
endmodule
----
rows: writes y=1
";

/// The second answer has a word too much.
#[test]
fn a_wrong_answer(rt: HostRuntime) {
    let (part, line) = fault_of(rt.alloc(), WRONG).unwrap_or((0, 0));
    assert!(rt; part == 1 && line == 2, "part {part}, line {line}");
}
