//! Runs of which the notes are marked, with the verdicts of lines, nodes and words in the databases of the example cases.
//!
//! A case has the lines of a script, each for all runs of the case in order, and two more kinds.
//!
//! | Line | Meaning |
//! |---|---|
//! | `time 15` | the time of the next runs; before the first such line it is 5 |
//! | `points l1 c1:0?a l2?a@15 r0 w3` | the points that are hit or left open so far, in the order of points; a doubt has its time where that is not 5 |

ghost use Rattle.std.specs.Prelude.{◌≤◌, length};
ghost use Rattle.cover_points.specs.Listed.{points_of};
ghost use Rattle.cover_points.specs.Visits.{AreApart, AreOnce, ArePlaced};
ghost use Rattle.design_model.specs.Lawful.{IsLawfulDesign};
ghost use Rattle.design_model.specs.View.{design_view};

use crate::scripts::script::{TIME, run_line};
use crate::scripts::verdicts::shown;
use block_runs::BlockNotes;
use body_trials::{Given, Mark, given_of};
use cov_host::NoMemory;
use cover_marks::Marks;
use cover_points::{MOST_POINTS, Points, list};
use design_model::Design;
use lent_designs::{DesignUser, lend_design};
use run_marks::{MarkNotes, WrittenWords};
use state_machines::States;
use std::alloc::Global;

/// The runs of an example case: the source of a module `m`, and the lines.
struct Case {
    name: &'static str,
    source: &'static str,
    lines: &'static str,
}

static CASES: &[Case] = &[
    Case {
        name: "first-doubt-is-kept",
        source: "
module m(input clk, input a, output reg q);
  always @(posedge clk)
    if (a) q <= 1; else q <= 0;
endmodule
",
        lines: "known clk=1 a=? q=0
clean 0
time 15
known clk=1 a=? q=?
clean 0
points l1 l2?a l3?a c1:0?a c1:1?a",
    },
    Case {
        name: "later-hit-ends-a-doubt",
        source: "
module m(input clk, input a, output reg q);
  always @(posedge clk)
    if (a) q <= 1; else q <= 0;
endmodule
",
        lines: "known clk=1 a=? q=0
clean 0
points l1 l2?a l3?a c1:0?a c1:1?a
time 15
known clk=1 a=0 q=?
clean 0
points l1 l2?a l3 c1:0 c1:1?a",
    },
    Case {
        name: "ram-read-unwritten",
        source: "
module m(input clk, input we, input [1:0] wa, input [1:0] ra, input d, output reg q);
  reg m [0:3];
  always @(posedge clk)
    if (we) m[wa] <= d;
    else if (m[ra]) q <= 1; else q <= 0;
endmodule
",
        lines: "known clk=1 we=1 wa=11 ra=10 d=1 q=0
clean 0
time 15
known clk=1 we=0 wa=11 ra=10 d=1 q=0 m=?,?,?,1
clean 0
points l1 l2 l3 l4?m@15 l5?m@15 c1:0 c1:1 c2:0?m@15 c2:1?m@15 r2 w3",
    },
    Case {
        name: "two-clocks-at-once",
        source: "
module m(input c1, input c2, input d, output reg p, output reg q);
  always @(posedge c1) p <= d;
  always @(posedge c2) if (p) q <= 1; else q <= 0;
endmodule
",
        lines: "known c1=1 d=1 p=0
clean 0
points l1
known c2=1 p=? q=0
clean 1
points l1 l2 l3?p l4?p c1:0?p c1:1?p",
    },
    // Process 0 is the assignment of q, and process 1 that of p. Line 0 of an assignment is no point.
    Case {
        name: "two-instances-of-one-module",
        source: "
module m(input a, output y);
  wire w;
  inv q(w, y), p(a, w);
endmodule
module inv(input k, output o);
  assign o = ~k;
endmodule
",
        lines: "known a=1
clean 1
points c1:0
known w=0
clean 0
points c1:0 c1:1",
    },
    Case {
        name: "both-operands-false",
        source: "
module m(input a, input b, output y);
  assign y = a & b;
endmodule
",
        lines: "known a=0 b=0
clean 0
points c1:0- c1:-0",
    },
    Case {
        name: "assign-missing-input",
        source: "
module m(input a, input b, output y); assign y = a & b; endmodule
",
        lines: "time 1
known a=0 b=?
perhaps 0 b
time 5
known a=1 b=?
clean 0
points c1:0-?b@1 c1:-0?b@1 c1:11?b",
    },
    Case {
        name: "register-missing-clock",
        source: "
module m(input clk, input a, output reg q);
  always @(posedge clk)
    if (a) q <= 1; else q <= 0;
endmodule
",
        lines: "time 1
known clk=? a=1 q=0
weak 0 clk
time 5
weak 0 clk
points l1?clk@1 l2?clk@1 l3?clk@1 c1:0?clk@1 c1:1?clk@1",
    },
];

/// The lines of a case, and the first of them that does not hold.
#[derive(Drop)]
struct Lines {
    text: &'static str,
    /// Its number from 1 on, 0 if all hold.
    fault: usize,
}

impl DesignUser for Lines {
    fn take(&mut self, alloc: Global, design: &Design) {
        self.fault = match list(alloc, design, &States::new(alloc)) {
            Ok(points) => fault_of(alloc, design, &points, self.text),
            Err(_) => 1,
        };
    }
}

/// The number of the first line that does not hold with these points of the design, from 1 on, 0 if all hold.
fn fault_of(alloc: Global, design: &Design, points: &Points, text: &str) -> usize
    requires lawful { IsLawfulDesign (design_view design.now) }
    requires apart { AreApart points.now }
    requires once { AreOnce points.now }
    requires placed { ArePlaced points.now }
    requires few { length (points_of points.now) ≤ MOST_POINTS }
{
    match new_notes(alloc, design, points) {
        Ok(mut notes) => first_fault(alloc, design, text, &mut notes),
        Err(_) => 1,
    }
}

/// Notes of these points, of which none is marked, and of no memory whose words are followed.
fn new_notes<'a>(
    alloc: Global,
    design: &Design,
    points: &'a Points,
) -> Result<MarkNotes<'a>, NoMemory>
    requires lawful { IsLawfulDesign (design_view design.now) }
    requires apart { AreApart points.now }
    requires once { AreOnce points.now }
    requires placed { ArePlaced points.now }
    requires few { length (points_of points.now) ≤ MOST_POINTS }
{
    let marks = Marks::new(alloc, points)?;
    let followed = vec![in alloc; false; design.memories.len()]?;
    let written = WrittenWords::new(alloc, design, followed.as_slice())?;
    Ok(MarkNotes {
        marks,
        points,
        process: 0,
        written,
    })
}

/// The same, where the runs note their marks here.
fn first_fault(alloc: Global, design: &Design, text: &str, notes: &mut MarkNotes) -> usize
    requires { IsLawfulDesign (design_view design.now) }
{
    let mut given = Some(Vec::new(alloc));
    let mut time = Some(TIME);
    for (place, line) in text.lines().enumerate() {
        let (word, rest) = line.split_once(' ').unwrap_or((line, ""));
        let holds = match word {
            "time" => {
                time = rest.parse::<u64>().ok();
                time.is_some()
            }
            "known" => {
                given = given_of(alloc, design, rest);
                given.is_some()
            }
            "points" => are_shown(alloc, design, notes, rest),
            _ => has_run(alloc, design, &given, line, time, notes),
        };
        if !holds {
            return place.saturating_add(1);
        }
    }
    0
}

/// Whether these are the points that are hit or left open.
fn are_shown(alloc: Global, design: &Design, notes: &MarkNotes, wanted: &str) -> bool {
    match shown(alloc, design, notes, TIME) {
        Ok(text) => text.as_slice().strip_prefix(b" ").unwrap_or(b"") == wanted.as_bytes(),
        Err(_) => false,
    }
}

/// Whether the process of a line runs, whose notes are then marked.
fn has_run(
    alloc: Global,
    design: &Design,
    given: &Option<Vec<Given>>,
    line: &str,
    time: Option<u64>,
    notes: &mut MarkNotes,
) -> bool
    requires { IsLawfulDesign (design_view design.now) }
{
    let (way, rest) = line.split_once(' ').unwrap_or((line, ""));
    let (number, _) = rest.split_once(' ').unwrap_or((rest, ""));
    let Ok(process) = number.parse::<u32>() else {
        return false;
    };
    let Some(time) = time else {
        return false;
    };
    match run_line(alloc, design, given, way, rest, time) {
        Some(outcome) => {
            notes.process = process;
            note_all(outcome.marks.as_slice(), notes);
            true
        }
        None => false,
    }
}

/// Marks the points of what a run has noted, in order.
fn note_all(marks: &[Mark], notes: &mut MarkNotes) {
    for mark in marks {
        notes.note(mark.spot, mark.doubt);
    }
}

#[test]
fn marks_the_points_that_runs_note(rt: HostRuntime) {
    for case in CASES {
        let mut lines = Lines {
            text: case.lines,
            fault: 0,
        };
        let is_lent = lend_design(rt.alloc(), case.source.as_bytes(), &mut lines);
        assert!(rt;
            is_lent && lines.fault == 0,
            "{} {}",
            case.name,
            lines.fault
        );
    }
}
