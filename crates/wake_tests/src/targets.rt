//! Which bits the processes of small designs write, and at the changes of which bits they act.
//!
//! Each answer is worked out by hand. It has two parts for each process: the signals that its blocking assignments write,
//! each with the sum of the powers of two of its places, and what it watches, with the places that it does not write itself.
//! What comes after a plus sign is in a list of names, or is read in a loop without turns alone, and the flat body does not
//! mention it.

ghost use Rattle.std.specs.Prelude.{◌≡◌, ◌≤◌, length};
ghost use Rattle.design_model.specs.Lawful.{IsLawfulDesign};
ghost use Rattle.design_model.specs.View.{design_view};
ghost use Rattle.process_targets.specs.Rows.{AreTargetRows};

use crate::comparison::Comparison;
use crate::names::name_of;
use crate::script::fault_of;
use design_model::Design;
use index_sets::Rows;
use process_order::process_tables;
use process_targets::{Bits, target_rows};
use std::alloc::Global;
use wake_bits::{Wake, wake_rows};

/// Says the bits that each process of a design writes and watches.
pub(crate) fn say_rows(alloc: Global, design: &Design, said: &mut Comparison) -> bool
    requires { IsLawfulDesign (design_view design.now) }
{
    if design.processes.len() > 100 {
        return false;
    }
    match target_rows(alloc, design) {
        Ok(targets) => say_with_targets(alloc, design, &targets, said),
        Err(_) => false,
    }
}

/// Says the bits that each process of a design writes, which are given, and watches.
fn say_with_targets(
    alloc: Global,
    design: &Design,
    targets: &Rows<Bits>,
    said: &mut Comparison,
) -> bool
    requires lawful { IsLawfulDesign (design_view design.now) }
    requires few { length design.now.processes ≤ 100 }
    requires targets { AreTargetRows (design_view design.now) targets.now }
{
    match process_tables(alloc, design, &[]) {
        Ok(tables) => match wake_rows(alloc, design, &tables.watched, targets) {
            Ok(wakes) => {
                say_each(design, targets, &wakes, said);
                true
            }
            Err(_) => false,
        },
        Err(_) => false,
    }
}

/// Says the rows of each process.
fn say_each(design: &Design, targets: &Rows<Bits>, wakes: &Rows<Wake>, said: &mut Comparison)
    requires targets { length targets.now ≡ length design.now.processes }
    requires wakes { length wakes.now ≡ length design.now.processes }
{
    for process in 0..design.processes.len() {
        if process > 0 {
            said.say(b";");
        }
        say_targets(design, targets.row(process), said);
        say_wakes(design, wakes.row(process), said);
    }
}

/// Says what a process writes.
fn say_targets(design: &Design, row: &[Bits], said: &mut Comparison) {
    said.say(b" writes");
    for bits in row {
        say_places(design, b" ", bits.signal, bits.mask, said);
    }
}

/// Says what a process watches.
fn say_wakes(design: &Design, row: &[Wake], said: &mut Comparison) {
    said.say(b", watches");
    for wake in row {
        let mark: &[u8] = if wake.mentioned { b" " } else { b"+" };
        say_places(design, mark, wake.thing, wake.mask, said);
    }
}

/// Says a mark, the name of a signal or memory, and a mask.
fn say_places(design: &Design, mark: &[u8], thing: u32, mask: u128, said: &mut Comparison) {
    said.say(mark);
    said.say(name_of(design, thing as usize));
    said.say(b"=");
    said.say_number(mask);
}

const ROWS: &str = "
====
module m(input [3:0] a, output [3:0] y, output [7:4] z);
  assign y = ~a;
  assign z[7:6] = a[1:0];
  assign z[4 + 1] = a[2];
endmodule
----
# All of y, and two parts of z: one from its highest bit down, and one of a bit by a constant sum.
rows: writes y=15, watches a=15; writes z=12, watches a=15; writes z=2, watches a=15
====
module m(input [1:0] a, output [0:3] y);
  assign y[0] = a[0];
  assign y[1:2] = a;
endmodule
----
# The bit with index 0 is the highest one of y, and bits 1 and 2 are in the middle.
rows: writes y=8, watches a=3; writes y=6, watches a=3
====
module m(input a, input [1:0] i, output reg [3:0] y);
  always @* begin y = 0; y[i] = a; end
endmodule
----
# By an index that varies any bit may be written, and no bit of y wakes the block.
rows: writes y=15, watches i=3 a=1
====
module m(input [4:0] a, output reg c, output reg [3:0] y);
  always @* {y[3], c, y[1:0]} = a;
endmodule
----
# The parts of a concatenation, the first one first. The parts of y are of one row.
rows: writes y=11 c=1, watches a=31
====
module m(input a, output reg [1:0] y);
  always @* begin y[0] = a; if (y[0]) y[0] = y[1]; end
endmodule
----
# The block writes bit 0 of y, and reads bits 0 and 1: a change of bit 1 alone wakes it.
rows: writes y=1, watches a=1 y=2
====
module m(input a, output reg y, output reg [1:0] z);
  always @* begin y = a; z[1'bx] = a; end
endmodule
----
# An index with an x is that of no bit: the block names z and writes none of it.
rows: writes y=1 z=0, watches a=1
====
module m(input a, input [2:0] b, output reg y);
  always @(a or b) y = a;
endmodule
----
# b is in the list of names alone.
rows: writes y=1, watches a=1+b=7
====
module m(input a, input [2:0] b, input c, output reg y);
  integer i, j;
  always @* begin
    for (i = 0; i < 0; i = i + 1)
      for (j = c; j < 2; j = j + 1) y = b[j];
    y = a;
  end
endmodule
----
# What a loop without turns reads is no part of the flat body, and wakes the block all the same.
rows: writes y=1, watches a=1+c=1+b=7
====
module m(input clk, input [1:0] i, input d, output reg q, output w);
  reg t;
  reg r [0:3];
  assign w = r[i];
  always @(posedge clk) begin t = d; q <= t; r[i] <= t; end
endmodule
----
# What a block at an edge writes by blocking assignments has a row; it watches nothing. A memory has no places.
rows: writes w=1, watches i=3 r=0; writes t=1, watches
====
module m(input [1:0] i, input [1:0] j, input [3:0] v, input a, output w, output [1:0] x, output reg y);
  reg [3:0] r [0:3];
  assign w = r[i][j];
  assign x = v[j +: 2];
  always @*
    case (1'b1)
      a: y = 0;
      default: y = v[i];
      j[0]: y = 1;
    endcase
endmodule
----
# In order of reading: an index before what it indexes, that of a bit before the word, and all labels before the default.
rows: writes w=1, watches j=3 i=3 r=0; writes x=3, watches j=3 v=15; writes y=1, watches a=1 j=3 i=3 v=15
";

#[test]
fn bits_of_processes(rt: HostRuntime) {
    let (part, line) = fault_of(rt.alloc(), ROWS).unwrap_or((0, 0));
    assert!(rt; part == 0, "part {part}, line {line}");
}
