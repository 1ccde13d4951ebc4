//! The signals that are written once, by the definition: the dump gives the signal, some process lists an edge of it, and
//! one process that no level wakes, as a block of edges, writes it, where on each path through the text of that process at
//! most one target names it. An answer is for each of them its name and the number of its writer.

ghost use Rattle.design_model.specs.Lawful.{IsLawfulDesign};
ghost use Rattle.design_model.specs.View.{design_view};

use crate::comparison::Comparison;
use crate::names::name_of;
use crate::script::fault_of;
use design_model::Design;
use once_writers::once_writers;
use std::alloc::Global;

/// Says which signals of a design are written once, and by which process.
pub(crate) fn say_writers(
    alloc: Global,
    design: &Design,
    bound: &[bool],
    said: &mut Comparison,
) -> bool
    requires { IsLawfulDesign (design_view design.now) }
{
    match once_writers(alloc, design, bound) {
        Ok(writers) => {
            say_each(design, writers.as_slice(), said);
            true
        }
        Err(_) => false,
    }
}

/// Says each signal that has a writer, with its writer.
fn say_each(design: &Design, writers: &[Option<u32>], said: &mut Comparison) {
    for (thing, writer) in writers.iter().enumerate() {
        if let Some(process) = writer {
            said.say(b" ");
            said.say(name_of(design, thing));
            said.say(b" ");
            said.say_number(u128::from(*process));
        }
    }
}

const WRITERS: &str = "
====
module m(input clk, input d, output reg h, output reg q);
  always @(posedge clk) h <= ~h;
  always @(posedge h) q <= d;
endmodule
----
# A divided clock, unless the dump lacks it. q and d are no event signals, clk is written by nothing.
once: h 0
once h=??:
====
module m(input clk, input r, input d, output reg n, output reg q);
  always @(posedge clk) n <= r;
  always @(posedge clk or negedge n) if (!n) q <= 0; else q <= d;
endmodule
----
# A synchronised reset.
once: n 0
====
module m(input clk, input d, output reg h, output reg q);
  always @(posedge clk) begin h = 1; h = 0; end
  always @(posedge h) q <= d;
endmodule
----
# A block that writes a pulse names h twice.
once:
====
module m(input clk, input en, input [1:0] s, output reg h, output reg k, output reg q);
  always @(posedge clk) begin
    if (en) h <= 1;
    else case (s) 2'b00: h <= 0; 2'b01: if (q) h <= 1; default: h <= s[1]; endcase
    if (en) k <= 1;
    k <= 0;
  end
  always @(posedge h or negedge k) q <= en;
endmodule
----
# The branches of if and case each write h, and no path writes it twice. k is written twice where en is 1.
once: h 0
====
module m(input clk, input [1:0] d, output reg a, output reg b, output reg c, output reg q);
  integer i;
  always @(posedge clk) begin
    {a, b} <= d;
    for (i = 0; i < 2; i = i + 1) c <= d[i];
  end
  always @(posedge a or posedge b or posedge c) q <= d[0];
endmodule
----
# The parts of a concatenation count one by one, and so do the turns of a loop, of which there are two.
once: a 0 b 0
====
module m(input a, output reg h, output k, output reg q);
  always @* h = a;
  assign k = 1'b1;
  always @(posedge h or posedge k) q <= a;
endmodule
----
# A block that each change of a wakes is no block of edges; an assignment of a constant is woken by nothing.
once: k 1
";

#[test]
fn signals_written_once(rt: HostRuntime) {
    let (part, line) = fault_of(rt.alloc(), WRITERS).unwrap_or((0, 0));
    assert!(rt; part == 0, "part {part}, line {line}");
}
