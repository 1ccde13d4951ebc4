//! Combinational blocks.

use crate::scripts::script::fault_of;

const COMBINATIONAL: &str = "
====
module m(input a, output reg y);
  always @* begin : block
    y = a;
  end
endmodule
----
# begin-with-a-name, at 5.
known a=1 y=?
clean 0
notes l1
keeps y=1
====
module m(input a, input b, output reg y); always @* y = a & b; endmodule
----
# comb-both-inputs-move, at 5. Only the settled values are scored.
known a=1 b=0 y=?
clean 0
notes l1 c1:-0
keeps y=0
# comb-start-value-is-free, at 5.
known a=1 b=0 y=?
clean 0
notes l1 c1:-0
keeps y=0
# comb-start-value-is-free, at 10.
known a=1 b=1 y=?
clean 0
notes l1 c1:11
keeps y=1
# gap-comb-free-at-stretch-start, at 25.
known a=0 b=1 y=?
clean 0
notes l1 c1:0-
keeps y=0
# Beyond the example cases: b is 1, so -0 is missed, and 11 and 0- hang on a, as y does.
known a=? b=1 y=0
clean 0
notes l1 c1:11?a c1:0-?a
keeps y=?
# b is 0, so y is 0 and 11 missed whatever a is.
known a=? b=0 y=1
clean 0
notes l1 c1:0-?a c1:-0
keeps y=0
# Both are open: 11 is blamed on the first, -0 on b.
known a=? b=? y=1
clean 0
notes l1 c1:11?a c1:0-?a c1:-0?b
keeps y=?
# Weakly each case is left open, and y stays known only where it must.
weak 0 b
notes l1?b c1:11?b c1:0-?b c1:-0?b
keeps y=?
====
module m(input a, output reg y);
  reg w;
  always @* y = ~w;
  always @* w = ~a;
endmodule
----
# comb-reads-another-comb, at 5. The block that reads w need not have run.
known a=1 w=? y=?
clean 1
notes l2 c2:0
keeps w=0
# comb-reads-another-comb, at 5.
known a=1 w=0 y=?
perhaps 0 w
notes l1?w c1:1?w
keeps y=1
====
module m(input a, output reg y);
  always @* y = a ^ y;
endmodule
----
# comb-reads-its-own-target, at 5. The left operand is decided, the own target is not.
known a=1 y=?
clean 0
notes l1 c1:10?y c1:11?y
keeps y=?
====
module m(input clk, input a, input b, output reg q);
  reg y;
  always @* y = a & b;
  always @(posedge clk) if (y) q <= 1; else q <= 0;
endmodule
----
# combinational-scored-when-settled, at 5.
known a=1 b=0 y=?
clean 0
notes l1 c1:-0
keeps y=0
# combinational-scored-when-settled, at 10.
known clk=1 y=0 q=x
clean 1
notes l2 c2:0 l4
keeps q=0
# undumped-combinational, at 5.
known a=1 b=1 y=?
clean 0
notes l1 c1:11
keeps y=1
# undumped-combinational, at 10.
known clk=1 y=1 q=x
clean 1
notes l2 c2:1 l3
keeps q=1
# Beyond the example cases: y is not known.
known clk=1 y=? q=0
clean 1
notes l2 c2:0?y c2:1?y l3?y l4?y
keeps q=?
====
module m(input en, input d, output reg y); always @* if (en) y = d; endmodule
----
# latch-closes-while-data-moves, at 5. A run may move d before en.
known en=0 d=1 y=?
clean 0
notes l1 c1:0
keeps y=?
# Beyond the example cases: the branches leave 1 and 0.
known en=? d=1 y=0
clean 0
notes l1 c1:0?en c1:1?en l2?en
keeps y=?
# Both branches leave 0.
known en=? d=0 y=0
clean 0
notes l1 c1:0?en c1:1?en l2?en
keeps y=0
# The latch is open.
known en=1 d=? y=0
clean 0
notes l1 c1:1 l2
keeps y=?
====
module m(input clk, input en, input d, output reg q);
  reg y;
  always @* if (en) y = d;
  always @(posedge clk) if (y) q <= 1; else q <= 0;
endmodule
----
# latch-undumped, at 5. A latch that the dump lacks keeps a value that is not known.
known en=0 d=1 y=?
clean 0
notes l1 c1:0
keeps y=?
# latch-undumped, at 10.
known clk=1 y=? q=x
clean 1
notes l3 c2:0?y c2:1?y l4?y l5?y
keeps q=?
====
module m(input a, input b, output reg y);
  always @(a, b or a) y = a | b;
endmodule
----
# list-of-names-with-commas, at 5.
known a=0 b=1 y=?
clean 0
notes l1 c1:-1
keeps y=1
====
module m(input a, input b, output reg y);
  reg t;
  always @* begin
    t = a & b;
    y = ~t;
  end
endmodule
----
# temporary-in-comb, at 5.
known a=1 b=1 t=? y=?
clean 0
notes l1 c1:11 l2 c2:0
keeps t=1 y=0
# temporary-in-comb, at 10.
known a=1 b=0 t=? y=?
clean 0
notes l1 c1:-0 l2 c2:1
keeps t=0 y=1
# Beyond the example cases: the blame of the temporary is that of its operands.
known a=1 b=? t=? y=?
clean 0
notes l1 c1:11?b c1:-0?b l2 c2:0?b c2:1?b
keeps t=? y=?
====
module m(input clk, input go, output reg st);
  reg nx;
  always @* begin
    nx = st;
    case (st)
      0: if (go) nx = 1;
      1: nx = 0;
    endcase
  end
  always @(posedge clk) st <= nx;
endmodule
----
# two-block-machine, at 5.
known go=1 st=0 nx=?
clean 0
notes l1 l2 l3 c1:1 l4
keeps nx=1
# two-block-machine, at 10.
known clk=1 nx=1 st=0
clean 1
notes l6
keeps st=1
# two-block-machine, at 10.
known go=1 st=1 nx=?
clean 0
notes l1 l2 l5
keeps nx=0
# two-block-machine, at 20.
known clk=1 nx=0 st=1
clean 1
notes l6
keeps st=0
# two-block-machine, at 20.
known go=1 st=0 nx=?
clean 0
notes l1 l2 l3 c1:1 l4
keeps nx=1
";

#[test]
fn runs_of_combinational(rt: HostRuntime) {
    let (part, line) = fault_of(rt.alloc(), COMBINATIONAL).unwrap_or((0, 0));
    assert!(rt; part == 0, "part {part}, line {line}");
}
