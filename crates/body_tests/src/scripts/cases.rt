//! Case statements.

use crate::scripts::script::fault_of;

const CASES: &str = "
====
module m(input [1:0] s, output reg [1:0] y);
  always @*
    casez (s)
      2'b1?: y = 0;
      2'b0?: y = 1;
      default: y = 2;
    endcase
endmodule
----
# casez-labels, at 5.
known s=x0 y=??
clean 0
notes l1 l4
keeps y=10
# casez-labels, at 10.
known s=z0 y=??
clean 0
notes l1 l2
keeps y=00
# casez-labels, at 15.
known s=1x y=??
clean 0
notes l1 l2
keeps y=00
# Beyond the example cases: bit 1 decides, and where it is x no label matches.
known s=?0 y=11
clean 0
notes l1 l2?s l3?s l4?s
keeps y=??
# Bit 0 of both labels matches anything.
known s=1? y=11
clean 0
notes l1 l2
keeps y=00
known s=0? y=11
clean 0
notes l1 l3
keeps y=01
====
module m(input clk, input [1:0] op, output reg q);
  always @(posedge clk)
    casez (op)
      2'b00, 2'b11: q <= 0;
      2'b?1: q <= 1;
      default ;
    endcase
endmodule
----
# case-arm-of-several-labels, at 5.
known clk=1 op=01 q=0
clean 0
notes l1 l3
keeps q=1
# case-arm-of-several-labels, at 15.
known clk=1 op=11 q=1
clean 0
notes l1 l2
keeps q=0
# case-arm-of-several-labels, at 25.
known clk=1 op=10 q=0
clean 0
notes l1
keeps q=0
====
module m(input s, output reg [1:0] y);
  always @*
    case (s)
      1'bx: y = 1;
      1'bz: y = 2;
      default: y = 0;
    endcase
endmodule
----
# case-compares-x-exactly, at 5.
known s=z y=??
clean 0
notes l1 l3
keeps y=10
# case-compares-x-exactly, at 10.
known s=x y=??
clean 0
notes l1 l2
keeps y=01
====
module m(input s, output reg [1:0] y);
  always @*
    case (s)
      default: y = 3;
      1: y = 1;
    endcase
endmodule
----
# case-default-stands-first, at 5.
known s=1 y=??
clean 0
notes l1 l3
keeps y=01
# case-default-stands-first, at 10.
known s=x y=??
clean 0
notes l1 l2
keeps y=11
====
module m(input a, input b, output reg y);
  always @*
    case (1'b1)
      ~a: y = 0;
      ~b: y = 1;
      default: y = 0;
    endcase
endmodule
----
# case-labels-evaluated-up-to-match, at 5. The second label is not evaluated once the first has matched.
known a=0 b=1 y=?
clean 0
notes l1 c1:1 l2
keeps y=0
# Beyond the example cases: the first label may match, so the second one may be evaluated.
known a=? b=0 y=0
clean 0
notes l1 c1:0?a c1:1?a l2?a c2:1?a l3?a
keeps y=?
# The first label is sure to match.
known a=0 b=? y=1
clean 0
notes l1 c1:1 l2
keeps y=0
====
module m(input clk, input u, output reg q);
  always @(posedge clk)
    case (1'b1)
      u, 1'b1: q <= 1;
      default: q <= 0;
    endcase
endmodule
----
# Beyond the example cases: a sure label matches on every way, so the arm is hit though its first label is open.
known clk=1 u=? q=0
clean 0
notes l1 l2
keeps q=1
====
module m(input [1:0] s, output reg y);
  always @*
    case (s)
      3'b110: y = 1;
      1'b1: y = 1;
      default: y = 0;
    endcase
endmodule
----
# case-widths-extend, at 5.
known s=01 y=?
clean 0
notes l1 l3
keeps y=1
# case-widths-extend, at 10.
known s=10 y=?
clean 0
notes l1 l4
keeps y=0
====
module m(input [1:0] s, output reg y);
  always @* begin
    y = 0;
    case (s)
      1, 2: y = 1;
      0: ;
    endcase
  end
endmodule
----
# case-without-match, at 5.
known s=11 y=?
clean 0
notes l1 l2
keeps y=0
# case-without-match, at 10.
known s=10 y=?
clean 0
notes l1 l2 l3
keeps y=1
# case-without-match, at 15.
known s=1x y=?
clean 0
notes l1 l2
keeps y=0
====
module m(input [1:0] s, output reg [1:0] y);
  always @*
    casex (s)
      2'b1x: y = 0;
      2'bx1: y = 1;
      default: y = 2;
    endcase
endmodule
----
# casex-labels, at 5.
known s=01 y=??
clean 0
notes l1 l3
keeps y=01
# casex-labels, at 10.
known s=x0 y=??
clean 0
notes l1 l2
keeps y=00
====
module m(input clk, input [1:0] d, output reg [1:0] st);
  always @(posedge clk) begin
    casez (st)
      2'b0?: st <= 2;
      default: st <= 3;
    endcase
    case (st)
      0: st <= d;
      2'b1x: st <= 1;
      1: st[0] <= 0;
      default: st <= 0;
    endcase
  end
endmodule
----
# drawn-arcs-of-no-assignment, at 5.
known clk=1 d=01 st=00
clean 0
notes l1 l2 l4 l5
keeps st=01
====
module m(input clk, input rst, input go, output reg [1:0] st);
  parameter IDLE = 2'd0, RUN = 2'd1, DONE = 2'd2;
  reg [1:0] n;
  wire last = n == 2'd1;
  always @(posedge clk)
    if (rst) begin st <= IDLE; n <= 0; end
    else case (st)
      IDLE: if (go) st <= RUN;
      RUN: begin n <= n + 1; if (last) st <= DONE; end
      default: st <= IDLE;
    endcase
endmodule
----
# controller-with-states, at 5. The dump lacks n.
known clk=1 rst=1 go=0 st=xx n=?? last=x
clean 1
notes l1 c2:1 l2 l3
keeps st=00 n=00
# controller-with-states, at 5.
known n=00 last=?
perhaps 0 n
notes l0?n c1:01?n
keeps last=0
# controller-with-states, at 15.
known clk=1 rst=0 go=1 st=00 n=00 last=0
clean 1
notes l1 c2:0 l4 l5 c3:1 l6
keeps st=01 n=00
# controller-with-states, at 25.
known clk=1 rst=0 go=0 st=01 n=00 last=0
clean 1
notes l1 c2:0 l4 l7 c4:01 l8 c5:0
keeps st=01 n=01
# controller-with-states, at 25.
known n=01 last=?
clean 0
notes l0 c1:11
keeps last=1
# controller-with-states, at 35.
known clk=1 rst=0 go=0 st=01 n=01 last=1
clean 1
notes l1 c2:0 l4 l7 c4:11 l8 c5:1 l9
keeps st=10 n=10
# controller-with-states, at 35.
known n=10 last=?
clean 0
notes l0 c1:11
keeps last=0
# controller-with-states, at 45.
known clk=1 rst=0 go=0 st=10 n=10 last=0
clean 1
notes l1 c2:0 l4 l10
keeps st=00 n=10
# Beyond the example cases: st is 00, 01, 0x or 0z, so each arm may run. n + 1 is evaluated with 1 and 1.
known clk=1 rst=0 go=1 st=0? n=01 last=0
clean 1
notes l1 c2:0 l4 l5?st c3:1?st l6?st l7?st c4:11?st l8?st c5:0?st l10?st
keeps st=0? n=??
# The state is RUN, and the high bit of n is not known, which is true by its low bit. Where it is x the sum is all x.
known clk=1 rst=0 go=1 st=01 n=?1 last=?
clean 1
notes l1 c2:0 l4 l7 c4:11 l8 c5:0?last c5:1?last l9?last
keeps st=?? n=??
";

#[test]
fn runs_of_cases(rt: HostRuntime) {
    let (part, line) = fault_of(rt.alloc(), CASES).unwrap_or((0, 0));
    assert!(rt; part == 0, "part {part}, line {line}");
}
