//! Conditions, decided and open.

use crate::scripts::script::fault_of;

const CONDITIONS: &str = "
====
module m(input clk, input en, input a, output reg q, output reg p);
  always @(posedge clk) begin
    if (a) q <= 1;
    else if (en) q <= 0;
    p <= en;
  end
endmodule
----
# branch-closed-whichever-way, at 5. The test of a is open; en is 0, so line 4 is reached in no run. q may become 1 or stays 0.
known clk=1 en=0 a=? q=0 p=0
clean 0
notes l1 c1:0?a c1:1?a l2?a l3?a c2:0?a l5
keeps q=? p=0
# Beyond the example cases: q is 1 in each run where it was 1 before.
known clk=1 en=0 a=? q=1 p=1
clean 0
notes l1 c1:0?a c1:1?a l2?a l3?a c2:0?a l5
keeps q=1 p=0
# a is x in any run: neither case of its node, and the second branch. en is open.
known clk=1 en=? a=x q=0 p=1
clean 0
notes l1 l3 c2:0?en c2:1?en l4?en l5
keeps q=0 p=?
# What may be visited is in doubt by the thing that may make it run, and by no other.
known clk=1 en=0 a=? q=0 p=1
perhaps 0 clk
notes l1?clk c1:0?clk c1:1?clk l2?clk l3?clk c2:0?clk l5?clk
keeps q=? p=0
quiet 0
notes
keeps q=? p=0
# Weakly all points are in doubt, also line 4.
weak 0 clk
notes l1?clk c1:0?clk c1:1?clk l2?clk l3?clk c2:0?clk c2:1?clk l4?clk l5?clk
keeps q=? p=?
====
module m(input clk, input en, input [1:0] a, output reg q, output reg p);
  always @(posedge clk) begin
    if (a[1]) q <= 1;
    else if (en) q <= 0;
    p <= en;
  end
endmodule
----
# input-bit-equal-old-or-new, at 5. Bit 1 of a is 1 whether a is read old or new.
known clk=1 en=0 a=1? q=0 p=0
clean 0
notes l1 c1:1 l2 l5
keeps q=1 p=0
====
module m(input clk, input a, input b, output reg q);
  always @(posedge clk) if ({b, a}) q <= 1; else q <= 0;
endmodule
----
# leftmost-undecided-signal, at 5.
known clk=1 a=? b=? q=0
clean 0
notes l1 c1:0?b c1:1?b l2?b l3?b
keeps q=?
====
module m(input [1:0] a, output reg y);
  always @(a)
    if (a) y = 1;
    else y = 0;
endmodule
----
# if-taken-by-one-known-bit, at 5.
known a=1x y=?
clean 0
notes l1 c1:1 l2
keeps y=1
# Beyond the example cases: one bit is 1, whatever the other is.
known a=?1 y=?
clean 0
notes l1 c1:1 l2
keeps y=1
====
module m(input a, output reg y);
  always @*
    if (a) y = 1;
    else y = 0;
endmodule
----
# if-with-unknown-test, at 5. It takes the else branch and has no case.
known a=x y=?
clean 0
notes l1 l3
keeps y=0
====
module m(input a, input b, output reg y);
  always @*
    if (a) begin if (b) y = 0; else y = 1; end
    else y = 0;
endmodule
----
# Beyond the example cases: the outermost test is to blame for all doubts in its branches.
known a=? b=? y=0
clean 0
notes l1 c1:0?a c1:1?a l2?a c2:0?a c2:1?a l3?a l4?a l5?a
keeps y=?
# The outer test is decided.
known a=1 b=? y=0
clean 0
notes l1 c1:1 l2 c2:0?b c2:1?b l3?b l4?b
keeps y=?
# b is 1, so both branches of the outer test write 0.
known a=? b=1 y=1
clean 0
notes l1 c1:0?a c1:1?a l2?a c2:1?a l3?a l5?a
keeps y=0
====
module m(input a, input b, input c, output reg y, output reg z);
  always @* begin
    if (a) y = b; else y = c;
    if (y) z = 1; else z = 0;
  end
endmodule
----
# Beyond the example cases: the branches leave different bits, so the test is to blame for y, and so for what y decides.
known a=? b=1 c=0 y=? z=?
clean 0
notes l1 c1:0?a c1:1?a l2?a l3?a l4 c2:0?a c2:1?a l5?a l6?a
keeps y=? z=?
# Both branches leave a bit that is blamed on b.
known a=1 b=? c=0 y=? z=?
clean 0
notes l1 c1:1 l2 l4 c2:0?b c2:1?b l5?b l6?b
keeps y=? z=?
# The branches leave bits with different blames, so the test is to blame.
known a=? b=? c=? y=? z=?
clean 0
notes l1 c1:0?a c1:1?a l2?a l3?a l4 c2:0?a c2:1?a l5?a l6?a
keeps y=? z=?
# Both branches leave 1.
known a=? b=1 c=1 y=? z=?
clean 0
notes l1 c1:0?a c1:1?a l2?a l3?a l4 c2:1 l5
keeps y=1 z=1
";

#[test]
fn runs_of_conditions(rt: HostRuntime) {
    let (part, line) = fault_of(rt.alloc(), CONDITIONS).unwrap_or((0, 0));
    assert!(rt; part == 0, "part {part}, line {line}");
}
