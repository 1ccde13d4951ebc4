//! Targets that are parts, and loops.

use crate::scripts::script::fault_of;

const PARTS: &str = "
====
module m(input [1:0] a, output reg s, output reg c);
  always @* {c, s} = a[0] + a[1];
endmodule
----
# concatenated-target-in-block, at 5.
known a=01 s=? c=?
clean 0
notes l1 c1:10
keeps s=1 c=0
# concatenated-target-in-block, at 10.
known a=11 s=? c=?
clean 0
notes l1 c1:11
keeps s=0 c=1
====
module m(input [1:0] i, input d, output reg [3:0] y);
  always @* begin
    y = 0;
    y[i +: 2] = {d, 1'b1};
  end
endmodule
----
# slide-target-in-block, at 5. A part that lies partly outside writes the bits inside.
known i=11 d=1 y=????
clean 0
notes l1 l2
keeps y=1000
# slide-target-in-block, at 10. An unknown base writes nothing.
known i=1x d=1 y=????
clean 0
notes l1 l2
keeps y=0000
====
module m(input [1:0] v, input i, output reg y);
  always @* y = v[i];
endmodule
----
# Beyond the example cases: by an index that is not sure nothing is known.
known v=11 i=? y=0
clean 0
notes l1
keeps y=?
# A bit that is known.
known v=1? i=1 y=0
clean 0
notes l1
keeps y=1
# A bit that is not.
known v=1? i=0 y=0
clean 0
notes l1
keeps y=?
====
module m(input clk, output reg i, output reg [1:0] v);
  always @(posedge clk) {i, v[i]} = 2'b11;
endmodule
----
# Beyond the example cases: the index is evaluated before i is written.
known clk=1 i=0 v=00
clean 0
notes l1
keeps i=1 v=01
# Any bit of v may become 1.
known clk=1 i=? v=10
clean 0
notes l1
keeps i=1 v=1?
====
module m(input clk, output reg i, output reg [1:0] v);
  always @(posedge clk) begin
    v[i] <= 1;
    i = 1;
  end
endmodule
----
# Beyond the example cases: the queued index is that of the assignment, not that of the flush.
known clk=1 i=0 v=00
clean 0
notes l1 l2
keeps i=1 v=01
# A queued index that is not known.
known clk=1 i=? v=10
clean 0
notes l1 l2
keeps i=1 v=1?
====
module m(input [1:0] a, output reg [1:0] y);
  integer i;
  always @* for (i = 0; i < 2; i = i + 1) y[i] = a[1 - i];
endmodule
----
# loop-reverses-bits, at 5. The turns write y[0] = a[1] and y[1] = a[0].
known a=10 y=??
clean 0
notes l1 l2 l2
keeps y=01
# Beyond the example cases: the high bit is not known.
known a=?1 y=00
clean 0
notes l1 l2 l2
keeps y=1?
====
module m(input [2:0] a, output reg [2:0] y);
  integer i;
  always @*
    for (i = 2; i >= 0; i = i - 1)
      y[2 - i] = a[i];
endmodule
----
# loop-counts-down, at 5.
known a=110 y=???
clean 0
notes l1 l2 l2 l2
keeps y=011
====
module m(input [3:0] a, output reg [2:0] n);
  integer i;
  always @* begin
    n = 0;
    for (i = 0; i < 4; i = i + 1)
      if (a[i]) n = n + 1;
  end
endmodule
----
# loop-counts-its-statement-once, at 5.
known a=1011 n=???
clean 0
notes l1 l2 l3 c1:1 l4 c2:01 l3 c1:1 l4 c2:11 l3 c1:0 l3 c1:1 l4 c2:11
keeps n=011
# Beyond the example cases: the first turn leaves a bit that is not known. Where it is x, the sums after it are x.
known a=101? n=???
clean 0
notes l1 l2 l3 c1:0?a c1:1?a l4?a c2:01?a l3 c1:1 l4 c2:01?a c2:11?a l3 c1:0 l3 c1:1 l4 c2:01?a c2:11?a
keeps n=???
====
module m(input a, output reg y);
  integer i;
  always @* begin
    for (i = 0; i < 0; i = i + 1)
      y = ~a;
    y = !a;
  end
endmodule
----
# loop-without-turns, at 5.
known a=1 y=?
clean 0
notes l1 l3 c2:0
keeps y=0
# Beyond the example cases: statements in a loop without turns are not left open either.
weak 0 a
notes l1?a l3?a c2:0?a c2:1?a
keeps y=?
====
module m(input a, output reg y); integer i; always @* for (i = 0; i < 1024; i = i + 1) y = a; endmodule
----
# loop-at-limit, at 5.
known a=1 y=?
clean 0
notes l1 l2 l2 l2 l2 l2 l2 l2 l2 l2 l2 l2 l2 l2 l2 l2 l2 l2 l2 l2 l2 l2 l2 l2 l2 l2 l2 l2 l2 l2 l2 l2 l2 l2 l2 l2 l2 l2 l2 l2 l2 l2 l2 l2 l2 l2 l2 l2 l2 l2 l2 l2 l2 l2 l2 l2 l2 l2 l2 l2 l2 l2 l2 l2 l2 l2 l2 l2 l2 l2 l2 l2 l2 l2 l2 l2 l2 l2 l2 l2 l2 l2 l2 l2 l2 l2 l2 l2 l2 l2 l2 l2 l2 l2 l2 l2 l2 l2 l2 l2 l2 l2 l2 l2 l2 l2 l2 l2 l2 l2 l2 l2 l2 l2 l2 l2 l2 l2 l2 l2 l2 l2 l2 l2 l2 l2 l2 l2 l2 l2 l2 l2 l2 l2 l2 l2 l2 l2 l2 l2 l2 l2 l2 l2 l2 l2 l2 l2 l2 l2 l2 l2 l2 l2 l2 l2 l2 l2 l2 l2 l2 l2 l2 l2 l2 l2 l2 l2 l2 l2 l2 l2 l2 l2 l2 l2 l2 l2 l2 l2 l2 l2 l2 l2 l2 l2 l2 l2 l2 l2 l2 l2 l2 l2 l2 l2 l2 l2 l2 l2 l2 l2 l2 l2 l2 l2 l2 l2 l2 l2 l2 l2 l2 l2 l2 l2 l2 l2 l2 l2 l2 l2 l2 l2 l2 l2 l2 l2 l2 l2 l2 l2 l2 l2 l2 l2 l2 l2 l2 l2 l2 l2 l2 l2 l2 l2 l2 l2 l2 l2 l2 l2 l2 l2 l2 l2 l2 l2 l2 l2 l2 l2 l2 l2 l2 l2 l2 l2 l2 l2 l2 l2 l2 l2 l2 l2 l2 l2 l2 l2 l2 l2 l2 l2 l2 l2 l2 l2 l2 l2 l2 l2 l2 l2 l2 l2 l2 l2 l2 l2 l2 l2 l2 l2 l2 l2 l2 l2 l2 l2 l2 l2 l2 l2 l2 l2 l2 l2 l2 l2 l2 l2 l2 l2 l2 l2 l2 l2 l2 l2 l2 l2 l2 l2 l2 l2 l2 l2 l2 l2 l2 l2 l2 l2 l2 l2 l2 l2 l2 l2 l2 l2 l2 l2 l2 l2 l2 l2 l2 l2 l2 l2 l2 l2 l2 l2 l2 l2 l2 l2 l2 l2 l2 l2 l2 l2 l2 l2 l2 l2 l2 l2 l2 l2 l2 l2 l2 l2 l2 l2 l2 l2 l2 l2 l2 l2 l2 l2 l2 l2 l2 l2 l2 l2 l2 l2 l2 l2 l2 l2 l2 l2 l2 l2 l2 l2 l2 l2 l2 l2 l2 l2 l2 l2 l2 l2 l2 l2 l2 l2 l2 l2 l2 l2 l2 l2 l2 l2 l2 l2 l2 l2 l2 l2 l2 l2 l2 l2 l2 l2 l2 l2 l2 l2 l2 l2 l2 l2 l2 l2 l2 l2 l2 l2 l2 l2 l2 l2 l2 l2 l2 l2 l2 l2 l2 l2 l2 l2 l2 l2 l2 l2 l2 l2 l2 l2 l2 l2 l2 l2 l2 l2 l2 l2 l2 l2 l2 l2 l2 l2 l2 l2 l2 l2 l2 l2 l2 l2 l2 l2 l2 l2 l2 l2 l2 l2 l2 l2 l2 l2 l2 l2 l2 l2 l2 l2 l2 l2 l2 l2 l2 l2 l2 l2 l2 l2 l2 l2 l2 l2 l2 l2 l2 l2 l2 l2 l2 l2 l2 l2 l2 l2 l2 l2 l2 l2 l2 l2 l2 l2 l2 l2 l2 l2 l2 l2 l2 l2 l2 l2 l2 l2 l2 l2 l2 l2 l2 l2 l2 l2 l2 l2 l2 l2 l2 l2 l2 l2 l2 l2 l2 l2 l2 l2 l2 l2 l2 l2 l2 l2 l2 l2 l2 l2 l2 l2 l2 l2 l2 l2 l2 l2 l2 l2 l2 l2 l2 l2 l2 l2 l2 l2 l2 l2 l2 l2 l2 l2 l2 l2 l2 l2 l2 l2 l2 l2 l2 l2 l2 l2 l2 l2 l2 l2 l2 l2 l2 l2 l2 l2 l2 l2 l2 l2 l2 l2 l2 l2 l2 l2 l2 l2 l2 l2 l2 l2 l2 l2 l2 l2 l2 l2 l2 l2 l2 l2 l2 l2 l2 l2 l2 l2 l2 l2 l2 l2 l2 l2 l2 l2 l2 l2 l2 l2 l2 l2 l2 l2 l2 l2 l2 l2 l2 l2 l2 l2 l2 l2 l2 l2 l2 l2 l2 l2 l2 l2 l2 l2 l2 l2 l2 l2 l2 l2 l2 l2 l2 l2 l2 l2 l2 l2 l2 l2 l2 l2 l2 l2 l2 l2 l2 l2 l2 l2 l2 l2 l2 l2 l2 l2 l2 l2 l2 l2 l2 l2 l2 l2 l2 l2 l2 l2 l2 l2 l2 l2 l2 l2 l2 l2 l2 l2 l2 l2 l2 l2 l2 l2 l2 l2 l2 l2 l2 l2 l2 l2 l2 l2 l2 l2 l2 l2 l2 l2 l2 l2 l2 l2 l2 l2 l2 l2 l2 l2 l2 l2 l2 l2 l2 l2 l2 l2 l2 l2 l2 l2 l2 l2 l2 l2 l2 l2 l2 l2 l2 l2 l2 l2 l2 l2 l2 l2 l2 l2 l2 l2 l2 l2 l2 l2 l2 l2 l2 l2 l2 l2 l2 l2 l2 l2 l2 l2 l2 l2 l2 l2 l2 l2 l2 l2 l2 l2 l2 l2 l2 l2 l2 l2 l2 l2 l2 l2 l2 l2 l2 l2 l2 l2 l2 l2 l2 l2 l2 l2 l2 l2 l2 l2 l2 l2 l2 l2 l2 l2 l2 l2 l2 l2 l2 l2 l2 l2 l2 l2 l2 l2 l2 l2 l2 l2 l2 l2 l2 l2 l2 l2 l2 l2 l2 l2 l2 l2 l2 l2 l2 l2 l2 l2 l2 l2 l2 l2 l2 l2 l2 l2 l2 l2 l2 l2 l2 l2 l2 l2 l2 l2 l2 l2 l2 l2 l2 l2 l2 l2 l2 l2 l2 l2 l2 l2 l2 l2 l2 l2 l2 l2 l2 l2 l2 l2 l2 l2 l2 l2 l2 l2 l2 l2 l2 l2 l2 l2 l2 l2 l2 l2 l2 l2 l2 l2 l2 l2 l2 l2 l2 l2 l2 l2 l2 l2 l2 l2 l2 l2 l2 l2 l2 l2 l2 l2 l2 l2 l2 l2 l2 l2 l2 l2 l2 l2 l2 l2 l2 l2 l2
keeps y=1
";

#[test]
fn runs_of_parts(rt: HostRuntime) {
    let (part, line) = fault_of(rt.alloc(), PARTS).unwrap_or((0, 0));
    assert!(rt; part == 0, "part {part}, line {line}");
}
