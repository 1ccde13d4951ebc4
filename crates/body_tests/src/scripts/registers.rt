//! Registers: one clocked block each.

use crate::scripts::script::fault_of;

const REGISTERS: &str = "
====
module m(input clk, input a, output reg q);
  always @(posedge clk)
    if (a) q <= 1; else q <= 0;
endmodule
----
# register-posedge, at 5.
known clk=1 a=1 q=x
clean 0
notes l1 c1:1 l2
keeps q=1
# register-input-moves-at-edge, at 5. The input falls in the step, so it may be read old or new.
known clk=1 a=? q=x
clean 0
notes l1 c1:0?a c1:1?a l2?a l3?a
keeps q=?
# register-input-moves-at-edge-late, at 5. With late inputs the old value is read.
known clk=1 a=1 q=x
clean 0
notes l1 c1:1 l2
keeps q=1
# dump-with-gap, at 5.
known clk=1 a=1 q=0
clean 0
notes l1 c1:1 l2
keeps q=1
# dump-with-gap, at 25.
known clk=1 a=0 q=1
clean 0
notes l1 c1:0 l3
keeps q=0
# register-missing-clock, at 1. The clock may move, so the block may run any number of times.
known clk=? a=1 q=0
weak 0 clk
notes l1?clk c1:0?clk c1:1?clk l2?clk l3?clk
keeps q=?
# register-missing-data, at 5.
known clk=1 a=? q=x
clean 0
notes l1 c1:0?a c1:1?a l2?a l3?a
keeps q=?
# Beyond the example cases: it runs if the clock moved, so nothing is hit.
known clk=? a=1 q=0
perhaps 0 clk
notes l1?clk c1:1?clk l2?clk
keeps q=1
quiet 0
notes
keeps q=1
====
module m(input clk, input d, output reg q);
  always @(posedge clk) q <= d;
endmodule
----
# edge-from-x, at 5.
known clk=x d=1 q=0
clean 0
notes l1
keeps q=1
====
module m(input clk, output reg q);
  always @(posedge clk) q <= clk;
endmodule
----
# block-reads-its-own-clock, at 5. The trigger is read with its new value.
known clk=1 q=0
clean 0
notes l1
keeps q=1
====
module m(input clk, input d, output reg q);
  always @(negedge clk) q <= d;
endmodule
----
# falling-edge, at 5.
known clk=0 d=1 q=0
clean 0
notes l1
keeps q=1
====
module m(input clk, input rst_n, input d, output reg q);
  always @(posedge clk or negedge rst_n)
    if (!rst_n) q <= 0;
    else q <= d;
endmodule
----
# register-clock-and-reset-at-once, at 5. The number of the runs is open.
known clk=1 rst_n=0 d=1 q=0
weak 0 clk
notes l1?clk c1:0?clk c1:1?clk l2?clk l3?clk
keeps q=?
# register-reset-ends-at-edge, at 5.
known clk=1 rst_n=? d=1 q=0
clean 0
notes l1 c1:0?rst_n c1:1?rst_n l2?rst_n l3?rst_n
keeps q=?
# Beyond the example cases: with d 0 both branches leave 0.
known clk=1 rst_n=? d=0 q=0
clean 0
notes l1 c1:0?rst_n c1:1?rst_n l2?rst_n l3?rst_n
keeps q=0
# What is written weakly stays known where each write and the old value agree.
known clk=1 rst_n=1 d=0 q=0
perhaps 0 clk
notes l1?clk c1:0?clk l3?clk
keeps q=0
====
module m(input clk, input rst_n, input d, output reg q);
  always @(negedge rst_n or posedge clk)
    if (!rst_n) q <= 0;
    else q <= d;
endmodule
----
# register-reset-listed-first, at 5.
known clk=1 rst_n=0 d=1 q=0
weak 0 rst_n
notes l1?rst_n c1:0?rst_n c1:1?rst_n l2?rst_n l3?rst_n
keeps q=?
====
module m(input clk, input d, output reg q);
  reg p;
  always @(posedge clk) begin
    p <= d;
    q <= p;
  end
endmodule
----
# undumped-register-chain, at 5.
known clk=1 d=1 p=? q=0
clean 0
notes l1 l2
keeps p=1 q=?
# undumped-register-chain, at 15.
known clk=1 d=0 p=1 q=1
clean 0
notes l1 l2
keeps p=0 q=1
# undumped-register-chain, at 25.
known clk=1 d=0 p=0 q=1
clean 0
notes l1 l2
keeps p=0 q=0
====
module m(input clk, input d, output reg [2:0] q);
  always @(posedge clk) q <= {q[1:0], d};
endmodule
----
# shift-register, at 5.
known clk=1 d=1 q=000
clean 0
notes l1
keeps q=001
# shift-register, at 15.
known clk=1 d=0 q=001
clean 0
notes l1
keeps q=010
# shift-register, at 25.
known clk=1 d=0 q=010
clean 0
notes l1
keeps q=100
====
module m(input clk, input rst, input en, output reg [1:0] n);
  always @(posedge clk)
    if (rst) n <= 0;
    else if (en) n <= n + 1;
endmodule
----
# counter-with-enable, at 5.
known clk=1 rst=1 en=0 n=xx
clean 0
notes l1 c1:1 l2
keeps n=00
# counter-with-enable, at 15.
known clk=1 rst=0 en=1 n=00
clean 0
notes l1 c1:0 l3 c2:1 l4 c3:01
keeps n=01
# counter-with-enable, at 25.
known clk=1 rst=0 en=1 n=01
clean 0
notes l1 c1:0 l3 c2:1 l4 c3:11
keeps n=10
# counter-with-enable, at 35.
known clk=1 rst=0 en=0 n=10
clean 0
notes l1 c1:0 l3 c2:0
keeps n=10
====
module m(input clk, input d, output reg [1:0] q);
  always @(posedge clk) begin
    q <= 0;
    q[1] <= d;
  end
endmodule
----
# last-nonblocking-write-holds, at 5.
known clk=1 d=1 q=01
clean 0
notes l1 l2
keeps q=10
# Beyond the example cases: only the bit of the last write is not known.
known clk=1 d=? q=11
clean 0
notes l1 l2
keeps q=?0
# Weakly each write may be made or not.
known clk=1 d=0 q=00
weak 0 clk
notes l1?clk l2?clk
keeps q=?0
====
module m(input clk, input a, input b, output reg q);
  always @(posedge clk) if (a) q <= b; else q <= 0;
endmodule
----
# late-inputs-move-after-the-edge, at 5.
known clk=1 a=1 b=1 q=0
clean 0
notes l1 c1:1 l2
keeps q=1
# late-inputs-move-after-the-edge, at 15.
known clk=1 a=0 b=0 q=1
clean 0
notes l1 c1:0 l3
keeps q=0
====
module m(input clk, output reg q);
  integer n;
  always @(posedge clk) begin
    n <= -1;
    q <= n < 0;
  end
endmodule
----
# clocked-integer, at 5.
known clk=1 q=0 n=00000000000000000000000000000000
clean 0
notes l1 l2 c1:00
keeps q=0 n=11111111111111111111111111111111
====
module m(input clk, input d, output reg q);
  always @(posedge clk) begin
    $display(\"d is %b\", d);
    q <= d;
    $stop;
  end
  initial $dumpvars;
endmodule
----
# system-tasks-are-no-points, at 5.
known clk=1 d=1 q=0
clean 0
notes l1
keeps q=1
====
module m(input clk, input [1:0] d, output reg [1:0] s);
  parameter A = 0, B = 1, C = 2;
  always @(posedge clk) s <= d;
endmodule
----
# states-and-arcs, at 5.
known clk=1 d=01 s=00
clean 0
notes l1
keeps s=01
# states-and-arcs, at 15.
known clk=1 d=11 s=01
clean 0
notes l1
keeps s=11
# states-and-arcs, at 25.
known clk=1 d=00 s=11
clean 0
notes l1
keeps s=00
====
module m(input clk, input [1:0] d, output [1:0] q);
  reg2 u(.clk(clk), .d(d), .q(q));
endmodule
module reg2(input clk, input [1:0] d, output reg [1:0] q);
  always @(posedge clk) q <= d;
endmodule
----
# hierarchy-register, at 5. The ports of the inner module are the signals of the outer one.
known clk=1 d=01 q=00
clean 0
notes l1
keeps q=01
# hierarchy-missing-input, at 5.
known clk=1 d=?? q=00
clean 0
notes l1
keeps q=??
====
module m(input clk, input [1:0] d, output [1:0] q);
  step u(.clk(clk), .d(d), .s(q));
endmodule
module step(input clk, input [1:0] d, output reg [1:0] s);
  parameter A = 0, B = 1;
  always @(posedge clk) s <= d;
endmodule
----
# states-of-inner-instance, at 5.
known clk=1 d=01 q=00
clean 0
notes l1
keeps q=01
";

#[test]
fn runs_of_registers(rt: HostRuntime) {
    let (part, line) = fault_of(rt.alloc(), REGISTERS).unwrap_or((0, 0));
    assert!(rt; part == 0, "part {part}, line {line}");
}
