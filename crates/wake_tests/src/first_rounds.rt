//! The sets of a step by the definitions. What may move is the least set that has the inputs that change, the targets of
//! each combinational process that mentions or lists a member, and the targets of each clocked block that can wake. A block
//! can wake by a signal of its list that is a member, except an input whose change is not the edge. It is clean where one
//! signal alone can wake it and that one is an input, its trigger. Early for it are, except the trigger: each input that
//! changes (by the late habit only one that is in some list of edges), the blocking targets of each other process that the
//! trigger or a member may wake, and the nonblocking targets of each process that a member may wake.

use crate::script::fault_of;

const STEPS: &str = "
====
module m(input clk, input en, input [1:0] a, output reg q, output reg p);
  always @(posedge clk) begin
    if (a[1]) q <= 1;
    else if (en) q <= 0;
    p <= en;
  end
endmodule
----
# The clock rises and en changes. The block wakes and may write q and p. By the free habit en may change before the block is
# evaluated; by the late habit no input may, since clk alone is in a list of edges.
first clk=01 en=01: moves clk en q p; 0 clk free en late
# The clock falls, which is not the edge of the block: q and p stay.
first clk=10 en=01: moves clk en
# The clock rises to x, which counts as a posedge, and falls to x, which does not (IEEE 1364-2001, 9.7.2).
first clk=0x: moves clk q p; 0 clk free late
first clk=1x: moves clk
====
module m(input clk, input rst_n, input d, output reg q);
  always @(posedge clk or negedge rst_n)
    if (!rst_n) q <= 0;
    else q <= d;
endmodule
----
# The clock rises and the reset falls: two signals can wake the block, so it is not clean.
first clk=01 rst_n=10: moves clk rst_n q; 0 not clean
# The clock and the reset rise, and d changes. The reset's change is not its edge, so the clock is the trigger. By the free
# habit both other inputs may change first; by the late habit the reset alone, which is in a list of edges.
first clk=01 rst_n=01 d=01: moves clk rst_n d q; 0 clk free rst_n d late rst_n
# The reset falls alone, and is the trigger.
first rst_n=10: moves rst_n q; 0 rst_n free late
# The dump does not give the reset, which may therefore change in each step by any edge: with the clock it is a second signal
# that can wake the block, and alone it is no trigger.
first clk=01 rst_n=??: moves clk rst_n q; 0 not clean
first rst_n=??: moves rst_n q; 0 not clean
# The dump does not give d, so that it may change before the block is evaluated, by the free habit.
first clk=01 d=??: moves clk d q; 0 clk free d late
====
module m(input clk, input a, input b, output reg q);
  reg y;
  always @* y = a & b;
  always @(posedge clk) if (y) q <= 1; else q <= 0;
endmodule
----
# The clock rises and a changes. The combinational block mentions a, so y may move, and with a before the register is
# evaluated. By the late habit a comes later, and so does y.
first clk=01 a=01: moves clk a q y; 1 clk free a y late
# The clock rises alone: the combinational block does not mention it, so nothing is early.
first clk=01: moves clk q; 1 clk free late
====
module m(input clk, input en, input d, output reg q);
  reg y;
  always @* if (en) y = d;
  always @(posedge clk) if (y) q <= 1; else q <= 0;
endmodule
----
# d changes alone: the latch may write y, whether it is open or not, and no register wakes.
first d=01: moves d y
====
module m(input clk, input we, input [1:0] wa, input [1:0] ra, input d, output reg q);
  reg m [0:3];
  always @(posedge clk)
    if (we) m[wa] <= d;
    else if (m[ra]) q <= 1; else q <= 0;
endmodule
----
# The clock rises and the lowest bit of ra changes. The memory is one member with all its words; what the block itself writes
# by nonblocking assignments is not early for it.
first clk=01 ra=01: moves clk ra q m; 0 clk free ra late
====
module m(input [1:0] a, output reg [1:0] y);
  integer i;
  always @* for (i = 0; i < 2; i = i + 1) y[i] = a[1 - i];
endmodule
----
# An input of two bits of which the lowest does not change is noted as it is, and wakes what mentions it.
first a=00: moves a y
====
module m(input a, input b, output reg y);
  always @* y = a & b;
endmodule
----
# b changes, which y = a & b mentions.
first b=10: moves b y
====
module m(input clk, output reg a, output reg b);
  always @(posedge clk) a <= b;
  always @(posedge clk) b <= a;
endmodule
----
# Two registers exchange their values at one edge. Each is written by the other's nonblocking assignment, which the trigger
# wakes and no member does, so nothing is early.
first clk=01: moves clk a b; 0 clk free late; 1 clk free late
====
module m(input clk, input d, output reg a, output reg b);
  always @(posedge clk) a = d;
  always @(posedge clk) if (a) b <= 1; else b <= 0;
endmodule
----
# The first block writes a by a blocking assignment at the edge at which the second reads it: a is early for the second, and
# not for the block that writes it. d is early by the free habit.
first clk=01 d=01: moves clk d a b; 0 clk free d late; 1 clk free d a late a
====
module m(input clk, output reg q, output reg r);
  always @(posedge clk) q <= ~q;
  always @(negedge q) r <= ~r;
endmodule
----
# A divided clock: q may move, so the second block can wake by it, with any edge, and is not clean since q is no input.
first clk=01: moves clk q r; 0 clk free late; 1 not clean
====
module m(input clk, input en, input d, output reg q, output reg r);
  wire c;
  assign c = clk & en;
  always @(posedge clk) q <= r;
  always @(posedge c) r <= d;
endmodule
----
# A clock behind a gate. The trigger wakes c = clk & en, so c is early for the register of clk. c may wake the second register
# before that, so what this writes, r, is early too.
first clk=01: moves clk q r c; 1 clk free r c late r c; 2 not clean
====
module m(input a, output reg [1:0] y, output reg z);
  always @* begin y[1'bx] = a; z = a; end
endmodule
----
# A part by a constant index with an x writes no bit, so y stays.
first a=01: moves a z
====
module m(input a, output reg [1:0] y, output reg z);
  always @* begin y[a] = a; z = a; end
endmodule
----
# A part by an index that may have any value may write y.
first a=01: moves a y z
====
module m(input a, output reg [1:0] y, output reg z);
  always @* begin y[1 - 1] = a; z = a; end
endmodule
----
first a=01: moves a y z
====
module m(input clk, input slow, input d, output reg q, output reg r);
  always @(posedge clk) q <= slow;
  always @(posedge slow) r <= d;
endmodule
----
# The clock rises, and slow falls, which is no edge of the second block. slow is in its list of edges, so it may change before
# the first block is evaluated by either habit.
first clk=01 slow=10 d=01: moves clk slow d q; 0 clk free slow d late slow
";

#[test]
fn steps_by_their_first_round(rt: HostRuntime) {
    let (part, line) = fault_of(rt.alloc(), STEPS).unwrap_or((0, 0));
    assert!(rt; part == 0, "part {part}, line {line}");
}
