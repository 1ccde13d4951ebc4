//! Divided clocks and synchronised resets. A signal is single in the first round where it is an input, and in a later
//! round where the dump gives it, some process lists an edge of it, and one block of edges writes it, by its text at most
//! once in each evaluation, that in the round before cannot wake or is clean. A single signal wakes a process only where
//! its change is the edge that the process lists, and it may be a trigger. For a trigger that is no input each input that
//! changes is early, by both habits, and what the blocks of its own clock write by nonblocking assignments.

use crate::script::fault_of;

const STEPS: &str = "
====
module m(input clk, input d, output reg h, output reg q);
  always @(posedge clk) h <= ~h;
  always @(posedge h) q <= d;
endmodule
----
# The clock and the divided clock rise. The divider is clean in the first round, so h is single in the next one and is the
# trigger of the register. The clock rises before h does.
last clk=01 h=01: moves clk h q; 0 clk free late; 1 h in 1 free clk late clk
# The divided clock falls, which is not the edge of the register: q stays.
last clk=01 h=10: moves clk h; 0 clk free late
# Where it stays, as the clock falls, so does q.
last clk=10: moves clk
# The dump does not give the divided clock: it is never single, and may wake the register by any change.
last clk=01 h=??: moves clk h q; 0 clk free late; 1 not clean
====
module m(input clk, input d, output reg h, output reg q);
  always @(posedge clk) begin h = 1; h = 0; end
  always @(posedge h) q <= d;
endmodule
----
# The clock is made by a block that writes it twice in each evaluation, so it is never single.
last clk=01: moves clk h q; 0 clk free late; 1 not clean
====
module m(input clk, input r, input d, output reg n, output reg q);
  always @(posedge clk) n <= r;
  always @(posedge clk or negedge n) if (!n) q <= 0; else q <= d;
endmodule
----
# The clock rises and the synchronised reset stays or rises, which is no negedge: the clock alone can wake the register.
last clk=01: moves clk n q; 0 clk free late; 1 clk free late
last clk=01 n=01: moves clk n q; 0 clk free late; 1 clk free late
# The clock rises and the synchronised reset falls: two signals can wake the register.
last clk=01 n=10: moves clk n q; 0 clk free late; 1 not clean
====
module m(input clk, input d, output reg a, output reg b, output reg q, output reg r);
  always @(posedge clk) begin a <= ~a; r <= d; end
  always @(posedge a) b <= ~b;
  always @(posedge b) if (r) q <= 1; else q <= 0;
endmodule
----
# Each clock is made from the one before, and is single a round later. Before a block of a later clock is evaluated, the clocks
# before its own and what their blocks write may have changed, and d by the late habit too.
last clk=01 d=01 a=01 b=01: moves clk d a b q r; 0 clk free d late; 1 a in 1 free clk d r late clk d r; 2 b in 2 free clk d a r late clk d a r
# The last clock of the chain falls: the block of that clock does not wake.
last clk=01 a=01 b=10: moves clk a b r; 0 clk free late; 1 a in 1 free clk r late clk r
# The first divided clock falls, so the second one stays: what a dump says of its change is of no use, as it may not move.
last clk=01 a=10 b=01: moves clk a r; 0 clk free late
====
module m(input clk, input slow, input d, output reg h, output reg q);
  always @(posedge clk or posedge slow) h <= ~h;
  always @(posedge h) q <= d;
endmodule
----
# Two clocks may wake the block of the divided clock, and both rise: it is not clean, so h does not become single.
last clk=01 slow=01 h=01: moves clk slow h q; 0 not clean; 1 not clean
";

#[test]
fn steps_by_their_last_round(rt: HostRuntime) {
    let (part, line) = fault_of(rt.alloc(), STEPS).unwrap_or((0, 0));
    assert!(rt; part == 0, "part {part}, line {line}");
}
