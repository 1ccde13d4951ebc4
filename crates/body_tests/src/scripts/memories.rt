//! Memories.

use crate::scripts::script::fault_of;

const MEMORIES: &str = "
====
module m(input clk, input we, input [1:0] wa, input [1:0] ra, input d, output reg q);
  reg m [0:3];
  always @(posedge clk)
    if (we) m[wa] <= d;
    else if (m[ra]) q <= 1; else q <= 0;
endmodule
----
# ram-read-back, at 5.
known clk=1 we=1 wa=11 ra=11 d=1 q=0
clean 0
notes l1 c1:1 l2 w3
keeps q=0 m=?,?,?,1
# ram-read-back, at 15.
known clk=1 we=0 wa=11 ra=11 d=1 q=0 m=?,?,?,1
clean 0
notes l1 c1:0 l3 r3 c2:1 l4
keeps q=1 m=?,?,?,1
# ram-read-unwritten, at 5.
known clk=1 we=1 wa=11 ra=10 d=1 q=0
clean 0
notes l1 c1:1 l2 w3
keeps q=0 m=?,?,?,1
# ram-read-unwritten, at 15.
known clk=1 we=0 wa=11 ra=10 d=1 q=0 m=?,?,?,1
clean 0
notes l1 c1:0 l3 r2 c2:0?m c2:1?m l4?m l5?m
keeps q=? m=?,?,?,1
# ram-write-unknown-index, at 5. A write through an index with an x changes nothing.
known clk=1 we=1 wa=1x ra=11 d=1 q=0
clean 0
notes l1 c1:1 l2
keeps q=0 m=?,?,?,?
# ram-write-unknown-index, at 15.
known clk=1 we=0 wa=1x ra=11 d=1 q=0
clean 0
notes l1 c1:0 l3 r3 c2:0?m c2:1?m l4?m l5?m
keeps q=? m=?,?,?,?
# Beyond the example cases: the index of a write is 2 or 3, or names no word.
known clk=1 we=1 wa=1? ra=00 d=1 q=0 m=0,0,0,1
clean 0
notes l1 c1:1 l2 w2?wa w3?wa
keeps q=0 m=0,0,?,1
# A write of a bit that is not known.
known clk=1 we=1 wa=01 ra=00 d=? q=0 m=0,0,0,0
clean 0
notes l1 c1:1 l2 w1
keeps q=0 m=0,?,0,0
# The word that is read is 0 or 2, or there is none, which reads x.
known clk=1 we=0 wa=00 ra=?0 d=0 q=0 m=0,0,1,0
clean 0
notes l1 c1:0 l3 r0?ra r2?ra c2:0?ra c2:1?ra l4?ra l5?ra
keeps q=? m=0,0,1,0
# The word is known, its bit is not.
known clk=1 we=0 wa=00 ra=11 d=0 q=1 m=0,0,0,?
clean 0
notes l1 c1:0 l3 r3 c2:0?m c2:1?m l4?m l5?m
keeps q=? m=0,0,0,?
# Only the test is open: a write of one word, or a read of another.
known clk=1 we=? wa=00 ra=01 d=1 q=1 m=0,1,0,0
clean 0
notes l1 c1:0?we c1:1?we l2?we w0?we l3?we r1?we c2:1?we l4?we
keeps q=1 m=?,1,0,0
perhaps 0 clk
notes l1?clk c1:0?clk c1:1?clk l2?clk w0?clk l3?clk r1?clk c2:1?clk l4?clk
keeps q=1 m=?,1,0,0
quiet 0
notes
keeps q=1 m=?,1,0,0
# Weakly each word may be read and written, and q may become 0 or 1.
weak 0 clk
notes l1?clk c1:0?clk c1:1?clk l2?clk w0?clk w1?clk w2?clk w3?clk l3?clk r0?clk r1?clk r2?clk r3?clk c2:0?clk c2:1?clk l4?clk l5?clk
keeps q=? m=?,?,?,?
====
module m(input clk, input i, output reg q);
  reg r [0:1];
  always @(posedge clk) if (r[i]) q <= 1; else q <= 0;
endmodule
----
# index-named-before-memory, at 5.
known clk=1 i=? q=0
clean 0
notes l1 r0?i r1?i c1:0?i c1:1?i l2?i l3?i
keeps q=?
====
module m(input clk, input d, output reg q);
  reg r [0:1];
  always @(posedge clk) begin
    r[1] = d;
    q <= r[1];
  end
endmodule
----
# memory-blocking-write-read-in-block, at 5.
known clk=1 d=1 q=0
clean 0
notes l1 w1 l2 r1
keeps q=1 r=?,1
====
module m(input clk, input i, input d, output reg q, output reg p);
  reg r [0:1];
  always @(posedge clk) begin
    r[i] = d;
    if (r[0]) q <= 1; else q <= 0;
    if (p) p <= 0;
  end
endmodule
----
# Beyond the example cases: a read of a memory that the run has written, by which nothing is sure, is blamed on its first
# read that was not sure.
known clk=1 i=? d=1 q=0 p=0 r=0,0
clean 0
notes l1 w0?i w1?i l2 r0 c1:0?i c1:1?i l3?i l4?i l5 c2:0
keeps q=? p=0 r=?,?
known clk=1 i=0 d=? q=0 p=0 r=0,0
clean 0
notes l1 w0 l2 r0 c1:0?d c1:1?d l3?d l4?d l5 c2:0
keeps q=? p=0 r=?,0
====
module m(input clk, input [1:0] a, output reg q);
  reg r [0:3];
  always @(posedge clk) q <= r[a];
endmodule
----
# memory-initial-words-unknown, at 5.
known clk=1 a=01 q=0
clean 0
notes l1 r1
keeps q=?
====
module m(input clk, input [1:0] a, output reg q);
  reg r [0:2];
  always @(posedge clk) q <= r[a];
endmodule
----
# memory-read-out-of-range, at 5. A read outside the range gives x and reads no word.
known clk=1 a=11 q=0
clean 0
notes l1
keeps q=x
====
module m(input clk, input d);
  reg r [5:4];
  always @(posedge clk) r[4] <= d;
endmodule
----
# memory-with-falling-range, at 5.
known clk=1 d=1
clean 0
notes l1 w4
keeps r=1,?
====
module m(input clk, input a, input d, output y);
  reg r [0:1];
  assign y = ~r[a];
  always @(posedge clk) r[a] <= d;
endmodule
----
# net-reads-a-memory, at 5.
known clk=1 a=0 d=1
clean 1
notes l1 w0
keeps r=1,?
# net-reads-a-memory, at 5. The word may have had the value before.
known a=0 y=? r=1,?
perhaps 0 r
notes l0?r r0?r c1:0?r
keeps y=0
# net-reads-a-memory, at 15.
known a=1 y=? r=1,?
clean 0
notes l0 r1 c1:0?r c1:1?r
keeps y=?
====
module m(input clk, input we, input [3:0] a, input [7:0] d, output reg [7:0] q);
  reg [7:0] m [0:15];
  reg [7:0] p;
  always @(posedge clk) begin
    p <= d;
    if (we) m[a] <= p; else q <= m[a];
  end
endmodule
----
# Beyond the example cases, the source of the command `selfrun`: the word gets the p from before.
known clk=1 we=1 a=0001 d=00111100 p=00000101 q=00000000 m=00000000,10100101
clean 0
notes l1 l2 c1:1 l3 w1
keeps p=00111100 q=00000000
known clk=1 we=0 a=0001 d=00111100 p=00000101 q=00000000 m=00000000,10100101
clean 0
notes l1 l2 c1:0 l4 r1
keeps p=00111100 q=10100101
# What the word and p, and q and the word, have in common stays.
known clk=1 we=? a=0001 d=00111100 p=00000101 q=00000000 m=00000000,10100101
clean 0
notes l1 l2 c1:0?we c1:1?we l3?we w1?we l4?we r1?we
keeps p=00111100 q=?0?00?0?
";

#[test]
fn runs_of_memories(rt: HostRuntime) {
    let (part, line) = fault_of(rt.alloc(), MEMORIES).unwrap_or((0, 0));
    assert!(rt; part == 0, "part {part}, line {line}");
}
