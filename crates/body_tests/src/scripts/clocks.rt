//! Blocking assignments, and clocks that blocks make.

use crate::scripts::script::fault_of;

const CLOCKS: &str = "
====
module m(input clk, input d, output reg q);
  reg t;
  always @(posedge clk) begin
    t = ~d;
    if (t) q <= 0;
    else q <= 1;
  end
endmodule
----
# blocking-temporary-in-clocked-block, at 5.
known clk=1 d=1 t=? q=0
clean 0
notes l1 c1:0 l2 c2:0 l4
keeps q=1
# Beyond the example cases: what the temporary decides is blamed on d.
known clk=1 d=? t=0 q=0
clean 0
notes l1 c1:0?d c1:1?d l2 c2:0?d c2:1?d l3?d l4?d
keeps t=? q=?
====
module m(input clk, input d, output reg a, output reg b);
  always @(posedge clk) a = d;
  always @(posedge clk) if (a) b <= 1; else b <= 0;
endmodule
----
# blocking-write-read-at-same-edge, at 5.
known clk=1 d=1 a=0
clean 0
notes l1
keeps a=1
# blocking-write-read-at-same-edge, at 5. The other block may read a before or after it is written.
known clk=1 a=? b=0
clean 1
notes l2 c1:0?a c1:1?a l3?a l4?a
keeps b=?
====
module m(input clk, output reg a, output reg b);
  always @(posedge clk) a <= b;
  always @(posedge clk) b <= a;
endmodule
----
# swap-registers, at 5.
known clk=1 a=0 b=1
clean 0
notes l1
keeps a=1
# swap-registers, at 5.
known clk=1 a=0 b=1
clean 1
notes l2
keeps b=0
====
module m(input c1, input c2, input d, output reg p, output reg q);
  always @(posedge c1) p <= d;
  always @(posedge c2) q <= p;
endmodule
----
# two-clocks, at 5.
known c1=1 d=1 p=0
clean 0
notes l1
keeps p=1
# two-clocks, at 10.
known c2=1 p=1 q=0
clean 1
notes l2
keeps q=1
====
module m(input c1, input c2, input d, output reg p, output reg q);
  always @(posedge c1) p <= d;
  always @(posedge c2) if (p) q <= 1; else q <= 0;
endmodule
----
# two-clocks-at-once, at 5. What one block writes may be read old or new by the other.
known c1=1 d=1 p=0
clean 0
notes l1
keeps p=1
# two-clocks-at-once, at 5.
known c2=1 p=? q=0
clean 1
notes l2 c1:0?p c1:1?p l3?p l4?p
keeps q=?
====
module m(input clk, input d, output reg h, output reg q);
  always @(posedge clk) h <= ~h;
  always @(posedge h) q <= d;
endmodule
----
# divided-clock, at 5.
known clk=1 h=0
clean 0
notes l1 c1:1
keeps h=1
# divided-clock, at 5. The register wakes the other block in a later round.
known h=1 d=1 q=0
clean 1
notes l2
keeps q=1
# divided-clock-falls, at 5.
known clk=1 h=1
clean 0
notes l1 c1:0
keeps h=0
# divided-clock-in-doubt, at 5.
known clk=1 h=0
clean 0
notes l1 c1:1
keeps h=1
# divided-clock-in-doubt, at 5.
known h=? d=1 q=0
weak 1 h
notes l2?h
keeps q=?
# divided-clock-undumped, at 5.
known clk=1 h=?
clean 0
notes l1 c1:0?h c1:1?h
keeps h=?
# divided-clock-undumped, at 5.
known h=? d=1 q=0
weak 1 h
notes l2?h
keeps q=?
====
module m(input clk, input d, output reg h, output reg g, output reg q);
  always @(posedge clk) h <= ~h;
  always @(posedge h) g <= ~g;
  always @(posedge g) q <= d;
endmodule
----
# clock-divided-twice, at 5.
known clk=1 h=0
clean 0
notes l1 c1:1
keeps h=1
# clock-divided-twice, at 5.
known h=1 g=0
clean 1
notes l2 c2:1
keeps g=1
# clock-divided-twice, at 5.
known g=1 d=1 q=0
clean 2
notes l3
keeps q=1
# clock-divided-twice-in-doubt, at 5.
known clk=1 h=0
clean 0
notes l1 c1:1
keeps h=1
# clock-divided-twice-in-doubt, at 5.
known h=? g=0
weak 1 h
notes l2?h c2:0?h c2:1?h
keeps g=?
# clock-divided-twice-in-doubt, at 5.
known g=? d=1 q=0
weak 2 g
notes l3?g
keeps q=?
====
module m(input clk, input d, output reg h, output reg q);
  always @(posedge clk) begin h = 1; h = 0; end
  always @(posedge h) q <= d;
endmodule
----
# pulse-within-one-step, at 5.
known clk=1 h=0
clean 0
notes l1 l2
keeps h=0
# pulse-within-one-step, at 5. A register that is written twice in one run may pulse.
known h=? d=1 q=0
weak 1 h
notes l3?h
keeps q=?
====
module m(input clk, input r, input d, output reg n, output reg q);
  always @(posedge clk) n <= r;
  always @(posedge clk or negedge n) if (!n) q <= 0; else q <= d;
endmodule
----
# synchronised-reset, at 5.
known clk=1 r=1 n=1
clean 0
notes l1
keeps n=1
# synchronised-reset, at 5.
known clk=1 n=1 d=1 q=0
clean 1
notes l2 c1:0 l4
keeps q=1
# synchronised-reset-in-doubt, at 5.
known clk=1 r=1 n=1
clean 0
notes l1
keeps n=1
# synchronised-reset-in-doubt, at 5.
known clk=1 n=? d=1 q=0
weak 1 clk
notes l2?clk c1:0?clk c1:1?clk l3?clk l4?clk
keeps q=?
# Beyond the example cases: the reset is not known.
known clk=1 n=? d=1 q=0
clean 1
notes l2 c1:0?n c1:1?n l3?n l4?n
keeps q=?
";

#[test]
fn runs_of_clocks(rt: HostRuntime) {
    let (part, line) = fault_of(rt.alloc(), CLOCKS).unwrap_or((0, 0));
    assert!(rt; part == 0, "part {part}, line {line}");
}
