//! In which order the processes of small designs are run in a step.
//!
//! Each answer is worked out by hand: first the numbers of the processes that wait for edges, then those in an order in which
//! each comes after the others that drive what it watches, where the dump does not give that, and last those on a cycle or
//! after one. Processes are numbered as they are written.

use crate::comparison::Comparison;
use crate::script::fault_of;
use design_model::Design;
use process_order::{ProcessTables, process_tables};
use std::alloc::Global;

/// Says the three lists of a design.
pub(crate) fn say_order(
    alloc: Global,
    design: &Design,
    bound: &[bool],
    said: &mut Comparison,
) -> bool {
    if design.processes.len() > 100 {
        return false;
    }
    match process_tables(alloc, design, bound) {
        Ok(tables) => {
            say_lists(&tables, said);
            true
        }
        Err(_) => false,
    }
}

/// Says the three lists.
fn say_lists(tables: &ProcessTables, said: &mut Comparison) {
    say_list(b" clocked", tables.clocked.as_slice(), said);
    say_list(b"; order", tables.order.as_slice(), said);
    say_list(b"; last", tables.last.as_slice(), said);
}

/// Says a word and the numbers after it.
fn say_list(word: &[u8], numbers: &[u32], said: &mut Comparison) {
    said.say(word);
    for number in numbers {
        said.say(b" ");
        said.say_number(u128::from(*number));
    }
}

const ORDERS: &str = "
====
module m(input a, output z);
  wire x;
  wire y;
  assign z = y;
  assign y = x;
  assign x = a;
endmodule
----
# z needs y, y needs x: the assignments are run from the last one to the first.
order z=?? x=?? y=??: clocked; order 2 1 0; last
====
module m(output p, output q);
  assign p = q;
  assign q = p;
endmodule
----
# Each of p and q needs the other, unless the dump gives q: then only q needs p.
order p=?? q=??: clocked; order; last 0 1
order p=??: clocked; order 0 1; last
====
module m(input clk, input d, output reg r, output s, output t);
  wire c;
  assign c = s;
  assign s = c | d;
  assign t = r & s;
  always @(posedge clk) r <= d;
endmodule
----
# c and s are on a cycle, and t comes after it. r is written at an edge, so t need not wait for it.
order r=?? s=?? t=?? c=??: clocked 3; order; last 0 1 2
====
module m(input a, output reg y);
  always @* y = a & y;
endmodule
----
# A combinational block that watches what it drives itself does not wait for itself.
order y=??: clocked; order 0; last
====
module m(input clk, input a, input b, output z, output reg q);
  reg y;
  assign z = ~y;
  always @(posedge clk) q <= z;
  always @* y = a & b;
endmodule
----
# A combinational block drives y, which the assignment before it watches; the register watches nothing.
order z=?? q=?? y=??: clocked 1; order 2 0; last
";

#[test]
fn orders_of_processes(rt: HostRuntime) {
    let (part, line) = fault_of(rt.alloc(), ORDERS).unwrap_or((0, 0));
    assert!(rt; part == 0, "part {part}, line {line}");
}
