//! Example designs with state machines, and the addresses of their points as the databases of the example cases have them.
use crate::cases::Case;
use crate::designs::Machine;

pub(crate) static MACHINE_CASES: &[Case] = &[
    Case {
        name: "states-and-arcs",
        top: "m",
        sources: &[(
            "m.v",
            "module m(input clk, input [1:0] d, output reg [1:0] s);\n  parameter A = 0, B = 1, C = 2;\n  always @(posedge clk) s <= d;\nendmodule\n",
        )],
        machines: &[("m", "s", &["A", "B", "C"])],
        addresses: "l m 1 1:3 assign\nt m clk - 01\nt m clk - 10\nt m d 0 01\nt m d 0 10\nt m d 1 01\nt m d 1 10\nt m s 0 01\nt m s 0 10\nt m s 1 01\nt m s 1 10\nf m s A\nf m s B\nf m s C\nf m s A B\nf m s A C\nf m s B A\nf m s B C\nf m s C A\nf m s C B\n",
    },
    Case {
        name: "states-later-replaces",
        top: "m",
        sources: &[(
            "m.v",
            "module m(input clk, input [1:0] d, output reg [1:0] s);\n  parameter A = 0, B = 1, C = 2;\n  always @(posedge clk) s <= d;\nendmodule\n",
        )],
        machines: &[("m", "s", &["A", "B"]), ("m", "s", &["A", "C"])],
        addresses: "l m 1 1:3 assign\nt m clk - 01\nt m clk - 10\nt m d 0 01\nt m d 0 10\nt m d 1 01\nt m d 1 10\nt m s 0 01\nt m s 0 10\nt m s 1 01\nt m s 1 10\nf m s A\nf m s C\nf m s A C\nf m s C A\n",
    },
    Case {
        name: "states-of-inner-instance",
        top: "top",
        sources: &[(
            "top.v",
            "module top(input clk, input [1:0] d, output [1:0] q);\n  step u(.clk(clk), .d(d), .s(q));\nendmodule\nmodule step(input clk, input [1:0] d, output reg [1:0] s);\n  parameter A = 0, B = 1;\n  always @(posedge clk) s <= d;\nendmodule\n",
        )],
        machines: &[("step", "s", &["A", "B"])],
        addresses: "l top.u 1 1:6 assign\nt top clk - 01\nt top clk - 10\nt top d 0 01\nt top d 0 10\nt top d 1 01\nt top d 1 10\nt top q 0 01\nt top q 0 10\nt top q 1 01\nt top q 1 10\nf top.u s A\nf top.u s B\nf top.u s A B\nf top.u s B A\n",
    },
    Case {
        name: "states-two-of-three-names",
        top: "m",
        sources: &[(
            "m.v",
            "module m(input clk, input [1:0] d, output reg [1:0] s);\n  parameter A = 0, B = 1, C = 2;\n  always @(posedge clk) s <= d;\nendmodule\n",
        )],
        machines: &[("m", "s", &["C", "A"])],
        addresses: "l m 1 1:3 assign\nt m clk - 01\nt m clk - 10\nt m d 0 01\nt m d 0 10\nt m d 1 01\nt m d 1 10\nt m s 0 01\nt m s 0 10\nt m s 1 01\nt m s 1 10\nf m s A\nf m s C\nf m s A C\nf m s C A\n",
    },
    Case {
        name: "controller-with-states",
        top: "ctl",
        sources: &[(
            "ctl.v",
            "module ctl(input clk, input rst, input go, output reg [1:0] st);\n  parameter IDLE = 2'd0, RUN = 2'd1, DONE = 2'd2;\n  reg [1:0] n;\n  wire last = n == 2'd1;\n  always @(posedge clk)\n    if (rst) begin st <= IDLE; n <= 0; end\n    else case (st)\n      IDLE: if (go) st <= RUN;\n      RUN: begin n <= n + 1; if (last) st <= DONE; end\n      default: st <= IDLE;\n    endcase\nendmodule\n",
        )],
        machines: &[("ctl", "st", &["IDLE", "RUN", "DONE"])],
        addresses: "l ctl 1 1:6 if\nl ctl 2 1:6 assign\nl ctl 3 1:6 assign\nl ctl 4 1:7 case\nl ctl 5 1:8 if\nl ctl 6 1:8 assign\nl ctl 7 1:9 assign\nl ctl 8 1:9 if\nl ctl 9 1:9 assign\nl ctl 10 1:10 assign\nc ctl 1 1:4 == 00\nc ctl 1 1:4 == 01\nc ctl 1 1:4 == 10\nc ctl 1 1:4 == 11\nc ctl 2 1:6 value 0\nc ctl 2 1:6 value 1\nc ctl 3 1:8 value 0\nc ctl 3 1:8 value 1\nc ctl 4 1:9 + 00\nc ctl 4 1:9 + 01\nc ctl 4 1:9 + 10\nc ctl 4 1:9 + 11\nc ctl 5 1:9 value 0\nc ctl 5 1:9 value 1\nt ctl clk - 01\nt ctl clk - 10\nt ctl go - 01\nt ctl go - 10\nt ctl last - 01\nt ctl last - 10\nt ctl n 0 01\nt ctl n 0 10\nt ctl n 1 01\nt ctl n 1 10\nt ctl rst - 01\nt ctl rst - 10\nt ctl st 0 01\nt ctl st 0 10\nt ctl st 1 01\nt ctl st 1 10\nf ctl st DONE\nf ctl st IDLE\nf ctl st RUN\nf ctl st DONE IDLE\nf ctl st DONE RUN\nf ctl st IDLE DONE\nf ctl st IDLE RUN\nf ctl st RUN DONE\nf ctl st RUN IDLE\n",
    },
];

/// What a list is refused for.
#[derive(Clone, Copy)]
pub(crate) enum FaultKind {
    NoState,
    SameState,
    TooManyStates,
}

/// A design whose machines are refused: its name, its source, its machine, and the fault with the name that it has.
pub(crate) struct FaultCase {
    pub(crate) name: &'static str,
    pub(crate) text: &'static str,
    pub(crate) machine: Machine,
    pub(crate) kind: FaultKind,
    pub(crate) detail: &'static str,
}

pub(crate) static FAULT_CASES: &[FaultCase] = &[
    FaultCase {
        name: "states-equal-in-width-of-variable",
        text: "module ff(input clk, input a, output reg q);\n  parameter A = 0, B = 2;\n  always @(posedge clk)\n    if (a) q <= 1; else q <= 0;\nendmodule\n",
        machine: ("ff", "q", &["A", "B"]),
        kind: FaultKind::SameState,
        detail: "B",
    },
    FaultCase {
        name: "states-with-equal-values",
        text: "module ff(input clk, input a, output reg q);\n  parameter A = 1'b0, B = 1'b0;\n  always @(posedge clk)\n    if (a) q <= 1; else q <= 0;\nendmodule\n",
        machine: ("ff", "q", &["A", "B"]),
        kind: FaultKind::SameState,
        detail: "B",
    },
    FaultCase {
        name: "states-second-parameter-unknown",
        text: "module ff(input clk, input a, output reg q);\n  parameter A = 0, B = 2;\n  always @(posedge clk)\n    if (a) q <= 1; else q <= 0;\nendmodule\n",
        machine: ("ff", "q", &["A", "Z"]),
        kind: FaultKind::NoState,
        detail: "Z",
    },
    FaultCase {
        name: "states-unknown-parameter",
        text: "module ff(input clk, input a, output reg q);\n  always @(posedge clk)\n    if (a) q <= 1; else q <= 0;\nendmodule\n",
        machine: ("ff", "q", &["UP", "DOWN"]),
        kind: FaultKind::NoState,
        detail: "UP",
    },
    FaultCase {
        name: "states-unknown-module",
        text: "module ff(input clk, input a, output reg q);\n  always @(posedge clk)\n    if (a) q <= 1; else q <= 0;\nendmodule\n",
        machine: ("gg", "q", &["UP", "DOWN"]),
        kind: FaultKind::NoState,
        detail: "gg",
    },
    FaultCase {
        name: "states-unknown-variable",
        text: "module ff(input clk, input a, output reg q);\n  always @(posedge clk)\n    if (a) q <= 1; else q <= 0;\nendmodule\n",
        machine: ("ff", "r", &["UP", "DOWN"]),
        kind: FaultKind::NoState,
        detail: "r",
    },
    FaultCase {
        name: "states-one-name",
        text: "module ff(input clk, input a, output reg q);\n  always @(posedge clk)\n    if (a) q <= 1; else q <= 0;\nendmodule\n",
        machine: ("ff", "q", &["UP"]),
        kind: FaultKind::TooManyStates,
        detail: "q",
    },
];
