//! Example designs, and the addresses of their points as the databases of the example cases have them.
use crate::designs::{Machine, Source};

/// An example case: its name, its top, its sources, and the addresses of its points.
pub(crate) struct Case {
    pub(crate) name: &'static str,
    pub(crate) top: &'static str,
    pub(crate) sources: &'static [Source],
    /// The state machines that are named: a module, a variable, and its states.
    pub(crate) machines: &'static [Machine],
    pub(crate) addresses: &'static str,
}

pub(crate) static CASES: &[Case] = &[
    Case {
        name: "counter-with-enable",
        top: "m",
        sources: &[(
            "m.v",
            "module m(input clk, input rst, input en, output reg [1:0] n);\n  always @(posedge clk)\n    if (rst) n <= 0;\n    else if (en) n <= n + 1;\nendmodule\n",
        )],
        machines: &[],
        addresses: "l m 1 1:3 if\nl m 2 1:3 assign\nl m 3 1:4 if\nl m 4 1:4 assign\nc m 1 1:3 value 0\nc m 1 1:3 value 1\nc m 2 1:4 value 0\nc m 2 1:4 value 1\nc m 3 1:4 + 00\nc m 3 1:4 + 01\nc m 3 1:4 + 10\nc m 3 1:4 + 11\nt m clk - 01\nt m clk - 10\nt m en - 01\nt m en - 10\nt m n 0 01\nt m n 0 10\nt m n 1 01\nt m n 1 10\nt m rst - 01\nt m rst - 10\n",
    },
    Case {
        name: "ram-read-back",
        top: "ram",
        sources: &[(
            "ram.v",
            "module ram(input clk, input we, input [1:0] wa, input [1:0] ra, input d, output reg q);\n  reg m [0:3];\n  always @(posedge clk)\n    if (we) m[wa] <= d;\n    else if (m[ra]) q <= 1; else q <= 0;\nendmodule\n",
        )],
        machines: &[],
        addresses: "l ram 1 1:4 if\nl ram 2 1:4 assign\nl ram 3 1:5 if\nl ram 4 1:5 assign\nl ram 5 1:5 assign\nc ram 1 1:4 value 0\nc ram 1 1:4 value 1\nc ram 2 1:5 value 0\nc ram 2 1:5 value 1\nt ram clk - 01\nt ram clk - 10\nt ram d - 01\nt ram d - 10\nt ram q - 01\nt ram q - 10\nt ram ra 0 01\nt ram ra 0 10\nt ram ra 1 01\nt ram ra 1 10\nt ram wa 0 01\nt ram wa 0 10\nt ram wa 1 01\nt ram wa 1 10\nt ram we - 01\nt ram we - 10\nm ram m 0 r\nm ram m 0 w\nm ram m 1 r\nm ram m 1 w\nm ram m 2 r\nm ram m 2 w\nm ram m 3 r\nm ram m 3 w\n",
    },
    Case {
        name: "loop-counts-its-statement-once",
        top: "m",
        sources: &[(
            "m.v",
            "module m(input [3:0] a, output reg [2:0] n);\n  integer i;\n  always @* begin\n    n = 0;\n    for (i = 0; i < 4; i = i + 1)\n      if (a[i]) n = n + 1;\n  end\nendmodule\n",
        )],
        machines: &[],
        addresses: "l m 1 1:4 assign\nl m 2 1:5 for\nl m 3 1:6 if\nl m 4 1:6 assign\nc m 1 1:6 value 0\nc m 1 1:6 value 1\nc m 2 1:6 + 00\nc m 2 1:6 + 01\nc m 2 1:6 + 10\nc m 2 1:6 + 11\nt m a 0 01\nt m a 0 10\nt m a 1 01\nt m a 1 10\nt m a 2 01\nt m a 2 10\nt m a 3 01\nt m a 3 10\nt m n 0 01\nt m n 0 10\nt m n 1 01\nt m n 1 10\nt m n 2 01\nt m n 2 10\n",
    },
    Case {
        name: "case-labels-evaluated-up-to-match",
        top: "m",
        sources: &[(
            "m.v",
            "module m(input a, input b, output reg y);\n  always @*\n    case (1'b1)\n      ~a: y = 0;\n      ~b: y = 1;\n      default: y = 0;\n    endcase\nendmodule\n",
        )],
        machines: &[],
        addresses: "l m 1 1:3 case\nl m 2 1:4 assign\nl m 3 1:5 assign\nl m 4 1:6 assign\nc m 1 1:4 ~ 0\nc m 1 1:4 ~ 1\nc m 2 1:5 ~ 0\nc m 2 1:5 ~ 1\nt m a - 01\nt m a - 10\nt m b - 01\nt m b - 10\nt m y - 01\nt m y - 10\n",
    },
    Case {
        name: "nodes-in-order-of-first-tokens",
        top: "m",
        sources: &[(
            "m.v",
            "module m(input a, input b, input c, output y);\n  assign y = (a & b) |\n    ~c;\nendmodule\n",
        )],
        machines: &[],
        addresses: "c m 1 1:2 | 1-\nc m 1 1:2 | -1\nc m 1 1:2 | 00\nc m 2 1:2 & 0-\nc m 2 1:2 & -0\nc m 2 1:2 & 11\nc m 3 1:3 ~ 0\nc m 3 1:3 ~ 1\nt m a - 01\nt m a - 10\nt m b - 01\nt m b - 10\nt m c - 01\nt m c - 10\nt m y - 01\nt m y - 10\n",
    },
    Case {
        name: "exclusive-nor-spellings",
        top: "m",
        sources: &[(
            "m.v",
            "module m(input a, input b, output y, output z);\n  assign y = a ~^ b;\n  assign z = a ^~ b;\nendmodule\n",
        )],
        machines: &[],
        addresses: "c m 1 1:2 ~^ 00\nc m 1 1:2 ~^ 01\nc m 1 1:2 ~^ 10\nc m 1 1:2 ~^ 11\nc m 2 1:3 ^~ 00\nc m 2 1:3 ^~ 01\nc m 2 1:3 ^~ 10\nc m 2 1:3 ^~ 11\nt m a - 01\nt m a - 10\nt m b - 01\nt m b - 10\nt m y - 01\nt m y - 10\nt m z - 01\nt m z - 10\n",
    },
    Case {
        name: "second-source-holds-inner-module",
        top: "m",
        sources: &[
            (
                "m.v",
                "module m(input a, output y);\n  inv u(a, y);\nendmodule\n",
            ),
            (
                "lib.v",
                "module inv(input k, output o);\n  assign o = ~k;\nendmodule\n",
            ),
        ],
        machines: &[],
        addresses: "c m.u 1 2:2 ~ 0\nc m.u 1 2:2 ~ 1\nt m a - 01\nt m a - 10\nt m y - 01\nt m y - 10\n",
    },
    Case {
        name: "two-instances-of-one-module",
        top: "m",
        sources: &[(
            "m.v",
            "module m(input a, output y);\n  wire w;\n  inv q(w, y), p(a, w);\nendmodule\nmodule inv(input k, output o);\n  assign o = ~k;\nendmodule\n",
        )],
        machines: &[],
        addresses: "c m.p 1 1:6 ~ 0\nc m.p 1 1:6 ~ 1\nc m.q 1 1:6 ~ 0\nc m.q 1 1:6 ~ 1\nt m a - 01\nt m a - 10\nt m w - 01\nt m w - 10\nt m y - 01\nt m y - 10\n",
    },
    Case {
        name: "narrow-port-has-its-own-toggles",
        top: "m",
        sources: &[(
            "m.v",
            "module m(input [3:0] a);\n  sub u(.k(a[1:0]));\nendmodule\nmodule sub(input [1:0] k);\nendmodule\n",
        )],
        machines: &[],
        addresses: "t m a 0 01\nt m a 0 10\nt m a 1 01\nt m a 1 10\nt m a 2 01\nt m a 2 10\nt m a 3 01\nt m a 3 10\nt m.u k 0 01\nt m.u k 0 10\nt m.u k 1 01\nt m.u k 1 10\n",
    },
];
