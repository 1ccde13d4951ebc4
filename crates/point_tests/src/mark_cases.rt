//! Example designs with marks of their points, and the verdicts of the points as the databases of the example cases have them.
use crate::designs::Source;
use crate::tables::Mark;
use cover_points::Visit;
use design_model::NodeCase;

/// A design: its name, its top, its sources, what is marked of it in order, and its points with their verdicts.
pub(crate) struct MarkCase {
    pub(crate) name: &'static str,
    pub(crate) top: &'static str,
    pub(crate) sources: &'static [Source],
    pub(crate) marks: &'static [Mark],
    pub(crate) rows: &'static str,
}

pub(crate) static MARK_CASES: &[MarkCase] = &[
    MarkCase {
        name: "first-doubt-is-kept",
        top: "m",
        sources: &[(
            "m.v",
            "module m(input clk, input a, output reg q);\n  always @(posedge clk)\n    if (a) q <= 1; else q <= 0;\nendmodule\n",
        )],
        marks: &[
            Mark {
                visit: Visit::Line {
                    process: 0,
                    line: 1,
                },
                doubt: None,
            },
            Mark {
                visit: Visit::Line {
                    process: 0,
                    line: 2,
                },
                doubt: Some((1, 5)),
            },
            Mark {
                visit: Visit::Line {
                    process: 0,
                    line: 3,
                },
                doubt: Some((1, 5)),
            },
            Mark {
                visit: Visit::Node {
                    process: 0,
                    node: 1,
                    case: NodeCase::ValueFalse,
                },
                doubt: Some((1, 5)),
            },
            Mark {
                visit: Visit::Node {
                    process: 0,
                    node: 1,
                    case: NodeCase::ValueTrue,
                },
                doubt: Some((1, 5)),
            },
            Mark {
                visit: Visit::Toggle {
                    signal: 0,
                    index: 0,
                    rise: true,
                },
                doubt: None,
            },
            Mark {
                visit: Visit::Toggle {
                    signal: 1,
                    index: 0,
                    rise: false,
                },
                doubt: None,
            },
            Mark {
                visit: Visit::Toggle {
                    signal: 0,
                    index: 0,
                    rise: false,
                },
                doubt: None,
            },
            Mark {
                visit: Visit::Line {
                    process: 0,
                    line: 2,
                },
                doubt: Some((1, 15)),
            },
            Mark {
                visit: Visit::Line {
                    process: 0,
                    line: 3,
                },
                doubt: Some((1, 15)),
            },
            Mark {
                visit: Visit::Node {
                    process: 0,
                    node: 1,
                    case: NodeCase::ValueFalse,
                },
                doubt: Some((1, 15)),
            },
            Mark {
                visit: Visit::Node {
                    process: 0,
                    node: 1,
                    case: NodeCase::ValueTrue,
                },
                doubt: Some((1, 15)),
            },
            Mark {
                visit: Visit::Toggle {
                    signal: 1,
                    index: 0,
                    rise: true,
                },
                doubt: None,
            },
        ],
        rows: "l m 1 1:3 if = hit\nl m 2 1:3 assign = ? 5 m.a\nl m 3 1:3 assign = ? 5 m.a\nc m 1 1:3 value 0 = ? 5 m.a\nc m 1 1:3 value 1 = ? 5 m.a\nt m a - 01 = hit\nt m a - 10 = hit\nt m clk - 01 = hit\nt m clk - 10 = hit\nt m q - 01 = missed\nt m q - 10 = missed\n",
    },
    MarkCase {
        name: "later-hit-ends-a-doubt",
        top: "m",
        sources: &[(
            "m.v",
            "module m(input clk, input a, output reg q);\n  always @(posedge clk)\n    if (a) q <= 1; else q <= 0;\nendmodule\n",
        )],
        marks: &[
            Mark {
                visit: Visit::Line {
                    process: 0,
                    line: 1,
                },
                doubt: None,
            },
            Mark {
                visit: Visit::Line {
                    process: 0,
                    line: 2,
                },
                doubt: Some((1, 5)),
            },
            Mark {
                visit: Visit::Line {
                    process: 0,
                    line: 3,
                },
                doubt: Some((1, 5)),
            },
            Mark {
                visit: Visit::Node {
                    process: 0,
                    node: 1,
                    case: NodeCase::ValueFalse,
                },
                doubt: Some((1, 5)),
            },
            Mark {
                visit: Visit::Node {
                    process: 0,
                    node: 1,
                    case: NodeCase::ValueTrue,
                },
                doubt: Some((1, 5)),
            },
            Mark {
                visit: Visit::Toggle {
                    signal: 0,
                    index: 0,
                    rise: true,
                },
                doubt: None,
            },
            Mark {
                visit: Visit::Toggle {
                    signal: 1,
                    index: 0,
                    rise: false,
                },
                doubt: None,
            },
            Mark {
                visit: Visit::Toggle {
                    signal: 0,
                    index: 0,
                    rise: false,
                },
                doubt: None,
            },
            Mark {
                visit: Visit::Line {
                    process: 0,
                    line: 1,
                },
                doubt: None,
            },
            Mark {
                visit: Visit::Line {
                    process: 0,
                    line: 3,
                },
                doubt: None,
            },
            Mark {
                visit: Visit::Node {
                    process: 0,
                    node: 1,
                    case: NodeCase::ValueFalse,
                },
                doubt: None,
            },
        ],
        rows: "l m 1 1:3 if = hit\nl m 2 1:3 assign = ? 5 m.a\nl m 3 1:3 assign = hit\nc m 1 1:3 value 0 = hit\nc m 1 1:3 value 1 = ? 5 m.a\nt m a - 01 = missed\nt m a - 10 = hit\nt m clk - 01 = hit\nt m clk - 10 = hit\nt m q - 01 = missed\nt m q - 10 = missed\n",
    },
    MarkCase {
        name: "ram-read-unwritten",
        top: "ram",
        sources: &[(
            "ram.v",
            "module ram(input clk, input we, input [1:0] wa, input [1:0] ra, input d, output reg q);\n  reg m [0:3];\n  always @(posedge clk)\n    if (we) m[wa] <= d;\n    else if (m[ra]) q <= 1; else q <= 0;\nendmodule\n",
        )],
        marks: &[
            Mark {
                visit: Visit::Line {
                    process: 0,
                    line: 1,
                },
                doubt: None,
            },
            Mark {
                visit: Visit::Node {
                    process: 0,
                    node: 1,
                    case: NodeCase::ValueTrue,
                },
                doubt: None,
            },
            Mark {
                visit: Visit::Line {
                    process: 0,
                    line: 2,
                },
                doubt: None,
            },
            Mark {
                visit: Visit::Write {
                    memory: 6,
                    index: 3,
                },
                doubt: None,
            },
            Mark {
                visit: Visit::Toggle {
                    signal: 0,
                    index: 0,
                    rise: true,
                },
                doubt: None,
            },
            Mark {
                visit: Visit::Toggle {
                    signal: 0,
                    index: 0,
                    rise: false,
                },
                doubt: None,
            },
            Mark {
                visit: Visit::Toggle {
                    signal: 1,
                    index: 0,
                    rise: false,
                },
                doubt: None,
            },
            Mark {
                visit: Visit::Line {
                    process: 0,
                    line: 1,
                },
                doubt: None,
            },
            Mark {
                visit: Visit::Node {
                    process: 0,
                    node: 1,
                    case: NodeCase::ValueFalse,
                },
                doubt: None,
            },
            Mark {
                visit: Visit::Line {
                    process: 0,
                    line: 3,
                },
                doubt: None,
            },
            Mark {
                visit: Visit::Read {
                    memory: 6,
                    index: 2,
                },
                doubt: None,
            },
            Mark {
                visit: Visit::Node {
                    process: 0,
                    node: 2,
                    case: NodeCase::ValueFalse,
                },
                doubt: Some((6, 15)),
            },
            Mark {
                visit: Visit::Node {
                    process: 0,
                    node: 2,
                    case: NodeCase::ValueTrue,
                },
                doubt: Some((6, 15)),
            },
            Mark {
                visit: Visit::Line {
                    process: 0,
                    line: 4,
                },
                doubt: Some((6, 15)),
            },
            Mark {
                visit: Visit::Line {
                    process: 0,
                    line: 5,
                },
                doubt: Some((6, 15)),
            },
        ],
        rows: "l ram 1 1:4 if = hit\nl ram 2 1:4 assign = hit\nl ram 3 1:5 if = hit\nl ram 4 1:5 assign = ? 15 ram.m\nl ram 5 1:5 assign = ? 15 ram.m\nc ram 1 1:4 value 0 = hit\nc ram 1 1:4 value 1 = hit\nc ram 2 1:5 value 0 = ? 15 ram.m\nc ram 2 1:5 value 1 = ? 15 ram.m\nt ram clk - 01 = hit\nt ram clk - 10 = hit\nt ram d - 01 = missed\nt ram d - 10 = missed\nt ram q - 01 = missed\nt ram q - 10 = missed\nt ram ra 0 01 = missed\nt ram ra 0 10 = missed\nt ram ra 1 01 = missed\nt ram ra 1 10 = missed\nt ram wa 0 01 = missed\nt ram wa 0 10 = missed\nt ram wa 1 01 = missed\nt ram wa 1 10 = missed\nt ram we - 01 = missed\nt ram we - 10 = hit\nm ram m 0 r = missed\nm ram m 0 w = missed\nm ram m 1 r = missed\nm ram m 1 w = missed\nm ram m 2 r = hit\nm ram m 2 w = missed\nm ram m 3 r = missed\nm ram m 3 w = hit\n",
    },
    MarkCase {
        name: "signal-of-inner-instance-in-doubt",
        top: "m",
        sources: &[(
            "m.v",
            "module m(input [3:0] a);\n  sub u(.k(a[1:0]));\nendmodule\nmodule sub(input [1:0] k);\nendmodule\n",
        )],
        marks: &[
            Mark {
                visit: Visit::Toggle {
                    signal: 0,
                    index: 3,
                    rise: false,
                },
                doubt: None,
            },
            Mark {
                visit: Visit::Toggle {
                    signal: 1,
                    index: 0,
                    rise: true,
                },
                doubt: Some((1, 7)),
            },
            Mark {
                visit: Visit::Toggle {
                    signal: 1,
                    index: 1,
                    rise: false,
                },
                doubt: Some((0, 8)),
            },
        ],
        rows: "t m a 0 01 = missed\nt m a 0 10 = missed\nt m a 1 01 = missed\nt m a 1 10 = missed\nt m a 2 01 = missed\nt m a 2 10 = missed\nt m a 3 01 = missed\nt m a 3 10 = hit\nt m.u k 0 01 = ? 7 m.u.k\nt m.u k 0 10 = missed\nt m.u k 1 01 = missed\nt m.u k 1 10 = ? 8 m.a\n",
    },
];
