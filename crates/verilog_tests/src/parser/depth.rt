//! How deep expressions and statements nest.
use crate::parser::faults::is_fault;
use crate::parser::source::{fault_of, joined, modules_of};
use cov_host::{Bytes, NoMemory};
use std::alloc::Global;
use verilog_parser::ParseKind;

/// A text whose middle is nested so many times, and the fault in it at a line and a column, 0 where there is
/// no fault.
struct Deep {
    text: [&'static str; 4],
    count: usize,
    kind: Option<ParseKind>,
    line: u32,
    column: u32,
}

const FRONT: &str = "module m; assign y = ";

#[rattlefmt::skip]
const DEEP_EXPRESSIONS: &[Deep] = &[
    Deep { text: [FRONT, "(", "a", ")"], count: 255, kind: None, line: 0, column: 0 },
    Deep { text: [FRONT, "(", "a", ")"], count: 256, kind: Some(ParseKind::TooDeep), line: 1, column: 278 },
    Deep { text: [FRONT, "(", ")", ")"], count: 256, kind: Some(ParseKind::Unexpected), line: 1, column: 278 },
    // the 256th operator makes the first a too deep
    Deep { text: [FRONT, "", "a", "+a"], count: 255, kind: None, line: 0, column: 0 },
    Deep { text: [FRONT, "", "a", "+a"], count: 256, kind: Some(ParseKind::TooDeep), line: 1, column: 22 },
    // a chain that is cut off after its 256th operator is too deep all the same
    Deep { text: [FRONT, "a+", "", ""], count: 255, kind: Some(ParseKind::Unexpected), line: 1, column: 532 },
    Deep { text: [FRONT, "a+", "", ""], count: 256, kind: Some(ParseKind::TooDeep), line: 1, column: 22 },
    // a select makes its name one deeper
    Deep { text: [FRONT, "(", "a[0]", ")"], count: 254, kind: None, line: 0, column: 0 },
    Deep { text: [FRONT, "(", "a[0]", ")"], count: 255, kind: Some(ParseKind::TooDeep), line: 1, column: 277 },
    // the operators before an operand nest
    Deep { text: [FRONT, "!", "a", ""], count: 255, kind: None, line: 0, column: 0 },
    Deep { text: [FRONT, "!", "a", ""], count: 256, kind: Some(ParseKind::TooDeep), line: 1, column: 278 },
];

#[rattlefmt::skip]
const DEEP_STATEMENTS: &[Deep] = &[
    Deep { text: ["module m; initial ", "begin ", ";", " end"], count: 256, kind: Some(ParseKind::TooDeep), line: 1, column: 1555 },
    // statements and the expressions in them share one count
    Deep { text: ["module m; initial y = ", "(", "a", ")"], count: 254, kind: None, line: 0, column: 0 },
    Deep { text: ["module m; initial y = ", "(", "a", ")"], count: 255, kind: Some(ParseKind::TooDeep), line: 1, column: 278 },
];

/// A text, so often another one, and a third and so often a fourth after.
fn nested(alloc: Global, deep: &Deep) -> Result<Bytes, NoMemory> {
    let [front, open, middle, close] = deep.text;
    let mut all = joined(alloc, &[front])?;
    for _ in 0..deep.count {
        all.extend_from_slice(open.as_bytes())?;
    }
    all.extend_from_slice(middle.as_bytes())?;
    for _ in 0..deep.count {
        all.extend_from_slice(close.as_bytes())?;
    }
    all.extend_from_slice(b"; endmodule")?;
    Ok(all)
}

/// Whether a text that is nested so deep has the fault that the case says.
fn is_case(alloc: Global, deep: &Deep) -> bool {
    let Ok(source) = nested(alloc, deep) else {
        return false;
    };
    match deep.kind {
        None => modules_of(alloc, source).is_some(),
        Some(kind) => match fault_of(alloc, source) {
            Some(fault) => is_fault(fault, kind, deep.line, deep.column, ""),
            None => false,
        },
    }
}

#[test]
fn depth_of_expressions(rt: HostRuntime) {
    for deep in DEEP_EXPRESSIONS {
        assert!(rt; is_case(rt.alloc(), deep));
    }
}

#[test]
fn depth_of_statements(rt: HostRuntime) {
    for deep in DEEP_STATEMENTS {
        assert!(rt; is_case(rt.alloc(), deep));
    }
}
