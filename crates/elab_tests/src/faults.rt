//! Expressions that are no constants, or have no width.
use crate::parsed::{EXPRESSION, assigning, expression_of};
use cov_host::{NoMemory, Sequence};
use elab_const::{ConstFault, ConstKind, Entry, Scope, shape};
use std::alloc::Global;
use verilog_tree::Module;

/// Expressions with a fault, its kind, and the column of its place. `a` has 128 bits, `b` one.
const FAULTS: &[(&str, ConstKind, u32)] = &[
    ("{a, b}", ConstKind::TooWide, 1),
    ("{0{a}}", ConstKind::BadRange, 1),
    ("{129{b}}", ConstKind::TooWide, 1),
    ("{a{b}}", ConstKind::NotConstant, 2),
    ("a[a:0]", ConstKind::NotConstant, 3),
    ("a[1'bx:0]", ConstKind::NotConstant, 3),
    ("a[-1:0]", ConstKind::BadRange, 2),
    ("a[1048576:1048570]", ConstKind::BadRange, 2),
    ("a[128:0]", ConstKind::TooWide, 2),
    ("a[0:1]", ConstKind::BadRange, 2),
    ("a[0+:0]", ConstKind::BadRange, 2),
    ("a[0+:a]", ConstKind::NotConstant, 6),
    ("a + c", ConstKind::NotConstant, 5),
];

/// A scope in which `a` has 128 bits and `b` one.
pub(crate) fn signals(alloc: Global) -> Result<Scope, NoMemory> {
    let mut scope = Scope::new(alloc);
    for (name, width) in [("a", 128), ("b", 1)] {
        let entry = Entry::Signal {
            high: width as u32 - 1,
            low: 0,
            ranged: width > 1,
            width,
            signed: false,
        };
        let _ = scope.insert(name, entry)?;
    }
    Ok(scope)
}

/// Whether the fault is of this kind and at this column.
pub(crate) fn is_at(fault: ConstFault, wanted: ConstKind, column: u32) -> bool {
    match fault {
        ConstFault::At { kind, place } => {
            kind == wanted && place.source == 1 && place.line == 1 && place.column == column
        }
        _ => false,
    }
}

/// The fault of the width of what the module assigns.
fn fault_of(modules: &Sequence<Module>, scope: &Scope) -> Option<ConstFault> {
    match shape(expression_of(modules)?, scope) {
        Ok(_) => None,
        Err(fault) => Some(fault),
    }
}

/// Whether the expression has this fault, at a column that is counted from its begin.
fn has_fault(alloc: Global, text: &str, kind: ConstKind, column: u32) -> bool {
    let (Ok(scope), Some(modules)) = (signals(alloc), assigning(alloc, text)) else {
        return false;
    };
    match fault_of(&modules, &scope) {
        Some(fault) => is_at(fault, kind, column.saturating_add(EXPRESSION)),
        None => false,
    }
}

#[test]
fn faults_of_widths(rt: HostRuntime) {
    for (text, kind, column) in FAULTS {
        assert!(rt; has_fault(rt.alloc(), text, *kind, *column), "{text}");
    }
}
