//! Loops and cases: the turns of the one and the width of the other.
use crate::faults::{is_at, signals};
use crate::parsed::{STATEMENT, executing, loop_of, statement_of};
use cov_host::Sequence;
use elab_const::{ConstFault, ConstKind, Scope, Turns, case_shape, turns};
use four_state::Four;
use std::alloc::Global;
use verilog_tree::{Module, StatementForm};

/// Loops, and the values of their variable in order.
const LOOPS: &[(&str, &[u32])] = &[
    ("for (i = 0; i < 3; i = i + 1)", &[0, 1, 2]),
    ("for (i = 2; i >= 0; i = i - 1)", &[2, 1, 0]),
    ("for (i = 0; i < 0; i = i + 1)", &[]),
];

/// Loops with a fault, at the place of the `for`.
const FAULTS: &[(&str, ConstKind)] = &[
    ("for (i = 0; i < a; i = i + 1)", ConstKind::LoopNotConstant),
    (
        "for (i = 0; i < 1'bx; i = i + 1)",
        ConstKind::LoopNotConstant,
    ),
    ("for (i = 0; i < 1025; i = i + 1)", ConstKind::LoopTooLong),
    ("for (i = 0; 1; i = i)", ConstKind::LoopTooLong),
    ("for (i = 0; i < 3; j = i + 1)", ConstKind::LoopNotConstant),
];

/// The turns of the loop that a module has, or its fault.
fn turns_in(
    alloc: Global,
    modules: &Sequence<Module>,
    scope: &Scope,
) -> Option<Result<Turns, ConstFault>> {
    match loop_of(modules) {
        Some(header) => Some(turns(alloc, header, scope)),
        None => None,
    }
}

/// The same of the loop that this text is.
fn turns_of(alloc: Global, text: &str) -> Option<Result<Turns, ConstFault>> {
    match (signals(alloc), executing(alloc, text)) {
        (Ok(scope), Some(modules)) => turns_in(alloc, &modules, &scope),
        _ => None,
    }
}

/// A number of 32 bits with a sign.
fn signed_number(number: u32) -> Four {
    Four::make(32, true, number as u128, 0)
}

/// Whether the values are these numbers, of 32 bits and with a sign.
fn are_numbers(values: &[Four], numbers: &[u32]) -> bool {
    values.len() == numbers.len()
        && values
            .iter()
            .zip(numbers.iter())
            .all(|(value, number)| *value == signed_number(*number))
}

fn has_turns(alloc: Global, text: &str, numbers: &[u32]) -> bool {
    match turns_of(alloc, text) {
        Some(Ok(turns)) => are_numbers(turns.as_slice(), numbers),
        _ => false,
    }
}

fn has_fault(alloc: Global, text: &str, kind: ConstKind) -> bool {
    match turns_of(alloc, text) {
        Some(Err(fault)) => is_at(fault, kind, STATEMENT),
        _ => false,
    }
}

#[test]
fn turns_of_loops(rt: HostRuntime) {
    for (text, numbers) in LOOPS {
        assert!(rt; has_turns(rt.alloc(), text, numbers));
    }
}

#[test]
fn faults_of_loops(rt: HostRuntime) {
    for (text, kind) in FAULTS {
        assert!(rt; has_fault(rt.alloc(), text, *kind));
    }
}

#[test]
fn the_most_turns_of_a_loop(rt: HostRuntime) {
    assert!(rt;
        match turns_of(rt.alloc(), "for (i = 0; i < 1024; i = i + 1)") {
            Some(Ok(turns)) => turns.len() == 1024,
            _ => false,
        }
    );
}

/// Whether it is a case that is compared in three bits without a sign.
fn is_three_wide(alloc: Global, form: &StatementForm) -> bool {
    let StatementForm::Case { on, arms, .. } = form else {
        return false;
    };
    match case_shape(on, arms.as_slice(), &Scope::new(alloc)) {
        Ok(shape) => shape.width == 3 && !shape.signed,
        Err(_) => false,
    }
}

/// The same of the statement that a module has.
fn has_three_wide(alloc: Global, modules: &Sequence<Module>) -> bool {
    match statement_of(modules) {
        Some(statement) => is_three_wide(alloc, &statement.form),
        None => false,
    }
}

#[test]
fn widths_of_cases(rt: HostRuntime) {
    let alloc = rt.alloc();
    let modules = executing(alloc, "case (2'sb10) 3'sb110, 1'b1: ; endcase initial");
    assert!(rt;
        match &modules {
            Some(modules) => has_three_wide(alloc, modules),
            None => false,
        }
    );
}
