use cov_host::{Name, NoMemory, Place};
use four_state::Binary;
use std::alloc::Global;
use std::process::Abort;
use std::test::Fail;
use verilog_tree::{Depth, Expr, ExprForm, Range};

fn at(column: u32) -> Place {
    Place {
        source: 1,
        line: 1,
        column,
    }
}

fn name(alloc: Global, column: u32, text: &str) -> Result<Expr, NoMemory> {
    let bytes = Vec::from_slice(alloc, text.as_bytes())?;
    Expr::name(alloc, at(column), Name::from_vec(bytes))
}

/// Whether the expression is this name.
fn is_name(expr: &Expr, text: &str) -> bool {
    match &*expr.form {
        ExprForm::Name(name) => name.as_slice() == text.as_bytes(),
        _ => false,
    }
}

/// `[a+b:c]`.
fn sum_to_name(alloc: Global) -> Result<Range, NoMemory> {
    let (a, b) = (name(alloc, 2, "a")?, name(alloc, 6, "b")?);
    Ok(Range {
        high: Expr::binary(alloc, Binary::Add, a, b)?,
        low: name(alloc, 8, "c")?,
        bracket: at(1),
    })
}

#[test]
fn a_range_is_copied(rt: HostRuntime) -> Result<(), Fail> {
    let copy = sum_to_name(rt.alloc())?.try_copy(rt.alloc())?;
    let ExprForm::Binary(Binary::Add, a, b) = &*copy.high.form else {
        return Err(Fail::new("no sum"));
    };
    assert!(rt; is_name(a, "a") && is_name(b, "b") && is_name(&copy.low, "c"));
    assert!(rt; copy.high.place == at(2) && copy.bracket == at(1));
    Ok(())
}

#[test]
fn the_first_of_the_innermost_is_deepest(rt: HostRuntime) -> Result<(), Fail> {
    let (one, other) = (Depth::alone(at(1)), Depth::alone(at(2)));
    assert!(rt; one.deeper(other) == one);
    assert!(rt; one.deeper(other.under()) == other.under());
    assert!(rt; Depth::none(at(3)).deeper(one).under().height == 2);
    Ok(())
}
