//! The width, the sign and the value of an expression, or its first fault.

ghost use Rattle.std.specs.Prelude.{◌≡◌, ◌≤◌, IfOk, IfSome, Ok, Some, None, true};
ghost use Rattle.verilog_tree.specs.Tree.{exprs_of, part_select, indexed_part};
ghost use Rattle.verilog_tree.specs.View.{expr_view, exprs_view};
ghost use Rattle.elab_const.specs.Meaning.{IsShape, IsJoined, bits_before, parts_of};
ghost use Rattle.elab_const.specs.Faults as spec;
ghost use Rattle.elab_const.specs.Faults.{fault_of, first_fault};
ghost use Rattle.elab_const.specs.Scope.{earlier, look_up, on_ok, unless};

use crate::Shape;
use crate::answer::{
    bit_shape, bound_in, choice_shape, count_in, joint_shape, named_shape, operand_shape,
    part_shape, repeated_shape, signed_shape, size_in, slide_shape, total_shape,
};
use crate::applied::{binary, choice, concat, named, number_in, repeat, sign, unary, unread};
use crate::constancy::is_constant;
use crate::context::{around_operand, beside};
use crate::evaluated::{Evaluated, shape_in, value_in};
use crate::fault::{ConstKind, Fault, both};
use crate::joined::Joined;
use crate::names::Names;
use crate::selected::{falls, select_shape};
use crate::weight::repeats;
use crate::width::Operands;
use cov_host::Place;
use four_state::{Binary, Four, Index};
use verilog_tree::{Expr, ExprForm};

/// The width and sign of an expression alone, or its first fault.
#[cycle(evaluate)]
pub(crate) fn measure(names: &Names, expr: &Expr) -> Result<Shape, Fault>
    ensures answer { result ≡ spec.shape_answer (look_up names.now) (expr_view expr.now) }
    ensures within { IfOk result IsShape }
{
    match &*expr.form {
        ExprForm::Number(number) => Ok(Shape::of_number(number)),
        ExprForm::Name(name) => named_shape(expr.place, names.get(name)),
        ExprForm::Bit { of, index } => {
            let parts = both(measure(names, of), measure(names, index));
            bit_shape(select_shape(names, of), parts)
        }
        ExprForm::Part {
            of,
            high,
            low,
            bracket,
        } => measure_part(names, of, high, low, *bracket),
        ExprForm::Slide {
            of,
            base,
            width,
            bracket,
            ..
        } => measure_slide(names, of, base, width, *bracket),
        ExprForm::Unary(op, a) => operand_shape(*op, measure(names, a)),
        ExprForm::Binary(op, a, b) => {
            joint_shape(*op, both(measure(names, a), measure(names, b)))
        }
        ExprForm::Choice { test, yes, no } => {
            let sides = both(measure(names, yes), measure(names, no));
            choice_shape(both(measure(names, test), sides))
        }
        ExprForm::Concat(parts) => total_shape(expr.place, total_width(names, parts)),
        ExprForm::Repeat(count, parts) => {
            let times = count_in(expr.place, number(names, count));
            repeated_shape(expr.place, both(times, total_width(names, parts)))
        }
        ExprForm::Sign(signed, a) => signed_shape(*signed, measure(names, a)),
        ExprForm::Paren(a) => measure(names, a),
    }
}

/// The width and sign of the part of an expression with this bracket, or its first fault.
#[cycle(evaluate)]
fn measure_part(
    names: &Names,
    of: &Expr,
    high: &Expr,
    low: &Expr,
    bracket: Place,
) -> Result<Shape, Fault>
    ensures answer { result ≡ spec.shape_answer (look_up names.now) (part_select bracket (expr_view of.now) (expr_view high.now) (expr_view low.now) bracket) }
    ensures within { IfOk result IsShape }
{
    let bounds = both(
        bound_in(bracket, number(names, high)),
        bound_in(bracket, number(names, low)),
    );
    part_shape(bracket, falls(names, of), both(measure(names, of), bounds))
}

/// The width and sign of the indexed part of an expression with this bracket, or its first fault.
#[cycle(evaluate)]
fn measure_slide(
    names: &Names,
    of: &Expr,
    base: &Expr,
    width: &Expr,
    bracket: Place,
) -> Result<Shape, Fault>
    ensures answer { result ≡ spec.shape_answer (look_up names.now) (indexed_part bracket (expr_view of.now) (expr_view base.now) (expr_view width.now) true bracket) }
    ensures within { IfOk result IsShape }
{
    let size = size_in(bracket, number(names, width));
    let parts = both(measure(names, of), both(measure(names, base), size));
    slide_shape(parts)
}

/// The widths of all parts together, or their first fault.
#[cycle(evaluate)]
fn total_width(names: &Names, parts: &[Expr]) -> Result<u128, Fault>
    ensures { result ≡ spec.width_answer (look_up names.now) (exprs_of (exprs_view parts.now)) }
{
    let mut found = None;
    let mut width: u128 = 0;
    for part in parts {
        match measure(names, part) {
            Ok(shape) => width += shape.width as u128,
            Err(fault) => found = Some(first_found(found, fault)),
        }
    }
    match found {
        Some(fault) => Err(fault),
        None => Ok(width),
    }
}

/// The first of a fault, if there is one, and of another that was found after it.
fn first_found(found: Option<Fault>, fault: Fault) -> Fault
    ensures { Some result ≡ earlier found (Some fault) }
{
    match found {
        Some(found) => found.first(fault),
        None => fault,
    }
}

/// The number that an expression says which must be a constant number, or its first fault.
#[cycle(evaluate)]
pub(crate) fn number(names: &Names, expr: &Expr) -> Result<Index, Fault>
    ensures { result ≡ spec.number_answer (look_up names.now) (expr_view expr.now) }
{
    if !is_constant(names, expr) {
        return Err(Fault::at(ConstKind::NotConstant, expr.place));
    }
    number_in(expr.place, value_in(evaluate(names, expr, None)))
}

/// The value of an expression alone, or its first fault.
pub(crate) fn alone(names: &Names, expr: &Expr) -> Result<Four, Fault>
    ensures { result ≡ spec.alone_answer (look_up names.now) (expr_view expr.now) }
{
    value_in(evaluate(names, expr, None))
}

/// The width and sign of an expression and its value in its context, or its first fault. Both are found
/// together, so that a count in it is evaluated once.
#[cycle(evaluate)]
pub(crate) fn evaluate(
    names: &Names,
    expr: &Expr,
    around: Option<Shape>,
) -> Result<Evaluated, Fault>
    requires { IfSome around IsShape }
    ensures answer { result ≡ spec.evaluated_answer (look_up names.now) (expr_view expr.now) around }
    ensures within { IfOk result (λ e. IsShape e.shape) }
{
    match &*expr.form {
        ExprForm::Number(value) => Ok(Evaluated::of(Shape::of_number(value), value, around)),
        ExprForm::Name(name) => named(expr.place, names.get(name), around),
        ExprForm::Bit { .. } => unread(measure(names, expr), around),
        ExprForm::Part { .. } => unread(measure(names, expr), around),
        ExprForm::Slide { .. } => unread(measure(names, expr), around),
        ExprForm::Unary(op, a) => {
            let a = evaluate(names, a, around_operand(*op, around));
            unary(*op, a, around)
        }
        ExprForm::Binary(op, a, b) => { binary(*op, operands(names, *op, a, b, around), around) }
        ExprForm::Choice { test, yes, no } => {
            let sides = pair(names, yes, no, around);
            choice(both(evaluate(names, test, None), sides), around)
        }
        ExprForm::Concat(parts) => concat(expr.place, joined_parts(names, parts), around),
        ExprForm::Repeat(count, parts) => {
            let times = count_in(expr.place, number(names, count));
            repeat(expr.place, both(times, joined_parts(names, parts)), around)
        }
        ExprForm::Sign(signed, a) => sign(*signed, evaluate(names, a, None), around),
        ExprForm::Paren(a) => evaluate(names, a, around),
    }
}

/// Both operands of an operator as it takes them, in its context, or their first fault.
#[cycle(evaluate)]
fn operands(
    names: &Names,
    op: Binary,
    a: &Expr,
    b: &Expr,
    around: Option<Shape>,
) -> Result<(Evaluated, Evaluated), Fault>
    requires { IfSome around IsShape }
    ensures answer { result ≡ spec.operands_answer (look_up names.now) op (expr_view a.now) (expr_view b.now) around }
    ensures within { IfOk result (λ p. IsShape p.0.shape × IsShape p.1.shape) }
{
    match Operands::of(op) {
        Operands::Wide => pair(names, a, b, around),
        Operands::Shift => both(evaluate(names, a, around), evaluate(names, b, None)),
        Operands::Logic => both(evaluate(names, a, None), evaluate(names, b, None)),
        Operands::Compared => pair(names, a, b, None),
    }
}

/// Two expressions in their common context, or their first fault. The width of one must be known before the other can
/// be evaluated, so one is looked at twice: the one with fewer repeats. Else the time could double with each nested
/// count.
#[cycle(evaluate)]
fn pair(
    names: &Names,
    a: &Expr,
    b: &Expr,
    around: Option<Shape>,
) -> Result<(Evaluated, Evaluated), Fault>
    requires { IfSome around IsShape }
    ensures answer { result ≡ spec.pair_answer (look_up names.now) (expr_view a.now) (expr_view b.now) around }
    ensures within { IfOk result (λ p. IsShape p.0.shape × IsShape p.1.shape) }
{
    if repeats(a) < repeats(b) {
        let last = evaluate(names, b, beside(around, measure(names, a)));
        let first = evaluate(names, a, beside(around, shape_in(&last)));
        both(first, last)
    } else {
        let first = evaluate(names, a, beside(around, measure(names, b)));
        let last = evaluate(names, b, beside(around, shape_in(&first)));
        both(first, last)
    }
}

/// The parts of a concatenation side by side, the last one lowest, or their first fault.
#[cycle(evaluate)]
fn joined_parts(names: &Names, parts: &[Expr]) -> Result<Joined, Fault>
    ensures width { on_ok result (λ j. Ok j.width) ≡ spec.width_answer (look_up names.now) (exprs_of (exprs_view parts.now)) }
    ensures bits { IfOk result (λ j. j.width ≤ 128 → bits_before j.value ≡ (parts_of (look_up names.now) (exprs_of (exprs_view parts.now))).bits) }
    ensures whole { IfOk result IsJoined }
{
    let mut found = None;
    let mut joined = Joined::empty();
    for part in parts {
        match evaluate(names, part, None) {
            Ok(part) => joined = joined.with(&part.value),
            Err(fault) => found = Some(first_found(found, fault)),
        }
    }
    match found {
        Some(fault) => Err(fault),
        None => Ok(joined),
    }
}
