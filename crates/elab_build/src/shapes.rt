//! The width and sign of expressions and of operands.

ghost use Rattle.std.specs.Prelude.{◌≡◌};
ghost use Rattle.elab_const.specs.Meaning as of;
ghost use Rattle.elab_const.specs.Meaning.{IsShape};
ghost use Rattle.elab_build.specs.Sound.{IsSound};
ghost use Rattle.flat_design.specs.Scope as spec;
ghost use Rattle.flat_design.specs.Scope.{binding_of};
ghost use Rattle.verilog_tree.specs.Tree.{binary_operator, place_of};
ghost use Rattle.verilog_tree.specs.View.{expr_view};

use elab_const::{Operands, Shape, takes_context};
use elab_scope::Scope;
use four_state::{Binary, Unary};
use verilog_tree::{Expr, ExprForm};

/// The width and sign of an expression alone (IEEE 1364-2001, 4.4 and 4.5). The operands of an operator that always gives
/// one bit are not gone through.
#[cycle(shape)]
pub fn shape_of(scope: &Scope, expr: &Expr) -> Shape
    requires sound { IsSound (binding_of scope.now) (expr_view expr.now) }
    ensures value { result ≡ spec.shape (binding_of scope.now) (expr_view expr.now) }
    ensures within { IsShape result }
{
    match &*expr.form {
        ExprForm::Unary(op, a) => unary_shape(scope, *op, a),
        ExprForm::Binary(op, a, b) => binary_shape(scope, *op, a, b),
        ExprForm::Paren(a) => shape_of(scope, a),
        _ => measured(scope, expr),
    }
}

/// The width and sign of an operator with one operand.
#[cycle(shape)]
fn unary_shape(scope: &Scope, op: Unary, a: &Expr) -> Shape
    requires sound { IsSound (binding_of scope.now) (expr_view a.now) }
    ensures value { result ≡ of.unary_shape op (spec.shape (binding_of scope.now) (expr_view a.now)) }
    ensures within { IsShape result }
{
    if takes_context(op) {
        shape_of(scope, a)
    } else {
        Shape::one_bit()
    }
}

/// The width and sign of an operator with two operands.
#[cycle(shape)]
fn binary_shape(scope: &Scope, op: Binary, a: &Expr, b: &Expr) -> Shape
    requires sound { IsSound (binding_of scope.now) (binary_operator (place_of (expr_view a.now)) op (expr_view a.now) (expr_view b.now)) }
    ensures value { result ≡ of.binary_shape op (spec.shape (binding_of scope.now) (expr_view a.now)) (spec.shape (binding_of scope.now) (expr_view b.now)) }
    ensures within { IsShape result }
{
    match Operands::of(op) {
        Operands::Wide => shape_of(scope, a).common(shape_of(scope, b)),
        Operands::Shift => shape_of(scope, a),
        Operands::Logic | Operands::Compared => Shape::one_bit(),
    }
}

/// The width and sign of an expression alone, by all that is in it.
fn measured(scope: &Scope, expr: &Expr) -> Shape
    requires sound { IsSound (binding_of scope.now) (expr_view expr.now) }
    ensures value { result ≡ spec.shape (binding_of scope.now) (expr_view expr.now) }
    ensures within { IsShape result }
{
    match elab_const::shape(expr, scope.values()) {
        Ok(shape) => shape,
        Err(_) => unreachable!(),
    }
}

/// The context that an operator gives its operand, by the operand's shape alone and its own context.
pub(crate) fn operand_shape(scope: &Scope, op: Unary, a: &Expr, context: Shape) -> Shape
    requires sound { IsSound (binding_of scope.now) (expr_view a.now) }
    ensures { result ≡ of.operand_shape op (spec.shape (binding_of scope.now) (expr_view a.now)) context }
{
    if takes_context(op) {
        context
    } else {
        shape_of(scope, a)
    }
}

/// The contexts that an operator gives its operands, by their shapes alone and its own context. An operand is gone through
/// only where a context depends on it, so that a chain of operators is not gone through once for each of them.
pub(crate) fn operand_shapes(
    scope: &Scope,
    op: Binary,
    a: &Expr,
    b: &Expr,
    context: Shape,
) -> (Shape, Shape)
    requires left { IsSound (binding_of scope.now) (expr_view a.now) }
    requires right { IsSound (binding_of scope.now) (expr_view b.now) }
    ensures { result ≡ of.operand_shapes (of.operands_of op) (spec.shape (binding_of scope.now) (expr_view a.now)) (spec.shape (binding_of scope.now) (expr_view b.now)) context }
{
    match Operands::of(op) {
        Operands::Wide => (context, context),
        Operands::Shift => (context, shape_of(scope, b)),
        Operands::Logic => (shape_of(scope, a), shape_of(scope, b)),
        Operands::Compared => compared_shapes(scope, a, b),
    }
}

/// The contexts of the sides of a comparison: what both have in common.
fn compared_shapes(scope: &Scope, a: &Expr, b: &Expr) -> (Shape, Shape)
    requires left { IsSound (binding_of scope.now) (expr_view a.now) }
    requires right { IsSound (binding_of scope.now) (expr_view b.now) }
    ensures left { result.0 ≡ of.common_shape (spec.shape (binding_of scope.now) (expr_view a.now)) (spec.shape (binding_of scope.now) (expr_view b.now)) }
    ensures right { result.1 ≡ result.0 }
{
    let shape = shape_of(scope, a).common(shape_of(scope, b));
    (shape, shape)
}
