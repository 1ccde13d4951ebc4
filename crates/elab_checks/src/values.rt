//! The numbers and widths that expressions without a fault have.

ghost use Rattle.std.specs.Prelude.{◌≡◌, true, false};
ghost use Rattle.std.specs.List.{list_any};
ghost use Rattle.elab_const.specs.Faults.{is_bad_bound};
ghost use Rattle.elab_const.specs.Meaning.{IsShape};
ghost use Rattle.elab_const.specs.Scope.{IsWidth};
ghost use Rattle.elab_const.specs.Meaning as meaning;
ghost use Rattle.flat_design.specs.Expressions.{faults, all_faults};
ghost use Rattle.flat_design.specs.Fault.{none};
ghost use Rattle.flat_design.specs.Identifiers.{all_identifiers};
ghost use Rattle.flat_design.specs.Scope as of;
ghost use Rattle.flat_design.specs.Scope.{binding_of, is_faulty_entry, look_up, names};
ghost use Rattle.verilog_tree.specs.Tree.{exprs_of, concatenation};
ghost use Rattle.verilog_tree.specs.View.{expr_view, exprs_view};

use elab_const::Shape;
use elab_scope::{Scope, names_faulty};
use four_state::Index;
use verilog_tree::Expr;

/// The number that a constant expression says.
pub fn number(scope: &Scope, expr: &Expr) -> Index
    requires constant { of.names_constants (binding_of scope.now) (expr_view expr.now) ≡ true }
    requires sound { none (faults (binding_of scope.now) (expr_view expr.now)) ≡ true }
    ensures { result ≡ meaning.number_of (names (binding_of scope.now)) (expr_view expr.now) }
{
    match elab_const::constant(scope.alloc(), expr, scope.values()) {
        Ok(value) => value.index(),
        Err(_) => unreachable!(),
    }
}

/// The number that a bound of a range or part says.
pub fn bound(scope: &Scope, expr: &Expr) -> u32
    requires constant { of.names_constants (binding_of scope.now) (expr_view expr.now) ≡ true }
    requires sound { none (faults (binding_of scope.now) (expr_view expr.now)) ≡ true }
    requires within { is_bad_bound (meaning.number_of (names (binding_of scope.now)) (expr_view expr.now)) ≡ false }
    ensures { result ≡ of.natural_number (binding_of scope.now) (expr_view expr.now) }
{
    match number(scope, expr) {
        Index::At(bound) if bound <= 1_048_575 => bound as u32,
        _ => unreachable!(),
    }
}

/// The number that the width of an indexed part says.
pub fn size(scope: &Scope, expr: &Expr) -> u8
    requires constant { of.names_constants (binding_of scope.now) (expr_view expr.now) ≡ true }
    requires sound { none (faults (binding_of scope.now) (expr_view expr.now)) ≡ true }
    requires within { IsWidth (of.natural_number (binding_of scope.now) (expr_view expr.now)) }
    ensures { result ≡ of.natural_number (binding_of scope.now) (expr_view expr.now) }
{
    match number(scope, expr) {
        Index::At(width) if width <= 128 => width as u8,
        _ => unreachable!(),
    }
}

/// The width and sign of an expression.
pub fn shape(scope: &Scope, expr: &Expr) -> Shape
    requires sound { none (faults (binding_of scope.now) (expr_view expr.now)) ≡ true }
    requires known { of.names_faulty (binding_of scope.now) (expr_view expr.now) ≡ false }
    ensures value { result ≡ of.shape (binding_of scope.now) (expr_view expr.now) }
    ensures within { IsShape result }
{
    match elab_const::shape(expr, scope.values()) {
        Ok(shape) => shape,
        Err(_) => unreachable!(),
    }
}

#[tactic(auto, using(crate::proofs::ExpressionLemmas::any_with, crate::proofs::ExpressionLemmas::none_append))]
/// The widths of all parts together.
pub(crate) fn total_width(scope: &Scope, parts: &[Expr]) -> u128
    requires sound { none (all_faults (binding_of scope.now) (exprs_of (exprs_view parts.now))) ≡ true }
    requires known { list_any (λ x. is_faulty_entry (look_up (binding_of scope.now) x.name)) (all_identifiers (exprs_of (exprs_view parts.now))) ≡ false }
    ensures { result ≡ (meaning.parts_of (names (binding_of scope.now)) (exprs_of (exprs_view parts.now))).width }
{
    let mut width: u128 = 0;
    for part in parts {
        width += u128::from(shape(scope, part).width);
    }
    width
}

#[tactic(auto, using(crate::proofs::ExpressionLemmas::any_with))]
/// Whether one of the expressions names something whose declaration has a fault.
pub(crate) fn one_names_faulty(scope: &Scope, parts: &[Expr]) -> bool
    ensures { result ≡ list_any (λ x. is_faulty_entry (look_up (binding_of scope.now) x.name)) (all_identifiers (exprs_of (exprs_view parts.now))) }
{
    for part in parts {
        if names_faulty(scope, part) {
            return true;
        }
    }
    false
}
