ghost use Rattle.std.specs.Prelude.{◌≡◌};
ghost use Rattle.verilog_tree.specs.Tree.{exprs_of};
ghost use Rattle.verilog_tree.specs.View.{expr_view, exprs_view};
ghost use Rattle.elab_const.specs.Scope.{look_up};
ghost use Rattle.elab_const.specs.Faults as spec;

use crate::Entry;
use crate::names::Names;
use verilog_tree::{Expr, ExprForm};

/// Whether an expression names constants alone, and selects nothing from them.
#[cycle(constancy)]
pub(crate) fn is_constant(names: &Names, expr: &Expr) -> bool
    ensures { result ≡ spec.is_constant (look_up names.now) (expr_view expr.now) }
{
    match &*expr.form {
        ExprForm::Number(_) => true,
        ExprForm::Name(name) => {
            matches!(names.get(name), Some(Entry::Constant(_) | Entry::Turn(_)))
        }
        ExprForm::Bit { .. } | ExprForm::Part { .. } | ExprForm::Slide { .. } => false,
        ExprForm::Unary(_, a) => is_constant(names, a),
        ExprForm::Binary(_, a, b) => is_constant(names, a) && is_constant(names, b),
        ExprForm::Choice { test, yes, no } => {
            is_constant(names, test) && is_constant(names, yes) && is_constant(names, no)
        }
        ExprForm::Concat(parts) => are_constant(names, parts),
        ExprForm::Repeat(count, parts) => {
            is_constant(names, count) && are_constant(names, parts)
        }
        ExprForm::Sign(_, a) | ExprForm::Paren(a) => is_constant(names, a),
    }
}

/// Whether all of them do.
#[cycle(constancy)]
fn are_constant(names: &Names, parts: &[Expr]) -> bool
    ensures { result ≡ spec.are_constant (look_up names.now) (exprs_of (exprs_view parts.now)) }
{
    for part in parts {
        if !is_constant(names, part) {
            return false;
        }
    }
    true
}
