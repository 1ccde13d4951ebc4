ghost use Rattle.std.specs.Prelude.{◌≡◌, min};
ghost use Rattle.verilog_tree.specs.Tree.{exprs_of};
ghost use Rattle.verilog_tree.specs.View.{expr_view, exprs_view};
ghost use Rattle.elab_const.specs.Weight as spec;

use verilog_tree::{Expr, ExprForm};

/// The number of repeats in an expression, also in their counts, as far as a number can say it.
#[cycle(weight)]
pub(crate) fn repeats(expr: &Expr) -> u64
    ensures { result ≡ min (spec.repeats (expr_view expr.now)) 18446744073709551615 }
{
    match &*expr.form {
        ExprForm::Number(_) | ExprForm::Name(_) => 0,
        ExprForm::Bit { of, index } => repeats(of).saturating_add(repeats(index)),
        ExprForm::Part { of, high, low, .. } => {
            let bounds = repeats(high).saturating_add(repeats(low));
            repeats(of).saturating_add(bounds)
        }
        ExprForm::Slide {
            of,
            base,
            width,
            ..
        } => {
            let size = repeats(base).saturating_add(repeats(width));
            repeats(of).saturating_add(size)
        }
        ExprForm::Unary(_, a) => repeats(a),
        ExprForm::Binary(_, a, b) => repeats(a).saturating_add(repeats(b)),
        ExprForm::Choice { test, yes, no } => {
            let sides = repeats(yes).saturating_add(repeats(no));
            repeats(test).saturating_add(sides)
        }
        ExprForm::Concat(parts) => repeats_of_all(parts),
        ExprForm::Repeat(count, parts) => {
            let inner = repeats(count).saturating_add(repeats_of_all(parts));
            inner.saturating_add(1)
        }
        ExprForm::Sign(_, a) | ExprForm::Paren(a) => repeats(a),
    }
}

/// The number of repeats in all parts together, as far as a number can say it.
#[cycle(weight)]
fn repeats_of_all(parts: &[Expr]) -> u64
    ensures { result ≡ min (spec.repeats_of_all (exprs_of (exprs_view parts.now))) 18446744073709551615 }
{
    let mut sum: u64 = 0;
    for part in parts {
        sum = sum.saturating_add(repeats(part));
    }
    sum
}
