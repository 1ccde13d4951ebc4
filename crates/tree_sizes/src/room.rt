ghost use Rattle.std.specs.Prelude.{◌≡◌, ◌-◌, suc, length};
ghost use Rattle.tree_sizes.specs.Sizes.{all_sizes, size};
ghost use Rattle.verilog_tree.specs.Tree.{exprs_of};
ghost use Rattle.verilog_tree.specs.View.{expr_view, exprs_view};

use verilog_tree::{Expr, ExprForm};

/// How much more text may be gone through: a number of parts, with the bytes of their names. Where a text is larger,
/// nothing is left.
#[derive(Clone, Copy)]
pub struct Room {
    /// How much is left.
    pub left: usize,
}

impl Room {
    /// Takes so much.
    pub(crate) fn take(&mut self, count: usize)
        ensures { self.new.left ≡ self.old.left - count }
    {
        self.left = self.left.saturating_sub(count);
    }

    /// Takes a name.
    pub(crate) fn name(&mut self, name: &[u8])
        ensures { self.new.left ≡ self.old.left - suc (length name.now) }
    {
        self.take(1);
        self.take(name.len());
    }

    /// Takes an expression (IEEE 1364-2001 clause 4).
    #[cycle(expression)]
    pub fn expression(&mut self, expr: &Expr)
        ensures { self.new.left ≡ self.old.left - size (expr_view expr.now) }
    {
        self.take(1);
        match &*expr.form {
            ExprForm::Number(_) => {}
            ExprForm::Name(name) => self.take(name.len()),
            ExprForm::Unary(_, a) | ExprForm::Sign(_, a) | ExprForm::Paren(a) => {
                self.expression(a);
            }
            ExprForm::Bit { of: a, index: b } | ExprForm::Binary(_, a, b) => {
                self.expression(a);
                self.expression(b);
            }
            ExprForm::Part {
                of: a,
                high: b,
                low: c,
                ..
            }
            | ExprForm::Slide {
                of: a,
                base: b,
                width: c,
                ..
            }
            | ExprForm::Choice {
                test: a,
                yes: b,
                no: c,
            } => {
                self.expression(a);
                self.expression(b);
                self.expression(c);
            }
            ExprForm::Concat(parts) => self.expressions(parts),
            ExprForm::Repeat(count, parts) => {
                self.expression(count);
                self.expressions(parts);
            }
        }
    }

    /// Takes expressions.
    #[cycle(expression)]
    pub fn expressions(&mut self, exprs: &[Expr])
        ensures { self.new.left ≡ self.old.left - all_sizes (exprs_of (exprs_view exprs.now)) }
    {
        for expr in exprs {
            self.expression(expr);
        }
    }
}
