//! Copies of expressions.

ghost use Rattle.std.specs.Prelude.{◌≡◌, IfOk};
ghost use Rattle.verilog_tree.specs.View.{expr_view, exprs_view, range_view};

use crate::{Expr, ExprForm, Range};
use cov_host::{Name, NoMemory};
use std::alloc::Global;

/// A copy of the name.
fn copied_name(alloc: Global, name: &Name) -> Result<Name, NoMemory>
    ensures { IfOk result (λ copy. copy ≡ name.now) }
{
    Ok(Name::from_vec(Vec::from_slice(alloc, name.as_slice())?))
}

/// Copies of the expressions.
#[cycle(copy)]
fn all_copied(alloc: Global, exprs: &[Expr]) -> Result<Vec<Expr>, NoMemory>
    ensures { IfOk result (λ copy. exprs_view copy.items ≡ exprs_view exprs.now) }
{
    let mut all = Vec::new(alloc);
    for expr in exprs {
        all.push(copied(alloc, expr)?)?;
    }
    Ok(all)
}

/// A copy of the expression.
#[cycle(copy)]
pub(crate) fn copied(alloc: Global, expr: &Expr) -> Result<Expr, NoMemory>
    ensures { IfOk result (λ copy. expr_view copy ≡ expr_view expr.now) }
{
    let place = expr.place;
    let form = match &*expr.form {
        ExprForm::Number(value) => ExprForm::Number(*value),
        ExprForm::Name(name) => ExprForm::Name(copied_name(alloc, name)?),
        ExprForm::Bit { of, index } => ExprForm::Bit {
            of: copied(alloc, of)?,
            index: copied(alloc, index)?,
        },
        ExprForm::Part {
            of,
            high,
            low,
            bracket,
        } => ExprForm::Part {
            of: copied(alloc, of)?,
            high: copied(alloc, high)?,
            low: copied(alloc, low)?,
            bracket: *bracket,
        },
        ExprForm::Slide {
            of,
            base,
            width,
            up,
            bracket,
        } => ExprForm::Slide {
            of: copied(alloc, of)?,
            base: copied(alloc, base)?,
            width: copied(alloc, width)?,
            up: *up,
            bracket: *bracket,
        },
        ExprForm::Unary(op, a) => ExprForm::Unary(*op, copied(alloc, a)?),
        ExprForm::Binary(op, a, b) => {
            ExprForm::Binary(*op, copied(alloc, a)?, copied(alloc, b)?)
        }
        ExprForm::Choice { test, yes, no } => ExprForm::Choice {
            test: copied(alloc, test)?,
            yes: copied(alloc, yes)?,
            no: copied(alloc, no)?,
        },
        ExprForm::Concat(parts) => ExprForm::Concat(all_copied(alloc, parts)?),
        ExprForm::Repeat(count, parts) => {
            ExprForm::Repeat(copied(alloc, count)?, all_copied(alloc, parts)?)
        }
        ExprForm::Sign(signed, a) => ExprForm::Sign(*signed, copied(alloc, a)?),
        ExprForm::Paren(a) => ExprForm::Paren(copied(alloc, a)?),
    };
    Ok(Expr {
        place,
        form: Box::new(alloc, form)?,
    })
}

impl Range {
    /// A copy of the range.
    pub fn try_copy(&self, alloc: Global) -> Result<Range, NoMemory>
        ensures { IfOk result (λ copy. range_view copy ≡ range_view self.now) }
    {
        Ok(Range {
            high: copied(alloc, &self.high)?,
            low: copied(alloc, &self.low)?,
            bracket: self.bracket,
        })
    }
}
