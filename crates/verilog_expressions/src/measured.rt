//! Expressions with their depths.

ghost use Rattle.std.specs.Prelude.{◌≡◌, ◌<◌, ◌^◌, ◌++◌, ◌∷◌, [], IfOk};
ghost use Rattle.verilog_tree.specs.Tree as t;
ghost use Rattle.verilog_tree.specs.Tree.{place_of, exprs_of};
ghost use Rattle.verilog_tree.specs.View.{expr_view, exprs_view};
ghost use Rattle.verilog_tree.specs.Depth.{depth as depth_of, deepest_of, none};

use cov_host::{Name, NoMemory, Place};
use four_state::{Binary, Four, Unary};
use std::alloc::Global;
use verilog_tree::{Depth, Expr, ExprForm};

/// An expression and how deep it nests.
#[derive(Drop)]
pub struct Measured {
    expr: Expr,
    depth: Depth,
    ghost measured: { depth ≡ depth_of (expr_view expr) },
}

impl Measured {
    ghost use Rattle.verilog_expressions.specs.Measured.{IsLow, is_bit_select, measured_view, list_view};

    /// The expression without its depth.
    pub fn into_expr(self) -> Expr
        ensures { result ≡ self.expr }
    {
        let Measured { expr, depth: _ } = self;
        expr
    }

    /// How deep the expression nests.
    pub(crate) fn depth(&self) -> Depth
        ensures { result ≡ depth_of (measured_view self.now) }
    {
        self.depth
    }

    /// How deep the expression nests, which may become a part of a greater one.
    pub(crate) fn part_depth(&self) -> Depth
        requires { IsLow (measured_view self.now) }
        ensures depth { result ≡ depth_of (measured_view self.now) }
        ensures low { result.height < 2 ^ 32 }
    {
        self.depth
    }

    /// Whether it is a select of one bit.
    pub(crate) fn is_bit(&self) -> bool
        ensures { result ≡ is_bit_select (measured_view self.now) }
    {
        matches!(&*self.expr.form, ExprForm::Bit { .. })
    }

    /// A number.
    pub(crate) fn number(alloc: Global, place: Place, value: Four) -> Result<Measured, NoMemory>
        ensures { IfOk result (λ e. measured_view e ≡ t.literal place value) }
    {
        Ok(Measured {
            expr: Expr::number(alloc, place, value)?,
            depth: Depth::alone(place),
        })
    }

    /// A name.
    pub(crate) fn name(alloc: Global, place: Place, name: Name) -> Result<Measured, NoMemory>
        ensures { IfOk result (λ e. measured_view e ≡ t.identifier place name) }
    {
        Ok(Measured {
            expr: Expr::name(alloc, place, name)?,
            depth: Depth::alone(place),
        })
    }

    /// `of[index]`.
    pub(crate) fn bit(alloc: Global, of: Measured, index: Measured) -> Result<Measured, NoMemory>
        requires of { IsLow (measured_view of) }
        requires index { IsLow (measured_view index) }
        ensures { IfOk result (λ e. measured_view e ≡ t.bit_select (place_of (measured_view of)) (measured_view of) (measured_view index)) }
    {
        let depth = of.part_depth().deeper(index.part_depth()).under();
        Ok(Measured {
            expr: Expr::bit(alloc, of.into_expr(), index.into_expr())?,
            depth,
        })
    }

    /// `of[high:low]`.
    pub(crate) fn part(
        alloc: Global,
        of: Measured,
        high: Measured,
        low: Measured,
        bracket: Place,
    ) -> Result<Measured, NoMemory>
        requires of { IsLow (measured_view of) }
        requires high { IsLow (measured_view high) }
        requires low { IsLow (measured_view low) }
        ensures { IfOk result (λ e. measured_view e ≡ t.part_select (place_of (measured_view of)) (measured_view of) (measured_view high) (measured_view low) bracket) }
    {
        let wider = of.part_depth().deeper(high.part_depth());
        let depth = wider.deeper(low.part_depth()).under();
        let (of, high, low) = (of.into_expr(), high.into_expr(), low.into_expr());
        Ok(Measured {
            expr: Expr::part(alloc, of, high, low, bracket)?,
            depth,
        })
    }

    /// `of[base +: width]`, or where `up` is false `of[base -: width]`.
    pub(crate) fn slide(
        alloc: Global,
        of: Measured,
        base: Measured,
        width: Measured,
        up: bool,
        bracket: Place,
    ) -> Result<Measured, NoMemory>
        requires of { IsLow (measured_view of) }
        requires base { IsLow (measured_view base) }
        requires width { IsLow (measured_view width) }
        ensures { IfOk result (λ e. measured_view e ≡ t.indexed_part (place_of (measured_view of)) (measured_view of) (measured_view base) (measured_view width) up bracket) }
    {
        let wider = of.part_depth().deeper(base.part_depth());
        let depth = wider.deeper(width.part_depth()).under();
        let (of, base, width) = (of.into_expr(), base.into_expr(), width.into_expr());
        Ok(Measured {
            expr: Expr::slide(alloc, of, base, width, up, bracket)?,
            depth,
        })
    }

    /// An operator before its operand.
    pub(crate) fn unary(
        alloc: Global,
        place: Place,
        op: Unary,
        a: Measured,
    ) -> Result<Measured, NoMemory>
        requires { IsLow (measured_view a) }
        ensures { IfOk result (λ e. measured_view e ≡ t.unary_operator place op (measured_view a)) }
    {
        let depth = a.part_depth().under();
        Ok(Measured {
            expr: Expr::unary(alloc, place, op, a.into_expr())?,
            depth,
        })
    }

    /// An operator between its operands.
    pub(crate) fn binary(
        alloc: Global,
        op: Binary,
        a: Measured,
        b: Measured,
    ) -> Result<Measured, NoMemory>
        requires left { IsLow (measured_view a) }
        requires right { IsLow (measured_view b) }
        ensures { IfOk result (λ e. measured_view e ≡ t.binary_operator (place_of (measured_view a)) op (measured_view a) (measured_view b)) }
    {
        let depth = a.part_depth().deeper(b.part_depth()).under();
        Ok(Measured {
            expr: Expr::binary(alloc, op, a.into_expr(), b.into_expr())?,
            depth,
        })
    }

    /// `test ? yes : no`.
    pub(crate) fn choice(
        alloc: Global,
        test: Measured,
        yes: Measured,
        no: Measured,
    ) -> Result<Measured, NoMemory>
        requires test { IsLow (measured_view test) }
        requires yes { IsLow (measured_view yes) }
        requires no { IsLow (measured_view no) }
        ensures { IfOk result (λ e. measured_view e ≡ t.conditional (place_of (measured_view test)) (measured_view test) (measured_view yes) (measured_view no)) }
    {
        let wider = test.part_depth().deeper(yes.part_depth());
        let depth = wider.deeper(no.part_depth()).under();
        let (test, yes, no) = (test.into_expr(), yes.into_expr(), no.into_expr());
        Ok(Measured {
            expr: Expr::choice(alloc, test, yes, no)?,
            depth,
        })
    }

    /// `$signed(a)`, or where the flag is false `$unsigned(a)`.
    pub(crate) fn sign(
        alloc: Global,
        place: Place,
        signed: bool,
        a: Measured,
    ) -> Result<Measured, NoMemory>
        requires { IsLow (measured_view a) }
        ensures { IfOk result (λ e. measured_view e ≡ t.sign_cast place signed (measured_view a)) }
    {
        let depth = a.part_depth().under();
        Ok(Measured {
            expr: Expr::sign(alloc, place, signed, a.into_expr())?,
            depth,
        })
    }

    /// `(a)`.
    pub(crate) fn paren(alloc: Global, place: Place, a: Measured) -> Result<Measured, NoMemory>
        requires { IsLow (measured_view a) }
        ensures { IfOk result (λ e. measured_view e ≡ t.parentheses place (measured_view a)) }
    {
        let depth = a.part_depth().under();
        Ok(Measured {
            expr: Expr::paren(alloc, place, a.into_expr())?,
            depth,
        })
    }

    /// A concatenation of all these, of which this is the depth.
    pub(crate) fn concat(
        alloc: Global,
        place: Place,
        parts: MeasuredList,
    ) -> Result<Measured, NoMemory>
        requires { parts.start ≡ none place }
        ensures { IfOk result (λ e. measured_view e ≡ t.concatenation place (exprs_of (list_view parts).exprs)) }
    {
        let (exprs, deepest) = parts.into_parts();
        Ok(Measured {
            expr: Expr::concat(alloc, place, exprs)?,
            depth: deepest.under(),
        })
    }

    /// A repeated concatenation.
    pub(crate) fn repeat(
        alloc: Global,
        place: Place,
        count: Measured,
        parts: MeasuredList,
    ) -> Result<Measured, NoMemory>
        requires { parts.start ≡ depth_of (measured_view count) }
        ensures { IfOk result (λ e. measured_view e ≡ t.replication place (measured_view count) (exprs_of (list_view parts).exprs)) }
    {
        let (exprs, deepest) = parts.into_parts();
        let depth = deepest.under();
        Ok(Measured {
            expr: Expr::repeat(alloc, place, count.into_expr(), exprs)?,
            depth,
        })
    }
}

/// Expressions, and the depth of the deepest of them and of what came before them.
#[derive(Drop)]
pub(crate) struct MeasuredList {
    exprs: Vec<Expr>,
    start: Depth,
    deepest: Depth,
    ghost measured: { deepest ≡ deepest_of start (exprs_of (exprs_view exprs.items)) },
    ghost low: { deepest.height < 2 ^ 32 },
}

impl MeasuredList {
    ghost use Rattle.verilog_expressions.specs.Measured.{IsLow, measured_view, list_view};

    /// One expression, after what has this depth.
    pub(crate) fn one(
        alloc: Global,
        start: Depth,
        first: Measured,
    ) -> Result<MeasuredList, NoMemory>
        requires start { start.height < 2 ^ 32 }
        requires first { IsLow (measured_view first) }
        ensures { IfOk result (λ l. list_view l ≡ record { exprs = measured_view first ∷ []; start = start }) }
    {
        let mut list = MeasuredList {
            exprs: Vec::new(alloc),
            start,
            deepest: start,
        };
        list.push(first)?;
        Ok(list)
    }

    /// Adds an expression at the end.
    pub(crate) fn push(&mut self, expr: Measured) -> Result<(), NoMemory>
        requires { IsLow (measured_view expr) }
        ensures { IfOk result (λ _. list_view self.new ≡ record { exprs = exprs_view self.old.exprs.items ++ measured_view expr ∷ []; start = self.old.start }) }
    {
        let depth = expr.part_depth();
        self.exprs.push(expr.into_expr())?;
        self.deepest = self.deepest.deeper(depth);
        Ok(())
    }

    /// The expressions and the depth.
    fn into_parts(self) -> (Vec<Expr>, Depth)
        ensures exprs { result.0 ≡ self.exprs }
        ensures deepest { result.1 ≡ deepest_of self.start (exprs_of (exprs_view self.exprs.items)) }
        ensures low { result.1.height < 2 ^ 32 }
    {
        let MeasuredList {
            exprs,
            start: _,
            deepest,
        } = self;
        (exprs, deepest)
    }

    /// The expressions.
    pub(crate) fn into_exprs(self) -> Vec<Expr>
        ensures { result ≡ self.exprs }
    {
        self.into_parts().0
    }
}
