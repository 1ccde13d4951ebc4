ghost use Rattle.std.specs.Prelude.{◌≡◌, IfOk};
ghost use Rattle.verilog_tree.specs.Tree as t;
ghost use Rattle.verilog_tree.specs.Tree.{place_of, exprs_of};
ghost use Rattle.verilog_tree.specs.View.{expr_view, exprs_view};

use cov_host::{Name, NoMemory, Place};
use four_state::{Binary, Four, Unary};
use std::alloc::Global;

/// An expression as it is written (IEEE 1364-2001 clause 4). Parentheses are a node.
#[derive(Drop)]
#[cycle(expr)]
pub struct Expr {
    /// Of its first token.
    pub place: Place,
    /// Its form, in a box.
    pub form: Box<ExprForm>,
}

/// The forms of an expression. A `bracket` is the place of the `[`.
#[derive(Drop)]
#[cycle(expr)]
pub enum ExprForm {
    Number(Four),
    Name(Name),
    /// `of[index]`.
    Bit {
        of: Expr,
        index: Expr,
    },
    /// `of[high:low]`.
    Part {
        of: Expr,
        high: Expr,
        low: Expr,
        bracket: Place,
    },
    /// `of[base +: width]`, or where `up` is false `of[base -: width]`.
    Slide {
        of: Expr,
        base: Expr,
        width: Expr,
        up: bool,
        bracket: Place,
    },
    Unary(Unary, Expr),
    Binary(Binary, Expr, Expr),
    /// `test ? yes : no`.
    Choice {
        test: Expr,
        yes: Expr,
        no: Expr,
    },
    /// The first expression is the highest.
    Concat(Vec<Expr>),
    Repeat(Expr, Vec<Expr>),
    /// `$signed` where the flag is true, else `$unsigned`.
    Sign(bool, Expr),
    Paren(Expr),
}

impl Expr {
    /// A number.
    pub fn number(alloc: Global, place: Place, value: Four) -> Result<Expr, NoMemory>
        ensures { IfOk result (λ e. expr_view e ≡ t.literal place value) }
    {
        Ok(Expr {
            place,
            form: Box::new(alloc, ExprForm::Number(value))?,
        })
    }

    /// A name.
    pub fn name(alloc: Global, place: Place, name: Name) -> Result<Expr, NoMemory>
        ensures { IfOk result (λ e. expr_view e ≡ t.identifier place name) }
    {
        Ok(Expr {
            place,
            form: Box::new(alloc, ExprForm::Name(name))?,
        })
    }

    /// `of[index]`.
    pub fn bit(alloc: Global, of: Expr, index: Expr) -> Result<Expr, NoMemory>
        ensures { IfOk result (λ e. expr_view e ≡ t.bit_select (place_of (expr_view of)) (expr_view of) (expr_view index)) }
    {
        Ok(Expr {
            place: of.place,
            form: Box::new(alloc, ExprForm::Bit { of, index })?,
        })
    }

    /// `of[high:low]`.
    pub fn part(
        alloc: Global,
        of: Expr,
        high: Expr,
        low: Expr,
        bracket: Place,
    ) -> Result<Expr, NoMemory>
        ensures { IfOk result (λ e. expr_view e ≡ t.part_select (place_of (expr_view of)) (expr_view of) (expr_view high) (expr_view low) bracket) }
    {
        Ok(Expr {
            place: of.place,
            form: Box::new(
                alloc,
                ExprForm::Part {
                    of,
                    high,
                    low,
                    bracket,
                },
            )?,
        })
    }

    /// `of[base +: width]`, or where `up` is false `of[base -: width]`.
    pub fn slide(
        alloc: Global,
        of: Expr,
        base: Expr,
        width: Expr,
        up: bool,
        bracket: Place,
    ) -> Result<Expr, NoMemory>
        ensures { IfOk result (λ e. expr_view e ≡ t.indexed_part (place_of (expr_view of)) (expr_view of) (expr_view base) (expr_view width) up bracket) }
    {
        Ok(Expr {
            place: of.place,
            form: Box::new(
                alloc,
                ExprForm::Slide {
                    of,
                    base,
                    width,
                    up,
                    bracket,
                },
            )?,
        })
    }

    /// An operator before its operand.
    pub fn unary(alloc: Global, place: Place, op: Unary, a: Expr) -> Result<Expr, NoMemory>
        ensures { IfOk result (λ e. expr_view e ≡ t.unary_operator place op (expr_view a)) }
    {
        Ok(Expr {
            place,
            form: Box::new(alloc, ExprForm::Unary(op, a))?,
        })
    }

    /// An operator between its operands.
    pub fn binary(alloc: Global, op: Binary, a: Expr, b: Expr) -> Result<Expr, NoMemory>
        ensures { IfOk result (λ e. expr_view e ≡ t.binary_operator (place_of (expr_view a)) op (expr_view a) (expr_view b)) }
    {
        Ok(Expr {
            place: a.place,
            form: Box::new(alloc, ExprForm::Binary(op, a, b))?,
        })
    }

    /// `test ? yes : no`.
    pub fn choice(alloc: Global, test: Expr, yes: Expr, no: Expr) -> Result<Expr, NoMemory>
        ensures { IfOk result (λ e. expr_view e ≡ t.conditional (place_of (expr_view test)) (expr_view test) (expr_view yes) (expr_view no)) }
    {
        Ok(Expr {
            place: test.place,
            form: Box::new(alloc, ExprForm::Choice { test, yes, no })?,
        })
    }

    /// A concatenation; the first part is the highest.
    pub fn concat(alloc: Global, place: Place, parts: Vec<Expr>) -> Result<Expr, NoMemory>
        ensures { IfOk result (λ e. expr_view e ≡ t.concatenation place (exprs_of (exprs_view parts.items))) }
    {
        Ok(Expr {
            place,
            form: Box::new(alloc, ExprForm::Concat(parts))?,
        })
    }

    /// A concatenation that is repeated.
    pub fn repeat(
        alloc: Global,
        place: Place,
        count: Expr,
        parts: Vec<Expr>,
    ) -> Result<Expr, NoMemory>
        ensures { IfOk result (λ e. expr_view e ≡ t.replication place (expr_view count) (exprs_of (exprs_view parts.items))) }
    {
        Ok(Expr {
            place,
            form: Box::new(alloc, ExprForm::Repeat(count, parts))?,
        })
    }

    /// `$signed(a)`, or where the flag is false `$unsigned(a)`.
    pub fn sign(alloc: Global, place: Place, signed: bool, a: Expr) -> Result<Expr, NoMemory>
        ensures { IfOk result (λ e. expr_view e ≡ t.sign_cast place signed (expr_view a)) }
    {
        Ok(Expr {
            place,
            form: Box::new(alloc, ExprForm::Sign(signed, a))?,
        })
    }

    /// `(a)`.
    pub fn paren(alloc: Global, place: Place, a: Expr) -> Result<Expr, NoMemory>
        ensures { IfOk result (λ e. expr_view e ≡ t.parentheses place (expr_view a)) }
    {
        Ok(Expr {
            place,
            form: Box::new(alloc, ExprForm::Paren(a))?,
        })
    }
}
