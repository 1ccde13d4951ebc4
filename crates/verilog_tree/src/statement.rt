ghost use Rattle.std.specs.Prelude.{◌≡◌, IfOk};
ghost use Rattle.verilog_tree.specs.Tree as t;
ghost use Rattle.verilog_tree.specs.Tree.{statements_of, arms_of};
ghost use Rattle.verilog_tree.specs.View.{expr_view, statement_view, statements_view, arms_view};

use crate::Expr;
use cov_host::{NoMemory, Place};
use four_state::CaseKind;
use std::alloc::Global;

/// A statement as it is written (IEEE 1364-2001 clause 9).
#[derive(Drop)]
#[cycle(statement)]
pub struct Statement {
    /// Of its first token.
    pub place: Place,
    /// Its form, in a box.
    pub form: Box<StatementForm>,
}

/// The forms of a statement.
#[derive(Drop)]
#[cycle(statement)]
pub enum StatementForm {
    /// `begin .. end`.
    Block(Vec<Statement>),
    /// `if (test) yes`, with `else no` where there is one.
    If {
        test: Expr,
        yes: Statement,
        no: Option<Statement>,
    },
    /// `case (on) .. endcase`, or `casez`, or `casex`.
    Case {
        kind: CaseKind,
        on: Expr,
        arms: Vec<Arm>,
    },
    /// A `for` loop.
    For(For),
    /// `target = value` where `blocking` is true, else `target <= value`.
    Set {
        target: Expr,
        blocking: bool,
        value: Expr,
    },
    /// A system task. Its arguments are dropped.
    Task,
    /// A semicolon alone.
    Empty,
}

/// An arm of a `case`. One without labels is the `default`.
#[derive(Drop)]
#[cycle(statement)]
pub struct Arm {
    /// The labels, none for the `default`.
    pub labels: Vec<Expr>,
    /// The statement of the arm.
    pub body: Statement,
}

/// `for (name = first; test; target = step) body`.
#[derive(Drop)]
#[cycle(statement)]
pub struct For {
    /// Of the `for`.
    pub place: Place,
    /// The loop variable, where its first value is assigned.
    pub name: Expr,
    /// The first value.
    pub first: Expr,
    /// The condition.
    pub test: Expr,
    /// What is assigned after each turn.
    pub target: Expr,
    /// The value that it is assigned.
    pub step: Expr,
    /// The statement of each turn.
    pub body: Statement,
}

impl Statement {
    /// `begin parts end`.
    pub fn block(alloc: Global, place: Place, parts: Vec<Statement>) -> Result<Statement, NoMemory>
        ensures { IfOk result (λ s. statement_view s ≡ t.sequential_block place (statements_of (statements_view parts.items))) }
    {
        Ok(Statement {
            place,
            form: Box::new(alloc, StatementForm::Block(parts))?,
        })
    }

    /// `if (test) yes`.
    pub fn when(
        alloc: Global,
        place: Place,
        test: Expr,
        yes: Statement,
    ) -> Result<Statement, NoMemory>
        ensures { IfOk result (λ s. statement_view s ≡ t.if_statement place (expr_view test) (statement_view yes) t.no_statements) }
    {
        Ok(Statement {
            place,
            form: Box::new(
                alloc,
                StatementForm::If {
                    test,
                    yes,
                    no: None,
                },
            )?,
        })
    }

    /// `if (test) yes else no`.
    pub fn when_else(
        alloc: Global,
        place: Place,
        test: Expr,
        yes: Statement,
        no: Statement,
    ) -> Result<Statement, NoMemory>
        ensures { IfOk result (λ s. statement_view s ≡ t.if_statement place (expr_view test) (statement_view yes) (t.a_statement (statement_view no) t.no_statements)) }
    {
        Ok(Statement {
            place,
            form: Box::new(
                alloc,
                StatementForm::If {
                    test,
                    yes,
                    no: Some(no),
                },
            )?,
        })
    }

    /// A `case`, `casez` or `casex`.
    pub fn case(
        alloc: Global,
        place: Place,
        kind: CaseKind,
        on: Expr,
        arms: Vec<Arm>,
    ) -> Result<Statement, NoMemory>
        ensures { IfOk result (λ s. statement_view s ≡ t.case_statement place kind (expr_view on) (arms_of (arms_view arms.items))) }
    {
        Ok(Statement {
            place,
            form: Box::new(alloc, StatementForm::Case { kind, on, arms })?,
        })
    }

    /// `for (name = first; test; target = step) body`.
    pub fn for_loop(
        alloc: Global,
        place: Place,
        start: (Expr, Expr),
        test: Expr,
        turn: (Expr, Expr),
        body: Statement,
    ) -> Result<Statement, NoMemory>
        ensures { IfOk result (λ s. statement_view s ≡ t.for_loop place (record { place = place; name = expr_view start.0; first = expr_view start.1; test = expr_view test; target = expr_view turn.0; step = expr_view turn.1 }) (statement_view body)) }
    {
        let (name, first) = start;
        let (target, step) = turn;
        Ok(Statement {
            place,
            form: Box::new(
                alloc,
                StatementForm::For(For {
                    place,
                    name,
                    first,
                    test,
                    target,
                    step,
                    body,
                }),
            )?,
        })
    }

    /// `target = value`, or where the flag is false `target <= value`.
    pub fn set(
        alloc: Global,
        place: Place,
        target: Expr,
        blocking: bool,
        value: Expr,
    ) -> Result<Statement, NoMemory>
        ensures { IfOk result (λ s. statement_view s ≡ t.assignment place (expr_view target) blocking (expr_view value)) }
    {
        Ok(Statement {
            place,
            form: Box::new(
                alloc,
                StatementForm::Set {
                    target,
                    blocking,
                    value,
                },
            )?,
        })
    }

    /// A system task.
    pub fn task(alloc: Global, place: Place) -> Result<Statement, NoMemory>
        ensures { IfOk result (λ s. statement_view s ≡ t.system_task place) }
    {
        Ok(Statement {
            place,
            form: Box::new(alloc, StatementForm::Task)?,
        })
    }

    /// A semicolon alone.
    pub fn empty(alloc: Global, place: Place) -> Result<Statement, NoMemory>
        ensures { IfOk result (λ s. statement_view s ≡ t.null_statement place) }
    {
        Ok(Statement {
            place,
            form: Box::new(alloc, StatementForm::Empty)?,
        })
    }
}

impl Arm {
    ghost use Rattle.verilog_tree.specs.View.{exprs_view, arm_view};

    /// The labels, none of them for the default, and the body.
    pub fn new(labels: Vec<Expr>, body: Statement) -> Arm
        ensures { arm_view result ≡ record { labels = exprs_view labels.items; body = statement_view body } }
    {
        Arm { labels, body }
    }
}
