//! The term that an expression becomes: its form, and the width and sign that each context gives it (IEEE 1364-2001,
//! 4.4 and 4.5).

ghost use Rattle.std.specs.Prelude.{◌≡◌, ◌≤◌, ◌+◌, ◌<◌, ◌^◌, IfOk, OnOk, map};
ghost use Rattle.design_model.specs.View.{term_view, terms_of};
ghost use Rattle.elab_build.specs.Sound.{IsSound, AreSound};
ghost use Rattle.flat_design.specs.Numbering as count;
ghost use Rattle.flat_design.specs.Scope.{binding_of};
ghost use Rattle.flat_design.specs.Terms as spec;
ghost use Rattle.verilog_tree.specs.Tree.{exprs_of, bit_select, part_select, indexed_part, unary_operator, binary_operator, conditional, concatenation, replication};
ghost use Rattle.verilog_tree.specs.View.{expr_view, exprs_view};

use crate::counted::{take, take_if, with_node};
use crate::forms::Around;
use crate::names::{is_counted_condition, memory_of, named, one_names_thing};
use crate::shapes::{operand_shape, operand_shapes, shape_of};
use cov_host::{NoMemory, Place};
use design_model::Term;
use elab_const::Shape;
use elab_scope::{Scope, names_thing};
use four_state::{Binary, Unary};
use std::alloc::Global;
use verilog_tree::{Expr, ExprForm};

/// The term in a context of this shape. Memories are numbered from `base` on, and its counted nodes from `nodes` on, an
/// operator before its operands.
#[cycle(term)]
pub fn term(
    alloc: Global,
    base: u32,
    scope: &Scope,
    expr: &Expr,
    nodes: &mut u32,
    shape: Shape,
) -> Result<Term, NoMemory>
    requires base { base ≤ 65536 }
    requires sound { IsSound (binding_of scope.now) (expr_view expr.now) }
    requires few { nodes.old + count.nodes (binding_of scope.now) (expr_view expr.now) < 2 ^ 32 }
    ensures built { IfOk result (λ x. term_view x ≡ spec.term base (binding_of scope.now) (expr_view expr.now) nodes.old shape) }
    ensures counted { OnOk result (nodes.new ≡ nodes.old + count.nodes (binding_of scope.now) (expr_view expr.now)) }
{
    let around = Around {
        place: expr.place,
        shape,
    };
    match &*expr.form {
        ExprForm::Number(value) => around.number(alloc, *value),
        ExprForm::Name(name) => named(alloc, scope, name, around),
        ExprForm::Bit { of, index } => bit_term(alloc, base, scope, of, index, nodes, around),
        ExprForm::Part {
            of,
            high,
            low,
            bracket,
        } => part_term(alloc, base, scope, of, high, low, *bracket, nodes, around),
        ExprForm::Slide {
            of,
            base: from,
            width,
            up,
            bracket,
        } => slide_term(
            alloc, base, scope, of, from, width, *up, *bracket, nodes, around,
        ),
        ExprForm::Unary(op, a) => unary_term(alloc, base, scope, *op, a, nodes, around),
        ExprForm::Binary(op, a, b) => binary_term(alloc, base, scope, *op, a, b, nodes, around),
        ExprForm::Choice { test, yes, no } => {
            choice_term(alloc, base, scope, test, yes, no, nodes, around)
        }
        ExprForm::Concat(parts) => concat_term(alloc, base, scope, parts, nodes, around),
        ExprForm::Repeat(count, parts) => {
            repeat_term(alloc, base, scope, parts, count, nodes, around)
        }
        ExprForm::Sign(signed, a) => {
            let a = alone(alloc, base, scope, a, nodes)?;
            around.sign(alloc, *signed, a)
        }
        ExprForm::Paren(a) => term(alloc, base, scope, a, nodes, shape),
    }
}

/// The term of `of[index]`, where `around` has its place and shape.
#[cycle(term)]
fn bit_term(
    alloc: Global,
    base: u32,
    scope: &Scope,
    of: &Expr,
    index: &Expr,
    nodes: &mut u32,
    around: Around,
) -> Result<Term, NoMemory>
    requires base { base ≤ 65536 }
    requires sound { IsSound (binding_of scope.now) (bit_select around.place (expr_view of.now) (expr_view index.now)) }
    requires few { nodes.old + count.nodes (binding_of scope.now) (bit_select around.place (expr_view of.now) (expr_view index.now)) < 2 ^ 32 }
    ensures built { IfOk result (λ x. term_view x ≡ spec.term base (binding_of scope.now) (bit_select around.place (expr_view of.now) (expr_view index.now)) nodes.old around.shape) }
    ensures counted { OnOk result (nodes.new ≡ nodes.old + count.nodes (binding_of scope.now) (bit_select around.place (expr_view of.now) (expr_view index.now))) }
{
    if let Some(memory) = memory_of(base, scope, of) {
        let index = alone(alloc, base, scope, index, nodes)?;
        return around.word(alloc, memory, index);
    }
    let of = alone(alloc, base, scope, of, nodes)?;
    let index = alone(alloc, base, scope, index, nodes)?;
    around.bit(alloc, of, index)
}

/// The term of `of[high:low]`.
#[cycle(term)]
fn part_term(
    alloc: Global,
    base: u32,
    scope: &Scope,
    of: &Expr,
    high: &Expr,
    low: &Expr,
    bracket: Place,
    nodes: &mut u32,
    around: Around,
) -> Result<Term, NoMemory>
    requires base { base ≤ 65536 }
    requires sound { IsSound (binding_of scope.now) (part_select around.place (expr_view of.now) (expr_view high.now) (expr_view low.now) bracket) }
    requires few { nodes.old + count.nodes (binding_of scope.now) (part_select around.place (expr_view of.now) (expr_view high.now) (expr_view low.now) bracket) < 2 ^ 32 }
    ensures built { IfOk result (λ x. term_view x ≡ spec.term base (binding_of scope.now) (part_select around.place (expr_view of.now) (expr_view high.now) (expr_view low.now) bracket) nodes.old around.shape) }
    ensures counted { OnOk result (nodes.new ≡ nodes.old + count.nodes (binding_of scope.now) (part_select around.place (expr_view of.now) (expr_view high.now) (expr_view low.now) bracket)) }
{
    let of = alone(alloc, base, scope, of, nodes)?;
    let high = alone(alloc, base, scope, high, nodes)?;
    let low = alone(alloc, base, scope, low, nodes)?;
    around.part(alloc, of, high, low)
}

/// The term of `of[from +: width]`, or where `up` is false `of[from -: width]`.
#[cycle(term)]
fn slide_term(
    alloc: Global,
    base: u32,
    scope: &Scope,
    of: &Expr,
    from: &Expr,
    width: &Expr,
    up: bool,
    bracket: Place,
    nodes: &mut u32,
    around: Around,
) -> Result<Term, NoMemory>
    requires base { base ≤ 65536 }
    requires sound { IsSound (binding_of scope.now) (indexed_part around.place (expr_view of.now) (expr_view from.now) (expr_view width.now) up bracket) }
    requires few { nodes.old + count.nodes (binding_of scope.now) (indexed_part around.place (expr_view of.now) (expr_view from.now) (expr_view width.now) up bracket) < 2 ^ 32 }
    ensures built { IfOk result (λ x. term_view x ≡ spec.term base (binding_of scope.now) (indexed_part around.place (expr_view of.now) (expr_view from.now) (expr_view width.now) up bracket) nodes.old around.shape) }
    ensures counted { OnOk result (nodes.new ≡ nodes.old + count.nodes (binding_of scope.now) (indexed_part around.place (expr_view of.now) (expr_view from.now) (expr_view width.now) up bracket)) }
{
    let of = alone(alloc, base, scope, of, nodes)?;
    let from = alone(alloc, base, scope, from, nodes)?;
    let width = alone(alloc, base, scope, width, nodes)?;
    around.slide(alloc, of, from, width, up)
}

/// The term of an operator with one operand.
#[cycle(term)]
fn unary_term(
    alloc: Global,
    base: u32,
    scope: &Scope,
    op: Unary,
    a: &Expr,
    nodes: &mut u32,
    around: Around,
) -> Result<Term, NoMemory>
    requires base { base ≤ 65536 }
    requires sound { IsSound (binding_of scope.now) (unary_operator around.place op (expr_view a.now)) }
    requires few { nodes.old + count.nodes (binding_of scope.now) (unary_operator around.place op (expr_view a.now)) < 2 ^ 32 }
    ensures built { IfOk result (λ x. term_view x ≡ spec.term base (binding_of scope.now) (unary_operator around.place op (expr_view a.now)) nodes.old around.shape) }
    ensures counted { OnOk result (nodes.new ≡ nodes.old + count.nodes (binding_of scope.now) (unary_operator around.place op (expr_view a.now))) }
{
    let node = take_if(names_thing(scope, a), nodes);
    let inner = operand_shape(scope, op, a, around.shape);
    let a = term(alloc, base, scope, a, nodes, inner)?;
    around.unary(alloc, node, op, a)
}

/// The term of an operator with two operands.
#[cycle(term)]
fn binary_term(
    alloc: Global,
    base: u32,
    scope: &Scope,
    op: Binary,
    a: &Expr,
    b: &Expr,
    nodes: &mut u32,
    around: Around,
) -> Result<Term, NoMemory>
    requires base { base ≤ 65536 }
    requires sound { IsSound (binding_of scope.now) (binary_operator around.place op (expr_view a.now) (expr_view b.now)) }
    requires few { nodes.old + count.nodes (binding_of scope.now) (binary_operator around.place op (expr_view a.now) (expr_view b.now)) < 2 ^ 32 }
    ensures built { IfOk result (λ x. term_view x ≡ spec.term base (binding_of scope.now) (binary_operator around.place op (expr_view a.now) (expr_view b.now)) nodes.old around.shape) }
    ensures counted { OnOk result (nodes.new ≡ nodes.old + count.nodes (binding_of scope.now) (binary_operator around.place op (expr_view a.now) (expr_view b.now))) }
{
    let node = take_if(one_names_thing(scope, a, b), nodes);
    let (left, right) = operand_shapes(scope, op, a, b, around.shape);
    let a = term(alloc, base, scope, a, nodes, left)?;
    let b = term(alloc, base, scope, b, nodes, right)?;
    around.binary(alloc, node, op, a, b)
}

/// The term of `test ? yes : no`.
#[cycle(term)]
fn choice_term(
    alloc: Global,
    base: u32,
    scope: &Scope,
    test: &Expr,
    yes: &Expr,
    no: &Expr,
    nodes: &mut u32,
    around: Around,
) -> Result<Term, NoMemory>
    requires base { base ≤ 65536 }
    requires sound { IsSound (binding_of scope.now) (conditional around.place (expr_view test.now) (expr_view yes.now) (expr_view no.now)) }
    requires few { nodes.old + count.nodes (binding_of scope.now) (conditional around.place (expr_view test.now) (expr_view yes.now) (expr_view no.now)) < 2 ^ 32 }
    ensures built { IfOk result (λ x. term_view x ≡ spec.term base (binding_of scope.now) (conditional around.place (expr_view test.now) (expr_view yes.now) (expr_view no.now)) nodes.old around.shape) }
    ensures counted { OnOk result (nodes.new ≡ nodes.old + count.nodes (binding_of scope.now) (conditional around.place (expr_view test.now) (expr_view yes.now) (expr_view no.now))) }
{
    let test = condition_term(alloc, base, scope, test, nodes)?;
    let yes = term(alloc, base, scope, yes, nodes, around.shape)?;
    let no = term(alloc, base, scope, no, nodes, around.shape)?;
    around.choice(alloc, test, yes, no)
}

/// The term of a concatenation.
#[cycle(term)]
fn concat_term(
    alloc: Global,
    base: u32,
    scope: &Scope,
    parts: &[Expr],
    nodes: &mut u32,
    around: Around,
) -> Result<Term, NoMemory>
    requires base { base ≤ 65536 }
    requires sound { IsSound (binding_of scope.now) (concatenation around.place (exprs_of (exprs_view parts.now))) }
    requires few { nodes.old + count.nodes (binding_of scope.now) (concatenation around.place (exprs_of (exprs_view parts.now))) < 2 ^ 32 }
    ensures built { IfOk result (λ x. term_view x ≡ spec.term base (binding_of scope.now) (concatenation around.place (exprs_of (exprs_view parts.now))) nodes.old around.shape) }
    ensures counted { OnOk result (nodes.new ≡ nodes.old + count.nodes (binding_of scope.now) (concatenation around.place (exprs_of (exprs_view parts.now)))) }
{
    let parts = terms(alloc, base, scope, parts, nodes)?;
    around.concat(alloc, parts)
}

/// The term of a concatenation that is repeated.
#[cycle(term)]
fn repeat_term(
    alloc: Global,
    base: u32,
    scope: &Scope,
    parts: &[Expr],
    times: &Expr,
    nodes: &mut u32,
    around: Around,
) -> Result<Term, NoMemory>
    requires base { base ≤ 65536 }
    requires sound { IsSound (binding_of scope.now) (replication around.place (expr_view times.now) (exprs_of (exprs_view parts.now))) }
    requires few { nodes.old + count.nodes (binding_of scope.now) (replication around.place (expr_view times.now) (exprs_of (exprs_view parts.now))) < 2 ^ 32 }
    ensures built { IfOk result (λ x. term_view x ≡ spec.term base (binding_of scope.now) (replication around.place (expr_view times.now) (exprs_of (exprs_view parts.now))) nodes.old around.shape) }
    ensures counted { OnOk result (nodes.new ≡ nodes.old + count.nodes (binding_of scope.now) (replication around.place (expr_view times.now) (exprs_of (exprs_view parts.now)))) }
{
    let times = alone(alloc, base, scope, times, nodes)?;
    let parts = terms(alloc, base, scope, parts, nodes)?;
    around.repeat(alloc, times, parts)
}

/// The term in no context.
#[cycle(term)]
pub fn alone(
    alloc: Global,
    base: u32,
    scope: &Scope,
    expr: &Expr,
    nodes: &mut u32,
) -> Result<Term, NoMemory>
    requires base { base ≤ 65536 }
    requires sound { IsSound (binding_of scope.now) (expr_view expr.now) }
    requires few { nodes.old + count.nodes (binding_of scope.now) (expr_view expr.now) < 2 ^ 32 }
    ensures built { IfOk result (λ x. term_view x ≡ spec.alone base (binding_of scope.now) (expr_view expr.now) nodes.old) }
    ensures counted { OnOk result (nodes.new ≡ nodes.old + count.nodes (binding_of scope.now) (expr_view expr.now)) }
{
    let shape = shape_of(scope, expr);
    term(alloc, base, scope, expr, nodes, shape)
}

/// The condition of an `if` or a choice: a counted node of its own where it is no operator.
#[cycle(term)]
pub fn condition_term(
    alloc: Global,
    base: u32,
    scope: &Scope,
    condition: &Expr,
    nodes: &mut u32,
) -> Result<Term, NoMemory>
    requires base { base ≤ 65536 }
    requires sound { IsSound (binding_of scope.now) (expr_view condition.now) }
    requires few { nodes.old + count.condition_nodes (binding_of scope.now) (expr_view condition.now) < 2 ^ 32 }
    ensures built { IfOk result (λ x. term_view x ≡ spec.condition_term base (binding_of scope.now) (expr_view condition.now) nodes.old) }
    ensures counted { OnOk result (nodes.new ≡ nodes.old + count.condition_nodes (binding_of scope.now) (expr_view condition.now)) }
{
    if !is_counted_condition(scope, condition) {
        return alone(alloc, base, scope, condition, nodes);
    }
    let node = take(nodes);
    let term = alone(alloc, base, scope, condition, nodes)?;
    Ok(with_node(node, term))
}

/// The terms of the parts of a concatenation.
#[cycle(term)]
pub(crate) fn terms(
    alloc: Global,
    base: u32,
    scope: &Scope,
    parts: &[Expr],
    nodes: &mut u32,
) -> Result<Vec<Term>, NoMemory>
    requires base { base ≤ 65536 }
    requires sound { AreSound (binding_of scope.now) (exprs_of (exprs_view parts.now)) }
    requires few { nodes.old + count.all_nodes (binding_of scope.now) (exprs_of (exprs_view parts.now)) < 2 ^ 32 }
    ensures built { IfOk result (λ xs. terms_of (map term_view xs.items) ≡ spec.terms base (binding_of scope.now) (exprs_of (exprs_view parts.now)) nodes.old) }
    ensures counted { OnOk result (nodes.new ≡ nodes.old + count.all_nodes (binding_of scope.now) (exprs_of (exprs_view parts.now))) }
{
    let mut all = Vec::new(alloc);
    for part in parts {
        all.push(alone(alloc, base, scope, part, nodes)?)?;
    }
    Ok(all)
}

/// The term of a right side: in the context of its target's width.
pub fn right_side(
    alloc: Global,
    base: u32,
    scope: &Scope,
    width: u8,
    expr: &Expr,
    nodes: &mut u32,
) -> Result<Term, NoMemory>
    requires base { base ≤ 65536 }
    requires sound { IsSound (binding_of scope.now) (expr_view expr.now) }
    requires few { nodes.old + count.nodes (binding_of scope.now) (expr_view expr.now) < 2 ^ 32 }
    ensures built { IfOk result (λ x. term_view x ≡ spec.right_side base (binding_of scope.now) width (expr_view expr.now) nodes.old) }
    ensures counted { OnOk result (nodes.new ≡ nodes.old + count.nodes (binding_of scope.now) (expr_view expr.now)) }
{
    let own = shape_of(scope, expr);
    let shape = Shape {
        width: width.max(own.width),
        signed: own.signed,
    };
    term(alloc, base, scope, expr, nodes, shape)
}
