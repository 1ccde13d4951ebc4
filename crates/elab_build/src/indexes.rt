//! The terms of indexes, wide and signed enough that they can be moved.

ghost use Rattle.std.specs.Prelude.{◌≡◌, ◌≤◌, ◌<◌, ◌+◌, ◌^◌, min, max, IfOk, OnOk, false};
ghost use Rattle.design_model.specs.View.{term_view};
ghost use Rattle.elab_const.specs.Meaning.{IsShape, shape_as};
ghost use Rattle.elab_const.specs.Scope.{IsWidth};
ghost use Rattle.elab_build.specs.Sound.{IsSound};
ghost use Rattle.flat_design.specs.Numbering as count;
ghost use Rattle.flat_design.specs.Scope.{binding_of};
ghost use Rattle.flat_design.specs.Targets as spec;
ghost use Rattle.verilog_tree.specs.View.{expr_view};

use crate::forms::Around;
use crate::shapes::shape_of;
use crate::terms::alone;
use cov_host::NoMemory;
use design_model::{Range, Term};
use elab_const::Shape;
use elab_scope::Scope;
use four_state::{Binary, Bit, Four};
use std::alloc::Global;
use verilog_tree::Expr;

/// A number as a term.
#[tactic(auto, using(crate::proofs::NumberTerms::known_bits))]
pub(crate) fn number_term(alloc: Global, around: Around, number: u8) -> Result<Term, NoMemory>
    requires shape { IsShape around.shape }
    requires fits { number < 2 ^ around.shape.width }
    ensures { IfOk result (λ x. term_view x ≡ spec.number_term around.place around.shape number) }
{
    let width = around.shape.width;
    around.number(
        alloc,
        Four::make(width, around.shape.signed, u128::from(number), 0),
    )
}

/// The shape of `width` bits without a sign.
fn unsigned(width: u8) -> Shape
    ensures { result ≡ shape_as width false }
{
    Shape {
        width,
        signed: false,
    }
}

/// An expression with a 0 bit before it.
#[tactic(auto, using(verilog_tree::proofs::ExprViews::place_is))]
fn behind_zero(
    alloc: Global,
    base: u32,
    scope: &Scope,
    expr: &Expr,
    nodes: &mut u32,
) -> Result<Term, NoMemory>
    requires base { base ≤ 65536 }
    requires sound { IsSound (binding_of scope.now) (expr_view expr.now) }
    requires few { nodes.old + count.nodes (binding_of scope.now) (expr_view expr.now) < 2 ^ 32 }
    ensures built { IfOk result (λ x. term_view x ≡ spec.behind_zero base (binding_of scope.now) (expr_view expr.now) nodes.old) }
    ensures counted { OnOk result (nodes.new ≡ nodes.old + count.nodes (binding_of scope.now) (expr_view expr.now)) }
{
    let place = expr.place;
    let own = shape_of(scope, expr);
    let all = alone(alloc, base, scope, expr, nodes)?;
    let zero = Around {
        place,
        shape: unsigned(1),
    };
    let mut parts = Vec::new(alloc);
    parts.push(number_term(alloc, zero, 0)?)?;
    parts.push(all)?;
    let around = Around {
        place,
        shape: unsigned(own.width + 1),
    };
    around.concat(alloc, parts)
}

/// An expression whose highest bit is its sign: one without sign has a 0 bit before it, unless that is the highest of
/// 128 bits.
fn with_sign_bit(
    alloc: Global,
    base: u32,
    scope: &Scope,
    expr: &Expr,
    nodes: &mut u32,
) -> Result<Term, NoMemory>
    requires base { base ≤ 65536 }
    requires sound { IsSound (binding_of scope.now) (expr_view expr.now) }
    requires few { nodes.old + count.nodes (binding_of scope.now) (expr_view expr.now) < 2 ^ 32 }
    ensures built { IfOk result (λ x. term_view x ≡ spec.with_sign_bit base (binding_of scope.now) (expr_view expr.now) nodes.old) }
    ensures counted { OnOk result (nodes.new ≡ nodes.old + count.nodes (binding_of scope.now) (expr_view expr.now)) }
{
    let own = shape_of(scope, expr);
    if own.width < 128 && !own.signed {
        behind_zero(alloc, base, scope, expr, nodes)
    } else {
        alone(alloc, base, scope, expr, nodes)
    }
}

/// The number of an expression as a signed term of `width` bits. The term in it has its own width, whatever is
/// around it.
#[tactic(auto, using(verilog_tree::proofs::ExprViews::place_is))]
pub(crate) fn signed_term(
    alloc: Global,
    base: u32,
    scope: &Scope,
    width: u8,
    expr: &Expr,
    nodes: &mut u32,
) -> Result<Term, NoMemory>
    requires base { base ≤ 65536 }
    requires sound { IsSound (binding_of scope.now) (expr_view expr.now) }
    requires few { nodes.old + count.nodes (binding_of scope.now) (expr_view expr.now) < 2 ^ 32 }
    ensures built { IfOk result (λ x. term_view x ≡ spec.signed_term base (binding_of scope.now) width (expr_view expr.now) nodes.old) }
    ensures counted { OnOk result (nodes.new ≡ nodes.old + count.nodes (binding_of scope.now) (expr_view expr.now)) }
{
    let around = Around {
        place: expr.place,
        shape: Shape {
            width,
            signed: true,
        },
    };
    let own = with_sign_bit(alloc, base, scope, expr, nodes)?;
    around.sign(alloc, true, own)
}

/// The number of bits of an index that is moved, such that it does not wrap.
fn moved_width(index: Shape) -> u8
    requires { IsShape index }
    ensures value { result ≡ min 128 (max (index.width + 1) 8 + 1) }
    ensures within { 9 ≤ result }
    ensures fits { result ≤ 128 }
{
    ((index.width + 1).max(8) + 1).min(128)
}

/// An expression as a signed term that is moved up or down.
#[tactic(auto, using(verilog_tree::proofs::ExprViews::place_is))]
fn moved_term(
    alloc: Global,
    base: u32,
    scope: &Scope,
    up: bool,
    by: u8,
    expr: &Expr,
    nodes: &mut u32,
) -> Result<Term, NoMemory>
    requires base { base ≤ 65536 }
    requires sound { IsSound (binding_of scope.now) (expr_view expr.now) }
    requires by { by < 128 }
    requires few { nodes.old + count.nodes (binding_of scope.now) (expr_view expr.now) < 2 ^ 32 }
    ensures built { IfOk result (λ x. term_view x ≡ spec.moved_term base (binding_of scope.now) up by (expr_view expr.now) nodes.old) }
    ensures counted { OnOk result (nodes.new ≡ nodes.old + count.nodes (binding_of scope.now) (expr_view expr.now)) }
{
    let width = moved_width(shape_of(scope, expr));
    let around = Around {
        place: expr.place,
        shape: Shape {
            width,
            signed: true,
        },
    };
    let op = if up { Binary::Add } else { Binary::Subtract };
    let index = signed_term(alloc, base, scope, width, expr, nodes)?;
    let by = number_term(alloc, around, by)?;
    around.binary(alloc, None, op, index, by)
}

/// The highest of 128 bits.
#[tactic(auto, using(verilog_tree::proofs::ExprViews::place_is))]
fn highest_bit(
    alloc: Global,
    base: u32,
    scope: &Scope,
    expr: &Expr,
    nodes: &mut u32,
) -> Result<Term, NoMemory>
    requires base { base ≤ 65536 }
    requires sound { IsSound (binding_of scope.now) (expr_view expr.now) }
    requires few { nodes.old + count.nodes (binding_of scope.now) (expr_view expr.now) < 2 ^ 32 }
    ensures built { IfOk result (λ x. term_view x ≡ spec.highest_bit base (binding_of scope.now) (expr_view expr.now) nodes.old) }
    ensures counted { OnOk result (nodes.new ≡ nodes.old + count.nodes (binding_of scope.now) (expr_view expr.now)) }
{
    let place = expr.place;
    let count = Around {
        place,
        shape: unsigned(8),
    };
    let around = Around {
        place,
        shape: unsigned(128),
    };
    let index = alone(alloc, base, scope, expr, nodes)?;
    let by = number_term(alloc, count, 127)?;
    around.binary(alloc, None, Binary::ShiftRight, index, by)
}

/// All x where the highest of 128 unsigned bits is 1, since no range has such an index, and else the moved index.
#[tactic(auto, using(verilog_tree::proofs::ExprViews::place_is))]
fn guarded_term(
    alloc: Global,
    base: u32,
    scope: &Scope,
    up: bool,
    by: u8,
    expr: &Expr,
    nodes: &mut u32,
) -> Result<Term, NoMemory>
    requires base { base ≤ 65536 }
    requires sound { IsSound (binding_of scope.now) (expr_view expr.now) }
    requires by { by < 128 }
    requires few { nodes.old + count.nodes (binding_of scope.now) (expr_view expr.now) < 2 ^ 32 }
    ensures built { IfOk result (λ x. term_view x ≡ spec.guarded_term base (binding_of scope.now) (expr_view expr.now) nodes.old (spec.moved_term base (binding_of scope.now) up by (expr_view expr.now) nodes.old)) }
    ensures counted { OnOk result (nodes.new ≡ nodes.old + count.nodes (binding_of scope.now) (expr_view expr.now)) }
{
    let around = Around {
        place: expr.place,
        shape: Shape {
            width: 128,
            signed: true,
        },
    };
    let mut first = *nodes;
    let highest = highest_bit(alloc, base, scope, expr, &mut first)?;
    let moved = moved_term(alloc, base, scope, up, by, expr, nodes)?;
    let unknown = around.number(alloc, Four::fill(128, true, Bit::X))?;
    around.choice(alloc, highest, unknown, moved)
}

/// The index of the lowest bit of `x[b +: w]` or `x[b -: w]`, wide and signed enough that it does not wrap.
fn moved_index(
    alloc: Global,
    base: u32,
    scope: &Scope,
    up: bool,
    by: u8,
    expr: &Expr,
    nodes: &mut u32,
) -> Result<Term, NoMemory>
    requires base { base ≤ 65536 }
    requires sound { IsSound (binding_of scope.now) (expr_view expr.now) }
    requires by { by < 128 }
    requires few { nodes.old + count.nodes (binding_of scope.now) (expr_view expr.now) < 2 ^ 32 }
    ensures built { IfOk result (λ x. term_view x ≡ spec.moved_index base (binding_of scope.now) up by (expr_view expr.now) nodes.old) }
    ensures counted { OnOk result (nodes.new ≡ nodes.old + count.nodes (binding_of scope.now) (expr_view expr.now)) }
{
    let own = shape_of(scope, expr);
    if own.width < 128 || own.signed {
        moved_term(alloc, base, scope, up, by, expr, nodes)
    } else {
        guarded_term(alloc, base, scope, up, by, expr, nodes)
    }
}

/// The base itself, where its bit is the lowest of `width` bits of this range, and else the moved one.
pub(crate) fn lowest_index(
    alloc: Global,
    base: u32,
    scope: &Scope,
    range: Range,
    up: bool,
    width: u8,
    expr: &Expr,
    nodes: &mut u32,
) -> Result<Term, NoMemory>
    requires base { base ≤ 65536 }
    requires sound { IsSound (binding_of scope.now) (expr_view expr.now) }
    requires width { IsWidth width }
    requires few { nodes.old + count.nodes (binding_of scope.now) (expr_view expr.now) < 2 ^ 32 }
    ensures built { IfOk result (λ x. term_view x ≡ spec.lowest_index base (binding_of scope.now) range up width (expr_view expr.now) nodes.old) }
    ensures counted { OnOk result (nodes.new ≡ nodes.old + count.nodes (binding_of scope.now) (expr_view expr.now)) }
{
    if up == (range.low <= range.high) || width == 1 {
        alone(alloc, base, scope, expr, nodes)
    } else {
        moved_index(alloc, base, scope, up, width - 1, expr, nodes)
    }
}
