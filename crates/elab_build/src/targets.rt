//! The flat targets of assignments (IEEE 1364-2001, 6.1 and 9.2).

ghost use Rattle.std.specs.Prelude.{◌≡◌, ◌≤◌, ◌+◌, ◌<◌, ◌^◌, IfOk, OnOk, map, true, false};
ghost use Rattle.design_model.specs.Tree as t;
ghost use Rattle.design_model.specs.View.{target_view, targets_of, term_view};
ghost use Rattle.elab_const.specs.Scope.{IsWidth};
ghost use Rattle.elab_build.specs.Sound.{IsSound, IsClear, IsSoundTarget};
ghost use Rattle.elab_build.specs.SoundTargets.{EachSoundTarget};
ghost use Rattle.flat_design.specs.Expressions.{width_faults, faults};
ghost use Rattle.flat_design.specs.Fault.{none};
ghost use Rattle.flat_design.specs.Identifiers as names;
ghost use Rattle.flat_design.specs.Numbering as count;
ghost use Rattle.flat_design.specs.Scope as of;
ghost use Rattle.flat_design.specs.Scope.{binding_of, look_up, thing_of};
ghost use Rattle.flat_design.specs.Targets as spec;
ghost use Rattle.verilog_tree.specs.Tree.{exprs_of, concatenation, indexed_part};
ghost use Rattle.verilog_tree.specs.View.{expr_view, exprs_view};

use crate::counting::pass_nodes;
use crate::indexes::lowest_index;
use crate::shapes::shape_of;
use crate::terms::alone;
use cov_host::{NoMemory, Place};
use design_model::{Range, Target, Term};
use elab_scope::{Scope, base_name, is_memory_name, range_or};
use flat_design::Entry;
use four_state::Index;
use std::alloc::Global;
use verilog_tree::{Expr, ExprForm};

/// `width` bits of a signal, from the bit with the index `low` up.
fn bits(signal: u32, low: Term, width: u8) -> Target
    ensures { target_view result ≡ t.bits_of signal (term_view low) width }
{
    Target::Part { signal, low, width }
}

/// A word of a memory.
fn word(memory: u32, index: Term) -> Target
    ensures { target_view result ≡ t.word_of memory (term_view index) }
{
    Target::Word { memory, index }
}

/// Targets that are joined in one.
fn several(parts: Vec<Target>) -> Target
    ensures { target_view result ≡ t.several (targets_of (map target_view parts.items)) }
{
    Target::Several(parts)
}

/// The number in the design of the signal or memory whose name an expression begins with, where memories are numbered
/// from `base` on.
fn thing_number(base: u32, scope: &Scope, expr: &Expr) -> u32
    requires { base ≤ 65536 }
    ensures { result ≡ of.thing_number base (thing_of (look_up (binding_of scope.now) (names.base_name (expr_view expr.now)).name)) }
{
    match scope.get(base_name(expr).name) {
        Some(Entry::Signal(signal)) => signal.number,
        Some(Entry::Memory(memory)) => base + memory.number,
        _ => 0,
    }
}

/// The range of the signal whose name an expression begins with.
fn declared_range(scope: &Scope, expr: &Expr) -> Range
    ensures { result ≡ spec.declared_range (look_up (binding_of scope.now) (names.base_name (expr_view expr.now)).name) }
{
    match scope.get(base_name(expr).name) {
        Some(Entry::Signal(signal)) => range_or(signal.range),
        _ => Range { high: 0, low: 0 },
    }
}

/// The number that the width of an indexed part says.
fn part_width(alloc: Global, scope: &Scope, bracket: Place, width: &Expr) -> u8
    requires sound { none (width_faults (binding_of scope.now) bracket (expr_view width.now) (faults (binding_of scope.now) (expr_view width.now))) ≡ true }
    requires known { of.names_faulty (binding_of scope.now) (expr_view width.now) ≡ false }
    ensures value { result ≡ of.natural_number (binding_of scope.now) (expr_view width.now) }
    ensures within { IsWidth result }
{
    match elab_const::constant(alloc, width, scope.values()) {
        Ok(value) => match value.index() {
            Index::At(width) if width <= 128 => width as u8,
            _ => unreachable!(),
        },
        Err(_) => unreachable!(),
    }
}

/// The target of `of[from +: width]`, or where `up` is false of `of[from -: width]`.
fn slide_target(
    alloc: Global,
    base: u32,
    scope: &Scope,
    place: Place,
    of: &Expr,
    from: &Expr,
    width: &Expr,
    up: bool,
    bracket: Place,
    nodes: &mut u32,
) -> Result<Target, NoMemory>
    requires base { base ≤ 65536 }
    requires clear { IsClear (binding_of scope.now) }
    requires sound { IsSoundTarget (binding_of scope.now) (indexed_part place (expr_view of.now) (expr_view from.now) (expr_view width.now) up bracket) }
    requires few { nodes.old + count.nodes (binding_of scope.now) (indexed_part place (expr_view of.now) (expr_view from.now) (expr_view width.now) up bracket) < 2 ^ 32 }
    ensures built { IfOk result (λ x. target_view x ≡ spec.target base (binding_of scope.now) (indexed_part place (expr_view of.now) (expr_view from.now) (expr_view width.now) up bracket) nodes.old) }
    ensures counted { OnOk result (nodes.new ≡ nodes.old + count.nodes (binding_of scope.now) (indexed_part place (expr_view of.now) (expr_view from.now) (expr_view width.now) up bracket)) }
{
    let signal = thing_number(base, scope, of);
    let range = declared_range(scope, of);
    let width = part_width(alloc, scope, bracket, width);
    let low = lowest_index(alloc, base, scope, range, up, width, from, nodes)?;
    Ok(bits(signal, low, width))
}

/// The flat target. Memories are numbered from `base` on, and its counted nodes from `nodes` on. Neither a name that is
/// selected from nor a constant has a counted node.
#[cycle(target)]
pub fn target(
    alloc: Global,
    base: u32,
    scope: &Scope,
    expr: &Expr,
    nodes: &mut u32,
) -> Result<Target, NoMemory>
    requires base { base ≤ 65536 }
    requires clear { IsClear (binding_of scope.now) }
    requires sound { IsSoundTarget (binding_of scope.now) (expr_view expr.now) }
    requires few { nodes.old + count.nodes (binding_of scope.now) (expr_view expr.now) < 2 ^ 32 }
    ensures built { IfOk result (λ x. target_view x ≡ spec.target base (binding_of scope.now) (expr_view expr.now) nodes.old) }
    ensures counted { OnOk result (nodes.new ≡ nodes.old + count.nodes (binding_of scope.now) (expr_view expr.now)) }
{
    match &*expr.form {
        ExprForm::Name(_) => Ok(Target::Whole(thing_number(base, scope, expr))),
        ExprForm::Bit { of, index } => {
            let thing = thing_number(base, scope, of);
            let index = alone(alloc, base, scope, index, nodes)?;
            if is_memory_name(scope, of) {
                return Ok(word(thing, index));
            }
            Ok(bits(thing, index, 1))
        }
        ExprForm::Part { of, low, .. } => {
            let signal = thing_number(base, scope, of);
            let width = shape_of(scope, expr).width;
            let low = alone(alloc, base, scope, low, nodes)?;
            Ok(bits(signal, low, width))
        }
        ExprForm::Slide {
            of,
            base: from,
            width,
            up,
            bracket,
        } => slide_target(
            alloc, base, scope, expr.place, of, from, width, *up, *bracket, nodes,
        ),
        ExprForm::Concat(parts) => concat_target(alloc, base, scope, expr.place, parts, nodes),
        _ => {
            pass_nodes(scope, expr, nodes);
            Ok(Target::Whole(0))
        }
    }
}

/// The target of a concatenation.
#[cycle(target)]
fn concat_target(
    alloc: Global,
    base: u32,
    scope: &Scope,
    place: Place,
    parts: &[Expr],
    nodes: &mut u32,
) -> Result<Target, NoMemory>
    requires base { base ≤ 65536 }
    requires clear { IsClear (binding_of scope.now) }
    requires sound { IsSoundTarget (binding_of scope.now) (concatenation place (exprs_of (exprs_view parts.now))) }
    requires few { nodes.old + count.nodes (binding_of scope.now) (concatenation place (exprs_of (exprs_view parts.now))) < 2 ^ 32 }
    ensures built { IfOk result (λ x. target_view x ≡ spec.target base (binding_of scope.now) (concatenation place (exprs_of (exprs_view parts.now))) nodes.old) }
    ensures counted { OnOk result (nodes.new ≡ nodes.old + count.nodes (binding_of scope.now) (concatenation place (exprs_of (exprs_view parts.now)))) }
{
    Ok(several(targets(alloc, base, scope, parts, nodes)?))
}

/// The targets of the parts of a concatenation.
#[cycle(target)]
fn targets(
    alloc: Global,
    base: u32,
    scope: &Scope,
    parts: &[Expr],
    nodes: &mut u32,
) -> Result<Vec<Target>, NoMemory>
    requires base { base ≤ 65536 }
    requires clear { IsClear (binding_of scope.now) }
    requires sound { EachSoundTarget (binding_of scope.now) (exprs_of (exprs_view parts.now)) }
    requires few { nodes.old + count.all_nodes (binding_of scope.now) (exprs_of (exprs_view parts.now)) < 2 ^ 32 }
    ensures built { IfOk result (λ xs. targets_of (map target_view xs.items) ≡ spec.targets base (binding_of scope.now) (exprs_of (exprs_view parts.now)) nodes.old) }
    ensures counted { OnOk result (nodes.new ≡ nodes.old + count.all_nodes (binding_of scope.now) (exprs_of (exprs_view parts.now))) }
{
    let mut all = Vec::new(alloc);
    for part in parts {
        all.push(target(alloc, base, scope, part, nodes)?)?;
    }
    Ok(all)
}
