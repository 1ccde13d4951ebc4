//! The bits that a continuous assignment drives and reads itself.

ghost use Rattle.std.specs.Prelude.{◌≡◌, ◌&&◌, ◌++◌, All, OnOk, [], flat_map, if◌then◌else◌, map};
ghost use Rattle.std.specs.List.{list_any, range_with_len};
ghost use Rattle.elab_processes.specs.Reads.{AreSound, IsSound, all_read_parts, parts_view, read_parts};
ghost use Rattle.elab_scope.specs.Tally.{after_faults};
ghost use Rattle.elab_scope.specs.View.{IsWithin, writing_view};
ghost use Rattle.flat_design.specs.Identifiers.{base_name as spec_base_name};
ghost use Rattle.flat_design.specs.Loops.{is_identifier};
ghost use Rattle.flat_design.specs.Processes as spec;
ghost use Rattle.flat_design.specs.Scope.{binding_of, look_up};
ghost use Rattle.flat_design.specs.Scope.{is_same_thing as spec_is_same_thing};
ghost use Rattle.verilog_tree.specs.Tree.{exprs_of};
ghost use Rattle.verilog_tree.specs.View.{expr_view, exprs_view};

use cov_host::NoMemory;
use elab_checks::{Writer, written_by};
use elab_scope::{FoundFault, Scope, Tally, Written, base_name};
use flat_design::{ElabKind, Entry, Thing};
use std::alloc::Global;
use verilog_tree::{Expr, ExprForm};

/// Reports the reads of an expression without a fault of bits that these targets drive.
pub(crate) fn check_reads<'a>(
    alloc: Global,
    scope: &Scope,
    driven: &[Written],
    expr: &'a Expr,
    tally: &mut Tally<'a>,
) -> Result<(), NoMemory>
    requires within { All IsWithin driven.now }
    requires sound { IsSound (binding_of scope.now) (expr_view expr.now) }
    ensures { OnOk result (tally.new ≡ after_faults tally.old (spec.self_reads (binding_of scope.now) (map writing_view driven.now) (expr_view expr.now))) }
{
    let mut parts = Vec::new(alloc);
    add_parts(expr, &mut parts)?;
    check_each(scope, driven, &parts, tally);
    Ok(())
}

/// Adds the parts of an expression that read a signal or a memory.
#[cycle(add_parts)]
fn add_parts<'a>(expr: &'a Expr, parts: &mut Vec<&'a Expr>) -> Result<(), NoMemory>
    ensures { OnOk result (parts_view parts.new.items ≡ parts_view parts.old.items ++ read_parts (expr_view expr.now)) }
{
    match &*expr.form {
        ExprForm::Number(_) => Ok(()),
        ExprForm::Name(_) => {
            parts.push(expr)?;
            Ok(())
        }
        ExprForm::Bit { of, index } => {
            parts.push(expr)?;
            add_inner_parts(of, parts)?;
            add_parts(index, parts)
        }
        ExprForm::Part { of, .. } => {
            parts.push(expr)?;
            add_inner_parts(of, parts)
        }
        ExprForm::Slide { of, base, .. } => {
            parts.push(expr)?;
            add_inner_parts(of, parts)?;
            add_parts(base, parts)
        }
        ExprForm::Binary(_, a, b) => {
            add_parts(a, parts)?;
            add_parts(b, parts)
        }
        ExprForm::Choice { test, yes, no } => {
            add_parts(test, parts)?;
            add_parts(yes, parts)?;
            add_parts(no, parts)
        }
        ExprForm::Concat(all) => add_all_parts(all, parts),
        ExprForm::Repeat(_, all) => add_all_parts(all, parts),
        ExprForm::Unary(_, a) | ExprForm::Sign(_, a) | ExprForm::Paren(a) => add_parts(a, parts),
    }
}

/// Adds the parts of what is selected from, unless that is a name.
#[cycle(add_parts)]
fn add_inner_parts<'a>(of: &'a Expr, parts: &mut Vec<&'a Expr>) -> Result<(), NoMemory>
    ensures { OnOk result (parts_view parts.new.items ≡ parts_view parts.old.items ++ (if is_identifier (expr_view of.now) then [] else read_parts (expr_view of.now))) }
{
    if is_name(of) {
        return Ok(());
    }
    add_parts(of, parts)
}

/// Adds the parts of all expressions.
#[cycle(add_parts)]
fn add_all_parts<'a>(exprs: &'a [Expr], parts: &mut Vec<&'a Expr>) -> Result<(), NoMemory>
    ensures { OnOk result (parts_view parts.new.items ≡ parts_view parts.old.items ++ all_read_parts (exprs_of (exprs_view exprs.now))) }
{
    for expr in exprs {
        add_parts(expr, parts)?;
    }
    Ok(())
}

/// Whether an expression is a plain name.
fn is_name(expr: &Expr) -> bool
    ensures { result ≡ is_identifier (expr_view expr.now) }
{
    matches!(&*expr.form, ExprForm::Name(_))
}

/// Reports the names and selects that read a bit that these targets drive.
fn check_each<'a>(scope: &Scope, driven: &[Written], parts: &[&'a Expr], tally: &mut Tally<'a>)
    requires within { All IsWithin driven.now }
    requires sound { AreSound (binding_of scope.now) (parts_view parts.now) }
    ensures { tally.new ≡ after_faults tally.old (flat_map (spec.self_read (binding_of scope.now) (map writing_view driven.now)) (parts_view parts.now)) }
{
    for part in parts {
        check_read(scope, driven, *part, tally);
    }
}

/// Reports a name or a select that reads a bit that these targets drive.
fn check_read<'a>(scope: &Scope, driven: &[Written], expr: &'a Expr, tally: &mut Tally<'a>)
    requires within { All IsWithin driven.now }
    requires sound { IsSound (binding_of scope.now) (expr_view expr.now) }
    ensures { tally.new ≡ after_faults tally.old (spec.self_read (binding_of scope.now) (map writing_view driven.now) (expr_view expr.now)) }
{
    if reads_driven(scope, driven, expr) {
        tally.fault(FoundFault::at(ElabKind::SelfAssign, base_name(expr)));
    }
}

/// Whether a name or a select reads a bit that these targets drive.
fn reads_driven(scope: &Scope, driven: &[Written], expr: &Expr) -> bool
    requires within { All IsWithin driven.now }
    requires sound { IsSound (binding_of scope.now) (expr_view expr.now) }
    ensures { result ≡ spec.reads_driven (binding_of scope.now) (map writing_view driven.now) (expr_view expr.now) }
{
    if !names_signal(scope, expr) {
        return false;
    }
    let reader = Writer {
        blocking: true,
        continuous: true,
        process: 0,
    };
    let read = written_by(scope, reader, expr);
    has_driver(driven, &read)
}

/// Whether the name that an expression of selects begins with is that of a signal.
fn names_signal(scope: &Scope, expr: &Expr) -> bool
    ensures { result ≡ spec.is_signal_entry (look_up (binding_of scope.now) (spec_base_name (expr_view expr.now)).name) }
{
    matches!(scope.get(base_name(expr).name), Some(Entry::Signal(_)))
}

/// Whether one of these targets drives one of these bits, or drives their signal where there is no certain bit.
fn has_driver(driven: &[Written], read: &Written) -> bool
    requires within { All IsWithin driven.now }
    requires read { IsWithin read.now }
    ensures { result ≡ list_any (spec.reads_bits read.now.thing (range_with_len read.now.low read.now.count)) (map writing_view driven.now) }
{
    for written in driven {
        if reads_bits(written, read) {
            return true;
        }
    }
    false
}

/// Whether what reads these bits reads one of a target; without a certain bit it may read any of its signal.
fn reads_bits(written: &Written, read: &Written) -> bool
    requires written { IsWithin written.now }
    requires read { IsWithin read.now }
    ensures { result ≡ spec.reads_bits read.now.thing (range_with_len read.now.low read.now.count) (writing_view written.now) }
{
    is_same_thing(written.thing, read.thing) && (read.count == 0 || share_bits(written, read))
}

/// Whether two have a bit in common.
fn share_bits(a: &Written, b: &Written) -> bool
    requires first { IsWithin a.now }
    requires second { IsWithin b.now }
    ensures { result ≡ spec.have_common (range_with_len a.now.low a.now.count) (range_with_len b.now.low b.now.count) }
{
    let low = a.low.max(b.low);
    let end = (a.low + a.count).min(b.low + b.count);
    low < end
}

/// Whether both are one signal, or one memory.
fn is_same_thing(a: Thing, b: Thing) -> bool
    ensures { result ≡ spec_is_same_thing a b }
{
    match (a, b) {
        (Thing::Signal(a), Thing::Signal(b)) | (Thing::Memory(a), Thing::Memory(b)) => a == b,
        _ => false,
    }
}
