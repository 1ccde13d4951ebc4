//! The bits that targets of assignments may write (IEEE 1364-2001 clauses 6.1 and 9.2).

ghost use Rattle.std.specs.Prelude.{◌≡◌, ◌++◌, All, IfOk, OnOk, false, map, true};
ghost use Rattle.elab_checks.specs.Writings.{HasSoundSignal, IsTarget, is_single};
ghost use Rattle.elab_scope.specs.Tally.{after_all};
ghost use Rattle.elab_scope.specs.View.{IsWithin, writing_view};
ghost use Rattle.flat_design.specs.Bodies.{met_writings};
ghost use Rattle.flat_design.specs.Fault.{none};
ghost use Rattle.flat_design.specs.Scope as of;
ghost use Rattle.flat_design.specs.Scope.{binding_of};
ghost use Rattle.flat_design.specs.Targets.{leaves, target_faults, writing_of};
ghost use Rattle.verilog_tree.specs.View.{expr_view};

use crate::offsets::{Bits, bits_of};
use cov_host::NoMemory;
use elab_scope::{Scope, Tally, Written, base_name, names_faulty};
use flat_design::{Entry, Mode, Thing};
use std::alloc::Global;
use verilog_tree::{Expr, ExprForm};

/// The assignment that a target belongs to.
#[derive(Clone, Copy)]
pub struct Writer {
    /// Whether it is a blocking assignment.
    pub blocking: bool,
    /// Whether it is a continuous assignment.
    pub continuous: bool,
    /// The number of its process.
    pub process: u32,
}

/// The signal or memory and the bits that an expression without concatenation names: what is written where it is a
/// target, and what is read where it is a value.
pub fn written_by<'a>(scope: &Scope, writer: Writer, expr: &'a Expr) -> Written<'a>
    requires sound { HasSoundSignal (binding_of scope.now) (expr_view expr.now) }
    requires known { of.names_faulty (binding_of scope.now) (expr_view expr.now) ≡ false }
    ensures value { writing_view result ≡ writing_of (binding_of scope.now) writer.blocking writer.continuous writer.process (expr_view expr.now) }
    ensures within { IsWithin result }
{
    let name = base_name(expr);
    let (thing, bits) = match scope.get(name.name) {
        Some(Entry::Signal(signal)) => (
            Thing::Signal(signal.number),
            bits_of(scope, *signal, expr),
        ),
        Some(Entry::Memory(memory)) => (Thing::Memory(memory.number), Bits::ONE),
        _ => (Thing::Signal(0), Bits::ONE),
    };
    Written {
        name,
        thing,
        low: bits.low,
        count: bits.count,
        blocking: writer.blocking,
        continuous: writer.continuous,
        process: writer.process,
    }
}

/// What the parts of a target write.
pub fn target_writings<'a>(
    alloc: Global,
    scope: &Scope,
    writer: Writer,
    expr: &'a Expr,
) -> Result<Vec<Written<'a>>, NoMemory>
    requires { IsTarget (binding_of scope.now) (expr_view expr.now) }
    ensures value { IfOk result (λ all. map writing_view all.items ≡ map (writing_of (binding_of scope.now) writer.blocking writer.continuous writer.process) (leaves (expr_view expr.now))) }
    ensures within { IfOk result (λ all. All IsWithin all.items) }
{
    let mut all = Vec::new(alloc);
    add_writings(scope, writer, expr, &mut all)?;
    Ok(all)
}

/// Adds what the parts of a target write.
fn add_writings<'a>(
    scope: &Scope,
    writer: Writer,
    expr: &'a Expr,
    all: &mut Vec<Written<'a>>,
) -> Result<(), NoMemory>
    requires target { IsTarget (binding_of scope.now) (expr_view expr.now) }
    requires within { All IsWithin all.old.items }
    ensures value { OnOk result (map writing_view all.new.items ≡ map writing_view all.old.items ++ map (writing_of (binding_of scope.now) writer.blocking writer.continuous writer.process) (leaves (expr_view expr.now))) }
    ensures within { OnOk result (All IsWithin all.new.items) }
{
    let ExprForm::Concat(parts) = &*expr.form else {
        return add_writing(scope, writer, expr, all);
    };
    for part in parts {
        add_writings(scope, writer, part, all)?;
    }
    Ok(())
}

/// Adds what a target without concatenation writes.
fn add_writing<'a>(
    scope: &Scope,
    writer: Writer,
    expr: &'a Expr,
    all: &mut Vec<Written<'a>>,
) -> Result<(), NoMemory>
    requires single { is_single (expr_view expr.now) ≡ true }
    requires target { IsTarget (binding_of scope.now) (expr_view expr.now) }
    requires within { All IsWithin all.old.items }
    ensures value { OnOk result (map writing_view all.new.items ≡ map writing_view all.old.items ++ map (writing_of (binding_of scope.now) writer.blocking writer.continuous writer.process) (leaves (expr_view expr.now))) }
    ensures within { OnOk result (All IsWithin all.new.items) }
{
    all.push(written_by(scope, writer, expr))?;
    Ok(())
}

/// Adds what the parts of a target write, where it is known whether it has a fault. Nothing is added of a target that
/// has one, or names something that has.
pub fn push_writings<'a>(
    alloc: Global,
    scope: &Scope,
    mode: Mode,
    writer: Writer,
    expr: &'a Expr,
    sound: bool,
    tally: &mut Tally<'a>,
) -> Result<(), NoMemory>
    requires sound { sound ≡ none (target_faults (binding_of scope.now) mode (expr_view expr.now)) }
    ensures { OnOk result (tally.new ≡ after_all tally.old (met_writings (binding_of scope.now) mode writer.blocking writer.continuous writer.process (expr_view expr.now))) }
{
    if !sound || names_faulty(scope, expr) {
        return Ok(());
    }
    let all = target_writings(alloc, scope, writer, expr)?;
    for written in &all {
        tally.writing(*written)?;
    }
    Ok(())
}
