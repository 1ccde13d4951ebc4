//! The faults of targets of assignments (IEEE 1364-2001 clauses 6.1 and 9.2).

ghost use Rattle.std.specs.Prelude.{◌≡◌};
ghost use Rattle.elab_scope.specs.Tally.{after_faults};
ghost use Rattle.elab_checks.specs.Widths.{known_width, joined_size_faults};
ghost use Rattle.flat_design.specs.Expressions.{size_faults};
ghost use Rattle.flat_design.specs.Fault.{none};
ghost use Rattle.flat_design.specs.Identifiers.{base_name as spec_base_name};
ghost use Rattle.flat_design.specs.Loops.{is_identifier};
ghost use Rattle.flat_design.specs.Scope.{binding_of, look_up};
ghost use Rattle.flat_design.specs.Targets as spec;
ghost use Rattle.verilog_tree.specs.Tree.{exprs_of};
ghost use Rattle.verilog_tree.specs.View.{expr_view, exprs_view};

use crate::expressions::{check, check_number};
use cov_host::Place;
use elab_const::ConstKind;
use elab_scope::{FoundFault, Scope, Tally, base_name};
use flat_design::{ElabKind, Entry, Mode, SignalEntry};
use verilog_tree::{Expr, ExprForm};

/// Reports the faults of a target, and says whether it has no fault.
#[cycle(targets)]
pub fn check_target<'a>(scope: &Scope, mode: Mode, expr: &'a Expr, tally: &mut Tally<'a>) -> bool
    ensures met { tally.new ≡ after_faults tally.old (spec.target_faults (binding_of scope.now) mode (expr_view expr.now)) }
    ensures sound { result ≡ none (spec.target_faults (binding_of scope.now) mode (expr_view expr.now)) }
{
    match &*expr.form {
        ExprForm::Concat(parts) => {
            if !check_all_targets(scope, mode, parts, tally) {
                return false;
            }
            check_joined(widths(scope, parts), expr.place, tally)
        }
        _ => check_leaf(scope, mode, expr, tally),
    }
}

/// The faults of targets in order; whether they have no fault.
#[cycle(targets)]
fn check_all_targets<'a>(
    scope: &Scope,
    mode: Mode,
    exprs: &'a [Expr],
    tally: &mut Tally<'a>,
) -> bool
    ensures met { tally.new ≡ after_faults tally.old (spec.all_target_faults (binding_of scope.now) mode (exprs_of (exprs_view exprs.now))) }
    ensures sound { result ≡ none (spec.all_target_faults (binding_of scope.now) mode (exprs_of (exprs_view exprs.now))) }
{
    let mut sound = true;
    for expr in exprs {
        sound = check_target(scope, mode, expr, tally) && sound;
    }
    sound
}

/// The widths of parts together, where each has one.
fn widths(scope: &Scope, parts: &[Expr]) -> Option<u128>
    ensures { result ≡ known_width (binding_of scope.now) (exprs_of (exprs_view parts.now)) }
{
    let mut sum: u128 = 0;
    for part in parts {
        match elab_const::shape(part, scope.values()) {
            Ok(shape) => sum += u128::from(shape.width),
            Err(_) => return None,
        }
    }
    Some(sum)
}

/// Reports the fault of a concatenation that begins here, by its width, if that is known, and says whether it has no
/// fault.
fn check_joined<'a>(width: Option<u128>, place: Place, tally: &mut Tally<'a>) -> bool
    ensures met { tally.new ≡ after_faults tally.old (joined_size_faults width place) }
    ensures sound { result ≡ none (joined_size_faults width place) }
{
    let kind = match width {
        Some(width) if width < 1 => ConstKind::BadRange,
        Some(width) if width > 128 => ConstKind::TooWide,
        _ => return true,
    };
    tally.fault(FoundFault::Constant(kind, place));
    false
}

/// Reports the faults of a target without concatenation, and says whether it has no fault.
fn check_leaf<'a>(scope: &Scope, mode: Mode, expr: &'a Expr, tally: &mut Tally<'a>) -> bool
    ensures met { tally.new ≡ after_faults tally.old (spec.leaf_faults (binding_of scope.now) mode (look_up (binding_of scope.now) (spec_base_name (expr_view expr.now)).name) (expr_view expr.now)) }
    ensures sound { result ≡ none (spec.leaf_faults (binding_of scope.now) mode (look_up (binding_of scope.now) (spec_base_name (expr_view expr.now)).name) (expr_view expr.now)) }
{
    let base = base_name(expr);
    let kind = match scope.get(base.name) {
        None => ElabKind::Undeclared,
        Some(Entry::Signal(signal)) => return check_signal(scope, mode, *signal, expr, tally),
        Some(Entry::Memory(_)) => return check_memory(scope, mode, expr, tally),
        Some(Entry::Faulty) => return true,
        Some(Entry::Instance | Entry::NoConstant) => ElabKind::WrongUse,
        Some(Entry::Constant(_) | Entry::Turn(_) | Entry::LoopVariable) => ElabKind::WrongTarget,
    };
    tally.fault(FoundFault::at(kind, base));
    false
}

/// Reports the faults of a target that is a signal or a select of one, and says whether it has no fault.
fn check_signal<'a>(
    scope: &Scope,
    mode: Mode,
    signal: SignalEntry,
    expr: &'a Expr,
    tally: &mut Tally<'a>,
) -> bool
    ensures met { tally.new ≡ after_faults tally.old (spec.signal_target_faults (binding_of scope.now) mode signal (expr_view expr.now)) }
    ensures sound { result ≡ none (spec.signal_target_faults (binding_of scope.now) mode signal (expr_view expr.now)) }
{
    let continuous = matches!(mode, Mode::Continuous);
    if signal.input || signal.net != continuous {
        tally.fault(FoundFault::at(ElabKind::WrongTarget, base_name(expr)));
        return false;
    }
    let sound = check(scope, expr, tally);
    if !continuous {
        return sound;
    }
    check_fixed(scope, expr, tally) && sound
}

/// That the index or the base of a target is a constant number; whether it is.
fn check_fixed<'a>(scope: &Scope, expr: &'a Expr, tally: &mut Tally<'a>) -> bool
    ensures met { tally.new ≡ after_faults tally.old (spec.fixed_faults (binding_of scope.now) (expr_view expr.now)) }
    ensures sound { result ≡ none (spec.fixed_faults (binding_of scope.now) (expr_view expr.now)) }
{
    match &*expr.form {
        ExprForm::Bit { index, .. } => check_number(scope, index, tally),
        ExprForm::Slide { base, .. } => check_number(scope, base, tally),
        _ => true,
    }
}

/// Reports the faults of a target that is a word of a memory, and says whether it has no fault.
fn check_memory<'a>(scope: &Scope, mode: Mode, expr: &'a Expr, tally: &mut Tally<'a>) -> bool
    ensures met { tally.new ≡ after_faults tally.old (spec.memory_target_faults (binding_of scope.now) mode (expr_view expr.now)) }
    ensures sound { result ≡ none (spec.memory_target_faults (binding_of scope.now) mode (expr_view expr.now)) }
{
    if !matches!(mode, Mode::Clocked) || is_part_of_word(expr) {
        tally.fault(FoundFault::at(ElabKind::WrongTarget, base_name(expr)));
        return false;
    }
    check(scope, expr, tally)
}

/// Whether a target is a part of a word, or no target for another reason.
fn is_part_of_word(expr: &Expr) -> bool
    ensures { result ≡ spec.is_part_of_word (expr_view expr.now) }
{
    match &*expr.form {
        ExprForm::Name(_) => false,
        ExprForm::Bit { of, .. } | ExprForm::Part { of, .. } | ExprForm::Slide { of, .. } =>
            !is_name(of),
        _ => true,
    }
}

/// Whether an expression is a plain name.
pub(crate) fn is_name(expr: &Expr) -> bool
    ensures { result ≡ is_identifier (expr_view expr.now) }
{
    matches!(&*expr.form, ExprForm::Name(_))
}
