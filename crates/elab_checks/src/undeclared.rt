//! The names without declaration.

ghost use Rattle.std.specs.Prelude.{◌≡◌, ◌++◌, flat_map, is_none};
ghost use Rattle.elab_scope.specs.Tally.{after_faults};
ghost use Rattle.elab_scope.specs.View.{name_view};
ghost use Rattle.flat_design.specs.Expressions as spec;
ghost use Rattle.flat_design.specs.Fault.{fault_at, fault_if, none};
ghost use Rattle.flat_design.specs.Identifiers.{all_identifiers};
ghost use Rattle.flat_design.specs.Scope.{binding_of, look_up};
ghost use Rattle.flat_design.specs.declared.fault.ElabKind.TheVariants.{Undeclared};
ghost use Rattle.verilog_tree.specs.Tree.{exprs_of};
ghost use Rattle.verilog_tree.specs.View.{expr_view, exprs_view};

use elab_scope::{FoundFault, NameAt, Scope, Tally};
use flat_design::ElabKind;
use verilog_tree::{Expr, ExprForm};

/// Reports the names of an expression that have no declaration, and says whether all have one.
#[cycle(check_declared)]
pub(crate) fn check_declared<'a>(scope: &Scope, expr: &'a Expr, tally: &mut Tally<'a>) -> bool
    ensures met { tally.new ≡ after_faults tally.old (spec.undeclared (binding_of scope.now) (expr_view expr.now)) }
    ensures sound { result ≡ none (spec.undeclared (binding_of scope.now) (expr_view expr.now)) }
{
    match &*expr.form {
        ExprForm::Number(_) => true,
        ExprForm::Name(name) => {
            let name = NameAt {
                name: name.as_slice(),
                place: expr.place,
            };
            check_name(scope, name, tally)
        }
        ExprForm::Bit { of, index } => check_two(scope, of, index, tally),
        ExprForm::Part { of, high, low, .. } => {
            check_two(scope, of, high, tally) & check_declared(scope, low, tally)
        }
        ExprForm::Slide {
            of,
            base,
            width,
            ..
        } => { check_two(scope, of, base, tally) & check_declared(scope, width, tally) }
        ExprForm::Unary(_, a) => check_declared(scope, a, tally),
        ExprForm::Binary(_, a, b) => check_two(scope, a, b, tally),
        ExprForm::Choice { test, yes, no } => {
            check_two(scope, test, yes, tally) & check_declared(scope, no, tally)
        }
        ExprForm::Concat(parts) => check_each(scope, parts, tally),
        ExprForm::Repeat(count, parts) => {
            check_declared(scope, count, tally) & check_each(scope, parts, tally)
        }
        ExprForm::Sign(_, a) | ExprForm::Paren(a) => check_declared(scope, a, tally),
    }
}

/// Reports the names of two expressions that have no declaration, and says whether all have one.
#[cycle(check_declared)]
fn check_two<'a>(scope: &Scope, a: &'a Expr, b: &'a Expr, tally: &mut Tally<'a>) -> bool
    ensures met { tally.new ≡ after_faults tally.old (spec.undeclared (binding_of scope.now) (expr_view a.now) ++ spec.undeclared (binding_of scope.now) (expr_view b.now)) }
    ensures sound { result ≡ none (spec.undeclared (binding_of scope.now) (expr_view a.now) ++ spec.undeclared (binding_of scope.now) (expr_view b.now)) }
{
    check_declared(scope, a, tally) & check_declared(scope, b, tally)
}

/// Reports the names of several expressions that have no declaration, and says whether all have one.
#[cycle(check_declared)]
fn check_each<'a>(scope: &Scope, exprs: &'a [Expr], tally: &mut Tally<'a>) -> bool
    ensures met { tally.new ≡ after_faults tally.old (flat_map (λ x. fault_if (is_none (look_up (binding_of scope.now) x.name)) (fault_at Undeclared x)) (all_identifiers (exprs_of (exprs_view exprs.now)))) }
    ensures sound { result ≡ none (flat_map (λ x. fault_if (is_none (look_up (binding_of scope.now) x.name)) (fault_at Undeclared x)) (all_identifiers (exprs_of (exprs_view exprs.now)))) }
{
    let mut declared = true;
    for expr in exprs {
        declared &= check_declared(scope, expr, tally);
    }
    declared
}

/// Reports a name that has no declaration, and says whether it has one.
fn check_name<'a>(scope: &Scope, name: NameAt<'a>, tally: &mut Tally<'a>) -> bool
    ensures met { tally.new ≡ after_faults tally.old (fault_if (is_none (look_up (binding_of scope.now) name.entry.name.now)) (fault_at Undeclared (name_view name.entry))) }
    ensures sound { result ≡ none (fault_if (is_none (look_up (binding_of scope.now) name.entry.name.now)) (fault_at Undeclared (name_view name.entry))) }
{
    if scope.get(name.name).is_none() {
        tally.fault(FoundFault::at(ElabKind::Undeclared, name));
        return false;
    }
    true
}
