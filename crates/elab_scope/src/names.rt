//! The names of an expression, and what a scope says of them.

ghost use Rattle.std.specs.Prelude.{◌≡◌};
ghost use Rattle.std.specs.Option.{option_copied};
ghost use Rattle.elab_scope.specs.View.{name_view};
ghost use Rattle.flat_design.specs.Identifiers as spec;
ghost use Rattle.elab_scope.specs.NameTests.{passes as spec_passes, pass_some};
ghost use Rattle.flat_design.specs.Expressions.{names_no_constant as spec_names_no_constant};
ghost use Rattle.flat_design.specs.Scope as of;
ghost use Rattle.flat_design.specs.Scope.{binding_of};
ghost use Rattle.verilog_tree.specs.Tree.{exprs_of};
ghost use Rattle.verilog_tree.specs.View.{expr_view, exprs_view};

use crate::scope::Scope;
use cov_host::Place;
use flat_design::Entry;
use verilog_tree::{Expr, ExprForm, Named};

/// A name with its place.
#[derive(Clone, Copy, Drop)]
pub struct NameAt<'a> {
    /// The bytes of the name.
    pub name: &'a [u8],
    /// The place of its token.
    pub place: Place,
}

impl<'a> NameAt<'a> {
    /// The name of a declaration, a connection or an event list.
    pub fn of(named: &'a Named) -> NameAt<'a>
        ensures { name_view result ≡ named.now }
    {
        NameAt {
            name: named.name.as_slice(),
            place: named.place,
        }
    }
}

/// The name that an expression of selects begins with, at its place; an empty one for what is no name.
pub fn base_name(expr: &Expr) -> NameAt
    ensures { name_view result ≡ spec.base_name (expr_view expr.now) }
{
    match &*expr.form {
        ExprForm::Name(name) => NameAt {
            name: name.as_slice(),
            place: expr.place,
        },
        ExprForm::Bit { of, .. } | ExprForm::Part { of, .. } | ExprForm::Slide { of, .. } =>
            base_name(of),
        _ => NameAt {
            name: b"",
            place: expr.place,
        },
    }
}

/// Whether an expression is the name of a memory.
pub fn is_memory_name(scope: &Scope, expr: &Expr) -> bool
    ensures { result ≡ of.is_memory_name (binding_of scope.now) (expr_view expr.now) }
{
    match &*expr.form {
        ExprForm::Name(name) => matches!(scope.get(name.as_slice()), Some(Entry::Memory(_))),
        _ => false,
    }
}

/// What a name of an expression is tested for.
#[derive(Clone, Copy, Drop)]
enum NameTest {
    /// A signal or a memory.
    Thing,
    /// Its declaration has a fault.
    Faulty,
    /// It is declared, and not as a constant.
    NoConstant,
    /// It is no constant, or has no declaration.
    Variable,
}

impl NameTest {
    fn passes(self, entry: Option<&Entry>) -> bool
        ensures { result ≡ spec_passes self (option_copied entry.entry) }
    {
        match self {
            NameTest::Thing => matches!(entry, Some(Entry::Signal(_) | Entry::Memory(_))),
            NameTest::Faulty => matches!(entry, Some(Entry::Faulty)),
            NameTest::NoConstant => {
                !matches!(
                    entry,
                    None | Some(Entry::Constant(_) | Entry::Turn(_) | Entry::Faulty)
                )
            }
            NameTest::Variable => !matches!(entry, Some(Entry::Constant(_) | Entry::Turn(_))),
        }
    }
}

/// Whether a name of the expression passes the test.
#[cycle(names_some)]
fn names_some(scope: &Scope, test: NameTest, expr: &Expr) -> bool
    ensures { result ≡ pass_some test (binding_of scope.now) (spec.identifiers (expr_view expr.now)) }
{
    match &*expr.form {
        ExprForm::Number(_) => false,
        ExprForm::Name(name) => test.passes(scope.get(name.as_slice())),
        ExprForm::Unary(_, a) | ExprForm::Sign(_, a) | ExprForm::Paren(a) => {
            names_some(scope, test, a)
        }
        ExprForm::Bit { of: a, index: b } | ExprForm::Binary(_, a, b) => {
            names_some(scope, test, a) || names_some(scope, test, b)
        }
        ExprForm::Part {
            of: a,
            high: b,
            low: c,
            ..
        }
        | ExprForm::Slide {
            of: a,
            base: b,
            width: c,
            ..
        }
        | ExprForm::Choice {
            test: a,
            yes: b,
            no: c,
        } => {
            names_some(scope, test, a) || names_some(scope, test, b) || names_some(scope, test, c)
        }
        ExprForm::Concat(parts) => any_names_some(scope, test, parts),
        ExprForm::Repeat(count, parts) => {
            names_some(scope, test, count) || any_names_some(scope, test, parts)
        }
    }
}

/// Whether a name of one of the expressions does.
#[cycle(names_some)]
fn any_names_some(scope: &Scope, test: NameTest, exprs: &[Expr]) -> bool
    ensures { result ≡ pass_some test (binding_of scope.now) (spec.all_identifiers (exprs_of (exprs_view exprs.now))) }
{
    for expr in exprs {
        if names_some(scope, test, expr) {
            return true;
        }
    }
    false
}

/// Whether an expression names constants alone.
pub fn names_constants(scope: &Scope, expr: &Expr) -> bool
    ensures { result ≡ of.names_constants (binding_of scope.now) (expr_view expr.now) }
{
    !names_some(scope, NameTest::Variable, expr)
}

/// Whether an expression names something whose declaration has a fault.
pub fn names_faulty(scope: &Scope, expr: &Expr) -> bool
    ensures { result ≡ of.names_faulty (binding_of scope.now) (expr_view expr.now) }
{
    names_some(scope, NameTest::Faulty, expr)
}

/// Whether an expression names a signal or a memory.
pub fn names_thing(scope: &Scope, expr: &Expr) -> bool
    ensures { result ≡ of.names_thing (binding_of scope.now) (expr_view expr.now) }
{
    names_some(scope, NameTest::Thing, expr)
}

/// Whether an expression names something that is declared, and not as a constant.
pub fn names_no_constant(scope: &Scope, expr: &Expr) -> bool
    ensures { result ≡ spec_names_no_constant (binding_of scope.now) (expr_view expr.now) }
{
    names_some(scope, NameTest::NoConstant, expr)
}
