//! The numbers of counted nodes of what is not built.

ghost use Rattle.std.specs.Prelude.{◌≡◌, ◌+◌, ◌<◌, ◌^◌};
ghost use Rattle.flat_design.specs.Numbering as count;
ghost use Rattle.flat_design.specs.Scope.{binding_of};
ghost use Rattle.verilog_tree.specs.Tree.{exprs_of};
ghost use Rattle.verilog_tree.specs.View.{expr_view, exprs_view};

use crate::counted::take_if;
use crate::names::{is_counted_condition, one_names_thing};
use elab_scope::{Scope, names_thing};
use verilog_tree::{Expr, ExprForm};

/// Passes the numbers of the counted nodes of an expression.
#[cycle(pass_nodes)]
pub fn pass_nodes(scope: &Scope, expr: &Expr, nodes: &mut u32)
    requires { nodes.old + count.nodes (binding_of scope.now) (expr_view expr.now) < 2 ^ 32 }
    ensures { nodes.new ≡ nodes.old + count.nodes (binding_of scope.now) (expr_view expr.now) }
{
    match &*expr.form {
        ExprForm::Number(_) | ExprForm::Name(_) => {}
        ExprForm::Bit { of, index } => {
            pass_nodes(scope, of, nodes);
            pass_nodes(scope, index, nodes)
        }
        ExprForm::Part { of, high, low, .. } => pass_three(scope, of, high, low, nodes),
        ExprForm::Slide {
            of,
            base,
            width,
            ..
        } => pass_three(scope, of, base, width, nodes),
        ExprForm::Unary(_, a) => {
            let _ = take_if(names_thing(scope, a), nodes);
            pass_nodes(scope, a, nodes)
        }
        ExprForm::Binary(_, a, b) => {
            let _ = take_if(one_names_thing(scope, a, b), nodes);
            pass_nodes(scope, a, nodes);
            pass_nodes(scope, b, nodes)
        }
        ExprForm::Choice { test, yes, no } => {
            let _ = take_if(is_counted_condition(scope, test), nodes);
            pass_three(scope, test, yes, no, nodes)
        }
        ExprForm::Concat(parts) => pass_all_nodes(scope, parts, nodes),
        ExprForm::Repeat(times, parts) => {
            pass_nodes(scope, times, nodes);
            pass_all_nodes(scope, parts, nodes)
        }
        ExprForm::Sign(_, a) => pass_nodes(scope, a, nodes),
        ExprForm::Paren(a) => pass_nodes(scope, a, nodes),
    }
}

/// Passes the numbers of the counted nodes of three expressions.
#[cycle(pass_nodes)]
fn pass_three(scope: &Scope, a: &Expr, b: &Expr, c: &Expr, nodes: &mut u32)
    requires { nodes.old + count.nodes (binding_of scope.now) (expr_view a.now) + count.nodes (binding_of scope.now) (expr_view b.now) + count.nodes (binding_of scope.now) (expr_view c.now) < 2 ^ 32 }
    ensures { nodes.new ≡ nodes.old + count.nodes (binding_of scope.now) (expr_view a.now) + count.nodes (binding_of scope.now) (expr_view b.now) + count.nodes (binding_of scope.now) (expr_view c.now) }
{
    pass_nodes(scope, a, nodes);
    pass_nodes(scope, b, nodes);
    pass_nodes(scope, c, nodes);
}

/// Passes the numbers of the counted nodes of all parts of a concatenation.
#[cycle(pass_nodes)]
fn pass_all_nodes(scope: &Scope, parts: &[Expr], nodes: &mut u32)
    requires { nodes.old + count.all_nodes (binding_of scope.now) (exprs_of (exprs_view parts.now)) < 2 ^ 32 }
    ensures { nodes.new ≡ nodes.old + count.all_nodes (binding_of scope.now) (exprs_of (exprs_view parts.now)) }
{
    for part in parts {
        pass_nodes(scope, part, nodes);
    }
}

/// Passes the numbers of the counted nodes of the condition of an `if` or a choice: it is a counted node of its own
/// where it is no operator.
pub fn pass_condition_nodes(scope: &Scope, condition: &Expr, nodes: &mut u32)
    requires { nodes.old + count.condition_nodes (binding_of scope.now) (expr_view condition.now) < 2 ^ 32 }
    ensures { nodes.new ≡ nodes.old + count.condition_nodes (binding_of scope.now) (expr_view condition.now) }
{
    let _ = take_if(is_counted_condition(scope, condition), nodes);
    pass_nodes(scope, condition, nodes);
}
