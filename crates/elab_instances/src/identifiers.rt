//! The names that expressions, processes and connections mention.

ghost use Rattle.std.specs.Prelude.{◌≡◌, [], ◌∷◌, ◌++◌, flat_map, map, OnOk};
ghost use Rattle.elab_instances.specs.Names.{with_names};
ghost use Rattle.elab_scope.specs.NameSet.{has};
ghost use Rattle.elab_scope.specs.View.{name_view};
ghost use Rattle.flat_design.specs.Identifiers as spec;
ghost use Rattle.verilog_tree.specs.Tree.{arms_of, exprs_of, statements_of};
ghost use Rattle.verilog_tree.specs.View.{arms_view, declareds_view, expr_option_view, expr_view, exprs_view, givens_view, item_form_view, loop_view, ones_view, statement_view, statements_view};

use cov_host::NoMemory;
use elab_scope::{NameAt, NameSet};
use four_state::Edge;
use verilog_tree::{
    Arm, Declared, Expr, ExprForm, For, Given, ItemForm, Named, One, Statement, StatementForm, When,
};

/// Adds a name.
pub(crate) fn add_name<'a>(names: &mut NameSet<'a>, name: NameAt<'a>) -> Result<(), NoMemory>
    ensures { OnOk result (has names.new ≡ with_names (name_view name.entry ∷ []) (has names.old)) }
{
    let _ = names.add(name.name)?;
    Ok(())
}

/// Adds the names of an expression.
#[cycle(add_expr)]
fn add_expr<'a>(names: &mut NameSet<'a>, expr: &'a Expr) -> Result<(), NoMemory>
    ensures { OnOk result (has names.new ≡ with_names (spec.identifiers (expr_view expr.now)) (has names.old)) }
{
    match &*expr.form {
        ExprForm::Number(_) => Ok(()),
        ExprForm::Name(name) => add_name(
            names,
            NameAt {
                name: name.as_slice(),
                place: expr.place,
            },
        ),
        ExprForm::Unary(_, a) | ExprForm::Sign(_, a) | ExprForm::Paren(a) => add_expr(names, a),
        ExprForm::Bit { of: a, index: b } | ExprForm::Binary(_, a, b) => add_two(names, a, b),
        ExprForm::Part { of, high, low, .. } => add_three(names, of, high, low),
        ExprForm::Slide {
            of,
            base,
            width,
            ..
        } => add_three(names, of, base, width),
        ExprForm::Choice { test, yes, no } => add_three(names, test, yes, no),
        ExprForm::Concat(parts) => add_exprs(names, parts),
        ExprForm::Repeat(count, parts) => {
            add_expr(names, count)?;
            add_exprs(names, parts)
        }
    }
}

/// Adds the names of two expressions.
#[cycle(add_expr)]
fn add_two<'a>(names: &mut NameSet<'a>, a: &'a Expr, b: &'a Expr) -> Result<(), NoMemory>
    ensures { OnOk result (has names.new ≡ with_names (spec.identifiers (expr_view a.now) ++ spec.identifiers (expr_view b.now)) (has names.old)) }
{
    add_expr(names, a)?;
    add_expr(names, b)
}

/// Adds the names of three expressions.
#[cycle(add_expr)]
fn add_three<'a>(
    names: &mut NameSet<'a>,
    a: &'a Expr,
    b: &'a Expr,
    c: &'a Expr,
) -> Result<(), NoMemory>
    ensures { OnOk result (has names.new ≡ with_names (spec.identifiers (expr_view a.now) ++ spec.identifiers (expr_view b.now) ++ spec.identifiers (expr_view c.now)) (has names.old)) }
{
    add_two(names, a, b)?;
    add_expr(names, c)
}

/// Adds the names of several expressions.
#[cycle(add_expr)]
fn add_exprs<'a>(names: &mut NameSet<'a>, exprs: &'a [Expr]) -> Result<(), NoMemory>
    ensures { OnOk result (has names.new ≡ with_names (spec.all_identifiers (exprs_of (exprs_view exprs.now))) (has names.old)) }
{
    for expr in exprs {
        add_expr(names, expr)?;
    }
    Ok(())
}

/// Adds the names of a statement, those of loop headers too.
#[cycle(add_statement)]
fn add_statement<'a>(names: &mut NameSet<'a>, statement: &'a Statement) -> Result<(), NoMemory>
    ensures { OnOk result (has names.new ≡ with_names (spec.body_identifiers (statement_view statement.now)) (has names.old)) }
{
    match &*statement.form {
        StatementForm::Block(parts) => add_statements(names, parts),
        StatementForm::If { test, yes, no } => {
            add_expr(names, test)?;
            add_statement(names, yes)?;
            match no {
                Some(no) => add_statement(names, no),
                None => Ok(()),
            }
        }
        StatementForm::Case { on, arms, .. } => {
            add_expr(names, on)?;
            add_arms(names, arms)
        }
        StatementForm::For(header) => {
            add_header(names, header)?;
            add_statement(names, &header.body)
        }
        StatementForm::Set { target, value, .. } => add_two(names, target, value),
        StatementForm::Task | StatementForm::Empty => Ok(()),
    }
}

/// Adds the names of several statements.
#[cycle(add_statement)]
fn add_statements<'a>(names: &mut NameSet<'a>, statements: &'a [Statement]) -> Result<(), NoMemory>
    ensures { OnOk result (has names.new ≡ with_names (spec.bodies_identifiers (statements_of (statements_view statements.now))) (has names.old)) }
{
    for statement in statements {
        add_statement(names, statement)?;
    }
    Ok(())
}

/// Adds the names of the arms of a case.
#[cycle(add_statement)]
fn add_arms<'a>(names: &mut NameSet<'a>, arms: &'a [Arm]) -> Result<(), NoMemory>
    ensures { OnOk result (has names.new ≡ with_names (spec.items_identifiers (arms_of (arms_view arms.now))) (has names.old)) }
{
    for arm in arms {
        add_exprs(names, &arm.labels)?;
        add_statement(names, &arm.body)?;
    }
    Ok(())
}

/// Adds the names of the header of a loop.
fn add_header<'a>(names: &mut NameSet<'a>, header: &'a For) -> Result<(), NoMemory>
    ensures { OnOk result (has names.new ≡ with_names (spec.header_identifiers (loop_view header.now).0) (has names.old)) }
{
    add_two(names, &header.name, &header.first)?;
    add_expr(names, &header.test)?;
    add_two(names, &header.target, &header.step)
}

/// Adds the names of an event list.
fn add_when<'a>(names: &mut NameSet<'a>, when: &'a When) -> Result<(), NoMemory>
    ensures { OnOk result (has names.new ≡ with_names (spec.when_names when.now) (has names.old)) }
{
    match when {
        When::Star => Ok(()),
        When::Names(listed) => add_listed(names, listed.as_slice()),
        When::Edges(edges) => add_edges(names, edges.as_slice()),
    }
}

/// Adds the names of a list.
fn add_listed<'a>(names: &mut NameSet<'a>, listed: &'a [Named]) -> Result<(), NoMemory>
    ensures { OnOk result (has names.new ≡ with_names listed.now (has names.old)) }
{
    for name in listed {
        add_name(names, NameAt::of(name))?;
    }
    Ok(())
}

/// Adds the names of a list of edges.
fn add_edges<'a>(names: &mut NameSet<'a>, edges: &'a [(Edge, Named)]) -> Result<(), NoMemory>
    ensures { OnOk result (has names.new ≡ with_names (map (λ e. e.1) edges.now) (has names.old)) }
{
    for (_, name) in edges {
        add_name(names, NameAt::of(name))?;
    }
    Ok(())
}

/// Adds the names of an expression that may be absent.
fn add_value<'a>(names: &mut NameSet<'a>, value: &'a Option<Expr>) -> Result<(), NoMemory>
    ensures { OnOk result (has names.new ≡ with_names (spec.option_identifiers (expr_option_view value.now)) (has names.old)) }
{
    match value {
        Some(value) => add_expr(names, value),
        None => Ok(()),
    }
}

/// Adds the names of the values that nets are declared with.
fn add_values<'a>(names: &mut NameSet<'a>, declared: &'a [Declared]) -> Result<(), NoMemory>
    ensures { OnOk result (has names.new ≡ with_names (flat_map (λ d. spec.option_identifiers d.value) (declareds_view declared.now)) (has names.old)) }
{
    for one in declared {
        add_value(names, &one.value)?;
    }
    Ok(())
}

/// Adds the names of the connections of an instance.
fn add_given<'a>(names: &mut NameSet<'a>, given: &'a [Given]) -> Result<(), NoMemory>
    ensures { OnOk result (has names.new ≡ with_names (flat_map (λ g. spec.option_identifiers g.value) (givens_view given.now)) (has names.old)) }
{
    for connection in given {
        add_value(names, &connection.value)?;
    }
    Ok(())
}

/// Adds the names of the connections of several instances.
fn add_ones<'a>(names: &mut NameSet<'a>, ones: &'a [One]) -> Result<(), NoMemory>
    ensures { OnOk result (has names.new ≡ with_names (flat_map spec.given_identifiers (ones_view ones.now)) (has names.old)) }
{
    for one in ones {
        add_given(names, one.given.as_slice())?;
    }
    Ok(())
}

/// Adds the names of an item that is a process or has connections.
pub(crate) fn add_item<'a>(names: &mut NameSet<'a>, form: &'a ItemForm) -> Result<(), NoMemory>
    ensures { OnOk result (has names.new ≡ with_names (spec.item_identifiers (item_form_view form.now)) (has names.old)) }
{
    match form {
        ItemForm::Net {
            names: declared,
            ..
        } => add_values(names, declared.as_slice()),
        ItemForm::Assign { target, value } => add_two(names, target, value),
        ItemForm::Always { when, body } => {
            add_when(names, when)?;
            add_statement(names, body)
        }
        ItemForm::Instance { ones, .. } => add_ones(names, ones.as_slice()),
        _ => Ok(()),
    }
}
