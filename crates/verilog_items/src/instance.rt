//! Instances of modules.

ghost use Rattle.std.specs.Prelude.{◌≡◌, map, IfOk};
ghost use Rattle.grammar_rules.specs.Rule.{either, made, empty};
ghost use Rattle.grammar_rules.specs.Grammar.{reads};
ghost use Rattle.verilog_tree.specs.View.{expr_option_view, given_view, givens_view, one_view, ones_view};
ghost use Rattle.verilog_grammar.specs.declared.kind.Kind.TheVariants as k;
ghost use Rattle.verilog_grammar.specs.Language.{verilog};
ghost use Rattle.verilog_grammar.specs.Verilog.{grammar};
ghost use Rattle.verilog_grammar.specs.Parts.{an_expression, after, in_parentheses, listed, optional};
ghost use Rattle.verilog_grammar.specs.Modules.{overrides_rule, no_overrides, connected_by_place, connections_by_place as connections_by_place_of, connections_rule, one_rule, instance_item_rule};
ghost use Rattle.verilog_expressions.specs.Gives.{Gives};
ghost use Rattle.verilog_expressions.specs.Views.{one_item_view};
ghost use Rattle.verilog_items.specs.Instances.{override_by_name_rule, override_by_place_rule, connection_by_name_rule, given_values, is_lone_empty as is_lone_empty_list};

use crate::declaration::name;
use cov_host::Sequence;
use std::alloc::Global;
use verilog_expressions::{Cursor, ReadFault, begins_expression, expression};
use verilog_grammar::Kind;
use verilog_tree::{Expr, Given, Item, ItemForm, Named, One};

/// An override by name.
fn override_by_name(
    alloc: Global,
    cursor: &mut Cursor<'_, '_>,
    depth: u32,
) -> Result<Given, ReadFault>
    ensures { Gives given_view (reads verilog grammar depth override_by_name_rule cursor.old) result cursor.new }
{
    cursor.take(Kind::Dot)?;
    let name = name(alloc, cursor)?;
    cursor.take(Kind::OpenParen)?;
    let value = expression(alloc, cursor, depth)?.into_expr();
    cursor.take(Kind::CloseParen)?;
    Ok(Given {
        name: Some(name),
        value: Some(value),
    })
}

/// Overrides by name with commas between.
fn overrides_by_name(
    alloc: Global,
    cursor: &mut Cursor<'_, '_>,
    depth: u32,
) -> Result<Vec<Given>, ReadFault>
    ensures { Gives (λ v. givens_view v.items) (reads verilog grammar depth (listed override_by_name_rule) cursor.old) result cursor.new }
{
    let first = override_by_name(alloc, cursor, depth)?;
    let mut all = Vec::new(alloc);
    all.push(first)?;
    'more: while cursor.sees(Kind::Comma) {
        cursor.take(Kind::Comma)?;
        let next = override_by_name(alloc, cursor, depth)?;
        all.push(next)?;
    }
    Ok(all)
}

/// An override by position.
fn override_by_place(
    alloc: Global,
    cursor: &mut Cursor<'_, '_>,
    depth: u32,
) -> Result<Given, ReadFault>
    ensures { Gives given_view (reads verilog grammar depth override_by_place_rule cursor.old) result cursor.new }
{
    let value = expression(alloc, cursor, depth)?.into_expr();
    Ok(Given {
        name: None,
        value: Some(value),
    })
}

/// Overrides by position with commas between.
fn overrides_by_place(
    alloc: Global,
    cursor: &mut Cursor<'_, '_>,
    depth: u32,
) -> Result<Vec<Given>, ReadFault>
    ensures { Gives (λ v. givens_view v.items) (reads verilog grammar depth (listed override_by_place_rule) cursor.old) result cursor.new }
{
    let first = override_by_place(alloc, cursor, depth)?;
    let mut all = Vec::new(alloc);
    all.push(first)?;
    'more: while cursor.sees(Kind::Comma) {
        cursor.take(Kind::Comma)?;
        let next = override_by_place(alloc, cursor, depth)?;
        all.push(next)?;
    }
    Ok(all)
}

/// The overrides between the parentheses, all by name or all by position.
#[tactic(auto, unfolding(verilog_grammar::specs::Modules::overrides_rule))]
fn overrides(
    alloc: Global,
    cursor: &mut Cursor<'_, '_>,
    depth: u32,
) -> Result<Vec<Given>, ReadFault>
    ensures { Gives (λ v. givens_view v.items) (reads verilog grammar depth overrides_rule cursor.old) result cursor.new }
{
    if cursor.sees(Kind::Dot) {
        return overrides_by_name(alloc, cursor, depth);
    }
    overrides_by_place(alloc, cursor, depth)
}

/// The overrides of an instance, which may be left out.
fn optional_overrides(
    alloc: Global,
    cursor: &mut Cursor<'_, '_>,
    depth: u32,
) -> Result<Vec<Given>, ReadFault>
    ensures { Gives (λ v. givens_view v.items) (reads verilog grammar depth (either (after k.Hash (in_parentheses overrides_rule)) (made no_overrides empty)) cursor.old) result cursor.new }
{
    if !cursor.sees(Kind::Hash) {
        return Ok(Vec::new(alloc));
    }
    cursor.take(Kind::Hash)?;
    cursor.take(Kind::OpenParen)?;
    let all = overrides(alloc, cursor, depth)?;
    cursor.take(Kind::CloseParen)?;
    Ok(all)
}

/// An expression that may be left out.
fn optional_expression(
    alloc: Global,
    cursor: &mut Cursor<'_, '_>,
    depth: u32,
) -> Result<Option<Expr>, ReadFault>
    ensures { Gives expr_option_view (reads verilog grammar depth (optional an_expression) cursor.old) result cursor.new }
{
    if !begins_expression(cursor) {
        return Ok(None);
    }
    Ok(Some(expression(alloc, cursor, depth)?.into_expr()))
}

/// A connection by name.
fn connection_by_name(
    alloc: Global,
    cursor: &mut Cursor<'_, '_>,
    depth: u32,
) -> Result<Given, ReadFault>
    ensures { Gives given_view (reads verilog grammar depth connection_by_name_rule cursor.old) result cursor.new }
{
    cursor.take(Kind::Dot)?;
    let name = name(alloc, cursor)?;
    cursor.take(Kind::OpenParen)?;
    let value = optional_expression(alloc, cursor, depth)?;
    cursor.take(Kind::CloseParen)?;
    Ok(Given {
        name: Some(name),
        value,
    })
}

/// Connections by name with commas between.
fn connections_by_name(
    alloc: Global,
    cursor: &mut Cursor<'_, '_>,
    depth: u32,
) -> Result<Vec<Given>, ReadFault>
    ensures { Gives (λ v. givens_view v.items) (reads verilog grammar depth (listed connection_by_name_rule) cursor.old) result cursor.new }
{
    let first = connection_by_name(alloc, cursor, depth)?;
    let mut all = Vec::new(alloc);
    all.push(first)?;
    'more: while cursor.sees(Kind::Comma) {
        cursor.take(Kind::Comma)?;
        let next = connection_by_name(alloc, cursor, depth)?;
        all.push(next)?;
    }
    Ok(all)
}

/// A connection by position.
fn connection_by_place(
    alloc: Global,
    cursor: &mut Cursor<'_, '_>,
    depth: u32,
) -> Result<Given, ReadFault>
    ensures read { Gives (λ g. expr_option_view g.value) (reads verilog grammar depth (optional an_expression) cursor.old) result cursor.new }
    ensures unnamed { IfOk result (λ g. given_view g ≡ connected_by_place (expr_option_view g.value)) }
{
    let value = optional_expression(alloc, cursor, depth)?;
    Ok(Given { name: None, value })
}

/// What is between commas, as connections by position. An empty pair of parentheses has one without value.
fn places(alloc: Global, cursor: &mut Cursor<'_, '_>, depth: u32) -> Result<Vec<Given>, ReadFault>
    ensures read { Gives (λ v. given_values v.items) (reads verilog grammar depth (listed (optional an_expression)) cursor.old) result cursor.new }
    ensures unnamed { IfOk result (λ v. givens_view v.items ≡ map connected_by_place (given_values v.items)) }
{
    let first = connection_by_place(alloc, cursor, depth)?;
    let mut all = Vec::new(alloc);
    all.push(first)?;
    'more: while cursor.sees(Kind::Comma) {
        cursor.take(Kind::Comma)?;
        let next = connection_by_place(alloc, cursor, depth)?;
        all.push(next)?;
    }
    Ok(all)
}

/// Connections by position with commas between.
#[tactic(auto, using(crate::proofs::Places::lone))]
fn connections_by_place(
    alloc: Global,
    cursor: &mut Cursor<'_, '_>,
    depth: u32,
) -> Result<Vec<Given>, ReadFault>
    ensures { Gives (λ v. givens_view v.items) (reads verilog grammar depth (made connections_by_place_of (listed (optional an_expression))) cursor.old) result cursor.new }
{
    let all = places(alloc, cursor, depth)?;
    if is_lone_empty(all.as_slice()) {
        return Ok(Vec::new(alloc));
    }
    Ok(all)
}

/// Whether it is one connection without value.
#[tactic(auto, using(crate::proofs::Places::lone_there, crate::proofs::Places::many_not, crate::proofs::Places::none_not))]
fn is_lone_empty(all: &[Given]) -> bool
    ensures { result ≡ is_lone_empty_list (given_values all.now) }
{
    match all.first() {
        Some(first) => all.len() == 1 && first.value.is_none(),
        None => false,
    }
}

/// The connections between the parentheses, all by name or all by position.
#[tactic(auto, unfolding(verilog_grammar::specs::Modules::connections_rule))]
fn connections(
    alloc: Global,
    cursor: &mut Cursor<'_, '_>,
    depth: u32,
) -> Result<Vec<Given>, ReadFault>
    ensures { Gives (λ v. givens_view v.items) (reads verilog grammar depth connections_rule cursor.old) result cursor.new }
{
    if cursor.sees(Kind::Dot) {
        return connections_by_name(alloc, cursor, depth);
    }
    connections_by_place(alloc, cursor, depth)
}

/// An instance with its connections.
#[tactic(auto, unfolding(verilog_grammar::specs::Modules::one_rule))]
fn one(alloc: Global, cursor: &mut Cursor<'_, '_>, depth: u32) -> Result<One, ReadFault>
    ensures { Gives one_view (reads verilog grammar depth one_rule cursor.old) result cursor.new }
{
    let name = name(alloc, cursor)?;
    cursor.take(Kind::OpenParen)?;
    let given = connections(alloc, cursor, depth)?;
    cursor.take(Kind::CloseParen)?;
    Ok(One {
        name,
        given: Sequence::from_vec(given),
    })
}

/// Instances with commas between.
fn ones(alloc: Global, cursor: &mut Cursor<'_, '_>, depth: u32) -> Result<Vec<One>, ReadFault>
    ensures { Gives (λ v. ones_view v.items) (reads verilog grammar depth (listed one_rule) cursor.old) result cursor.new }
{
    let first = one(alloc, cursor, depth)?;
    let mut all = Vec::new(alloc);
    all.push(first)?;
    'more: while cursor.sees(Kind::Comma) {
        cursor.take(Kind::Comma)?;
        let next = one(alloc, cursor, depth)?;
        all.push(next)?;
    }
    Ok(all)
}

/// Instances of a module.
#[tactic(auto, unfolding(verilog_grammar::specs::Modules::instance_item_rule))]
pub fn instance_item(
    alloc: Global,
    cursor: &mut Cursor<'_, '_>,
    depth: u32,
) -> Result<Item, ReadFault>
    ensures { Gives one_item_view (reads verilog grammar depth instance_item_rule cursor.old) result cursor.new }
{
    let module: Named = name(alloc, cursor)?;
    let overrides = optional_overrides(alloc, cursor, depth)?;
    let ones = ones(alloc, cursor, depth)?;
    cursor.take(Kind::Semicolon)?;
    Ok(Item {
        place: module.place,
        form: ItemForm::Instance {
            module,
            overrides: Sequence::from_vec(overrides),
            ones: Sequence::from_vec(ones),
        },
    })
}
