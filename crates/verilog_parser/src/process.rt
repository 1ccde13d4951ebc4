//! Continuous assignments, `always` and `initial` blocks.

ghost use Rattle.std.specs.Prelude.{◌≡◌, map};
ghost use Rattle.grammar_rules.specs.Rule.{next, member, take_one, made};
ghost use Rattle.grammar_rules.specs.Grammar.{reads};
ghost use Rattle.verilog_lexer.specs.TokenView.{lexeme};
ghost use Rattle.verilog_tree.specs.View.{statement_view, item_view, items_view};
ghost use Rattle.verilog_grammar.specs.declared.kind.Kind.TheVariants as k;
ghost use Rattle.verilog_grammar.specs.Language.{verilog};
ghost use Rattle.verilog_grammar.specs.Verilog.{grammar};
ghost use Rattle.verilog_grammar.specs.Parts.{after, listed, name_rule};
ghost use Rattle.verilog_grammar.specs.Statements.{set_rule};
ghost use Rattle.verilog_grammar.specs.Modules.{continuous_item_of, continuous_item_rule, separated, edge_rule, timed_rule, always_item_rule, initial_item_rule};
ghost use Rattle.verilog_expressions.specs.Gives.{Gives, same};
ghost use Rattle.verilog_parser.specs.Processes.{separators, next_rule, closed_rule, timed_inside_rule, timed_view};
ghost use Rattle.verilog_expressions.specs.Views.{set_view, one_item_view};

use crate::statement::{set, statement};
use cov_host::{Place, Sequence};
use four_state::Edge;
use std::alloc::Global;
use verilog_expressions::{Cursor, ReadFault};
use verilog_grammar::{Body, Kind};
use verilog_items::name;
use verilog_lexer::Token;
use verilog_tree::{Expr, Item, ItemForm, Named, Statement, When};

/// An item for each assignment after an `assign`.
#[tactic(auto, unfolding(verilog_grammar::specs::Modules::continuous_item_rule))]
pub(crate) fn continuous_items(
    alloc: Global,
    cursor: &mut Cursor<'_, '_>,
    depth: u32,
) -> Result<Vec<Item>, ReadFault>
    ensures { Gives (λ v. items_view v.items) (reads verilog grammar depth continuous_item_rule cursor.old) result cursor.new }
{
    let word = cursor.take(Kind::Assign)?;
    let items = assigned(alloc, cursor, depth, word.place)?;
    cursor.take(Kind::Semicolon)?;
    Ok(items)
}

/// An item for each of one or more assignments with commas between.
fn assigned(
    alloc: Global,
    cursor: &mut Cursor<'_, '_>,
    depth: u32,
    place: Place,
) -> Result<Vec<Item>, ReadFault>
    ensures { Gives (λ v. items_view v.items) (reads verilog grammar depth (made (map (continuous_item_of place)) (listed set_rule)) cursor.old) result cursor.new }
{
    let first = set(alloc, cursor, depth)?;
    let mut items = Vec::new(alloc);
    items.push(continuous(place, first))?;
    'more: while cursor.sees(Kind::Comma) {
        let next = next_set(alloc, cursor, depth)?;
        items.push(continuous(place, next))?;
    }
    Ok(items)
}

/// The item of an assignment.
fn continuous(place: Place, set: (Expr, Expr)) -> Item
    ensures { item_view result ≡ continuous_item_of place (set_view set) }
{
    let (target, value) = set;
    Item {
        place,
        form: ItemForm::Assign { target, value },
    }
}

/// A comma and an assignment.
fn next_set(
    alloc: Global,
    cursor: &mut Cursor<'_, '_>,
    depth: u32,
) -> Result<(Expr, Expr), ReadFault>
    ensures { Gives set_view (reads verilog grammar depth (after k.Comma set_rule) cursor.old) result cursor.new }
{
    cursor.take(Kind::Comma)?;
    set(alloc, cursor, depth)
}

/// Whether what separates names or edges is next.
fn sees_separator(cursor: &Cursor<'_, '_>) -> bool
    ensures { result ≡ member (next verilog cursor.now) separators }
{
    cursor.sees(Kind::OrWord) || cursor.sees(Kind::Comma)
}

/// An `or` or a comma.
#[tactic(auto, using(verilog_expressions::proofs::Taken::any_taken, verilog_expressions::proofs::Taken::any_refused))]
fn separator<'a>(cursor: &mut Cursor<'_, 'a>) -> Result<Token<'a>, ReadFault>
    ensures { Gives lexeme (take_one verilog separators cursor.old) result cursor.new }
{
    if !sees_separator(cursor) {
        return Err(cursor.refuse());
    }
    cursor.take_next()
}

/// Names with `or` or commas between.
fn separated_names(alloc: Global, cursor: &mut Cursor<'_, '_>) -> Result<Vec<Named>, ReadFault>
    ensures { Gives (λ v. v.items) (reads verilog grammar 0 (separated name_rule) cursor.old) result cursor.new }
{
    let first = name(alloc, cursor)?;
    let mut all = Vec::new(alloc);
    all.push(first)?;
    'more: while sees_separator(cursor) {
        let next = next_name(alloc, cursor)?;
        all.push(next)?;
    }
    Ok(all)
}

/// A name after `or` or a comma.
fn next_name(alloc: Global, cursor: &mut Cursor<'_, '_>) -> Result<Named, ReadFault>
    ensures { Gives same (reads verilog grammar 0 (next_rule name_rule) cursor.old) result cursor.new }
{
    separator(cursor)?;
    name(alloc, cursor)
}

/// Edges with `or` or commas between.
fn separated_edges(
    alloc: Global,
    cursor: &mut Cursor<'_, '_>,
) -> Result<Vec<(Edge, Named)>, ReadFault>
    ensures { Gives (λ v. v.items) (reads verilog grammar 0 (separated edge_rule) cursor.old) result cursor.new }
{
    let first = edge(alloc, cursor)?;
    let mut all = Vec::new(alloc);
    all.push(first)?;
    'more: while sees_separator(cursor) {
        let next = next_edge(alloc, cursor)?;
        all.push(next)?;
    }
    Ok(all)
}

/// An edge after `or` or a comma.
fn next_edge(alloc: Global, cursor: &mut Cursor<'_, '_>) -> Result<(Edge, Named), ReadFault>
    ensures { Gives same (reads verilog grammar 0 (next_rule edge_rule) cursor.old) result cursor.new }
{
    separator(cursor)?;
    edge(alloc, cursor)
}

/// An edge of a name.
#[tactic(auto, unfolding(verilog_grammar::specs::Modules::edge_rule))]
fn edge(alloc: Global, cursor: &mut Cursor<'_, '_>) -> Result<(Edge, Named), ReadFault>
    ensures { Gives same (reads verilog grammar 0 edge_rule cursor.old) result cursor.new }
{
    if cursor.sees(Kind::Posedge) {
        cursor.take(Kind::Posedge)?;
        let name = name(alloc, cursor)?;
        return Ok((Edge::Pos, name));
    }
    cursor.take(Kind::Negedge)?;
    let name = name(alloc, cursor)?;
    Ok((Edge::Neg, name))
}

/// The parenthesis after what a block waits for, and its body.
fn closed(
    alloc: Global,
    cursor: &mut Cursor<'_, '_>,
    depth: u32,
    body: Body,
) -> Result<Statement, ReadFault>
    ensures { Gives statement_view (reads verilog grammar depth (closed_rule body) cursor.old) result cursor.new }
{
    cursor.take(Kind::CloseParen)?;
    statement(alloc, cursor, depth, body)
}

/// What a block waits for in parentheses, without the first, and its body.
#[tactic(auto, unfolding(verilog_grammar::specs::Modules::edge_rule))]
fn timed_inside(
    alloc: Global,
    cursor: &mut Cursor<'_, '_>,
    depth: u32,
) -> Result<(When, Statement), ReadFault>
    ensures { Gives timed_view (reads verilog grammar depth timed_inside_rule cursor.old) result cursor.new }
{
    if cursor.sees(Kind::Star) {
        cursor.take(Kind::Star)?;
        let body = closed(alloc, cursor, depth, Body::Combinational)?;
        return Ok((When::Star, body));
    }
    if cursor.sees(Kind::Identifier) {
        let names = separated_names(alloc, cursor)?;
        let body = closed(alloc, cursor, depth, Body::Combinational)?;
        return Ok((When::Names(Sequence::from_vec(names)), body));
    }
    let edges = separated_edges(alloc, cursor)?;
    let body = closed(alloc, cursor, depth, Body::Clocked)?;
    Ok((When::Edges(Sequence::from_vec(edges)), body))
}

/// What a block waits for, and its body.
#[tactic(auto, unfolding(verilog_grammar::specs::Modules::timed_rule))]
fn timed(
    alloc: Global,
    cursor: &mut Cursor<'_, '_>,
    depth: u32,
) -> Result<(When, Statement), ReadFault>
    ensures { Gives timed_view (reads verilog grammar depth timed_rule cursor.old) result cursor.new }
{
    if cursor.sees(Kind::Star) {
        cursor.take(Kind::Star)?;
        let body = statement(alloc, cursor, depth, Body::Combinational)?;
        return Ok((When::Star, body));
    }
    cursor.take(Kind::OpenParen)?;
    timed_inside(alloc, cursor, depth)
}

#[tactic(auto, unfolding(verilog_grammar::specs::Modules::always_item_rule))]
pub(crate) fn always_item(
    alloc: Global,
    cursor: &mut Cursor<'_, '_>,
    depth: u32,
) -> Result<Item, ReadFault>
    ensures { Gives one_item_view (reads verilog grammar depth always_item_rule cursor.old) result cursor.new }
{
    let word = cursor.take(Kind::Always)?;
    cursor.take(Kind::At)?;
    let (when, body) = timed(alloc, cursor, depth)?;
    Ok(Item {
        place: word.place,
        form: ItemForm::Always { when, body },
    })
}

#[tactic(auto, unfolding(verilog_grammar::specs::Modules::initial_item_rule))]
pub(crate) fn initial_item(
    alloc: Global,
    cursor: &mut Cursor<'_, '_>,
    depth: u32,
) -> Result<Item, ReadFault>
    ensures { Gives one_item_view (reads verilog grammar depth initial_item_rule cursor.old) result cursor.new }
{
    let word = cursor.take(Kind::Initial)?;
    let body = statement(alloc, cursor, depth, Body::Initial)?;
    Ok(Item {
        place: word.place,
        form: ItemForm::Initial(body),
    })
}
