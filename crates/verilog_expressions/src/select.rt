//! Names with selects, and the left sides of assignments.

ghost use Rattle.std.specs.Prelude.{◌≡◌, ◌<◌, ◌^◌, ◌∷◌, IfOk};
ghost use Rattle.grammar_rules.specs.Rule.{next, member, many, made, both, nest};
ghost use Rattle.grammar_rules.specs.Grammar.{reads, phrase};
ghost use Rattle.verilog_tree.specs.View.{exprs_view};
ghost use Rattle.verilog_grammar.specs.declared.kind.Kind.TheVariants as k;
ghost use Rattle.verilog_grammar.specs.Language.{verilog, expression as an_expression, target as a_target};
ghost use Rattle.verilog_grammar.specs.Verilog.{grammar, begins};
ghost use Rattle.verilog_grammar.specs.Parts.{only, before, after};
ghost use Rattle.verilog_grammar.specs.Expressions.{identifier_of, selects_rule, target_name_rule, targets_rule, concat_of};
ghost use Rattle.verilog_expressions.specs.Gives.{Gives, Fails};
ghost use Rattle.verilog_expressions.specs.Grows.{by_select};
ghost use Rattle.verilog_expressions.specs.Others.{others_view};
ghost use Rattle.verilog_expressions.specs.Measured.{IsLow, measured_view};

use crate::cursor::Cursor;
use crate::expr::{expression, may_grow};
use crate::fault::ReadFault;
use crate::measured::{Measured, MeasuredList};
use cov_host::Name;
use std::alloc::Global;
use verilog_grammar::Kind;
use verilog_tree::Depth;

/// A name.
pub(crate) fn identifier(alloc: Global, cursor: &mut Cursor<'_, '_>) -> Result<Measured, ReadFault>
    ensures { Gives measured_view (reads verilog grammar 0 (made identifier_of (only k.Identifier)) cursor.old) result cursor.new }
{
    let token = cursor.take(Kind::Identifier)?;
    let name = Name::from_vec(Vec::from_slice(alloc, token.text)?);
    Ok(Measured::name(alloc, token.place, name)?)
}

/// A name with at most two selects.
#[cycle(expr)]
#[tactic(auto, unfolding(verilog_grammar::specs::Expressions::selects_rule))]
pub(crate) fn selects(
    alloc: Global,
    cursor: &mut Cursor<'_, '_>,
    depth: u32,
) -> Result<Measured, ReadFault>
    ensures { Gives measured_view (reads verilog grammar depth selects_rule cursor.old) result cursor.new }
{
    let name = identifier(alloc, cursor)?;
    if !cursor.sees(Kind::OpenBracket) {
        return Ok(name);
    }
    let part = selected(alloc, cursor, depth, name)?;
    if !cursor.sees(Kind::OpenBracket) {
        return Ok(part);
    }
    selected(alloc, cursor, depth, part)
}

/// The select that is next, of the expression before it.
#[cycle(expr)]
#[tactic(auto, unfolding(verilog_grammar::specs::Expressions::select_rule, verilog_grammar::specs::Expressions::select_end_rule))]
fn selected(
    alloc: Global,
    cursor: &mut Cursor<'_, '_>,
    depth: u32,
    of: Measured,
) -> Result<Measured, ReadFault>
    ensures { Gives measured_view (by_select depth (measured_view of) cursor.old) result cursor.new }
{
    may_grow(cursor, &of, depth)?;
    let bracket = cursor.take(Kind::OpenBracket)?.place;
    let head = expression(alloc, cursor, depth)?;
    if cursor.sees(Kind::CloseBracket) {
        cursor.take(Kind::CloseBracket)?;
        Ok(Measured::bit(alloc, of, head)?)
    } else if cursor.sees(Kind::Colon) {
        let low = bound(alloc, cursor, depth, Kind::Colon)?;
        Ok(Measured::part(alloc, of, head, low, bracket)?)
    } else if cursor.sees(Kind::PlusColon) {
        let width = bound(alloc, cursor, depth, Kind::PlusColon)?;
        Ok(Measured::slide(alloc, of, head, width, true, bracket)?)
    } else {
        let width = bound(alloc, cursor, depth, Kind::MinusColon)?;
        Ok(Measured::slide(alloc, of, head, width, false, bracket)?)
    }
}

/// The inside of a bracket, after a token of this kind.
#[cycle(expr)]
fn bound(
    alloc: Global,
    cursor: &mut Cursor<'_, '_>,
    depth: u32,
    kind: Kind,
) -> Result<Measured, ReadFault>
    ensures read { Gives measured_view (reads verilog grammar depth (after kind (before (nest an_expression) k.CloseBracket)) cursor.old) result cursor.new }
    ensures low { IfOk result (λ e. IsLow (measured_view e)) }
{
    cursor.take(kind)?;
    let last = expression(alloc, cursor, depth)?;
    cursor.take(Kind::CloseBracket)?;
    Ok(last)
}

/// The left side of an assignment that is nested no deeper than `depth`.
#[cycle(left_side)]
#[tactic(auto, using(grammar_rules::proofs::Language::phrase_down), unfolding(verilog_grammar::specs::Expressions::target_rule, verilog_grammar::specs::Expressions::target_name_rule))]
pub fn target(alloc: Global, cursor: &mut Cursor<'_, '_>, depth: u32) -> Result<Measured, ReadFault>
    ensures { Gives measured_view (phrase verilog grammar depth a_target cursor.old) result cursor.new }
{
    if depth == 0 {
        return Err(too_deep(cursor));
    }
    if cursor.sees(Kind::Identifier) {
        target_name(alloc, cursor, depth - 1)
    } else {
        targets(alloc, cursor, depth - 1)
    }
}

/// Whether the next token begins the left side of an assignment.
pub fn begins_target(cursor: &Cursor<'_, '_>) -> bool
    ensures { result ≡ member (next verilog cursor.now) (begins a_target) }
{
    cursor.sees(Kind::Identifier) || cursor.sees(Kind::OpenBrace)
}

/// The fault where a left side would be nested too deep.
#[tactic(auto, using(crate::proofs::Gives::refused_at))]
fn too_deep(cursor: &Cursor<'_, '_>) -> ReadFault
    ensures { Fails result (phrase verilog grammar 0 a_target cursor.now) }
{
    if begins_target(cursor) {
        cursor.deep()
    } else {
        cursor.refuse()
    }
}

/// A name with at most one select, or with an index and one select.
#[tactic(auto, unfolding(verilog_grammar::specs::Expressions::target_name_rule))]
fn target_name(
    alloc: Global,
    cursor: &mut Cursor<'_, '_>,
    depth: u32,
) -> Result<Measured, ReadFault>
    ensures { Gives measured_view (reads verilog grammar depth target_name_rule cursor.old) result cursor.new }
{
    let name = identifier(alloc, cursor)?;
    if !cursor.sees(Kind::OpenBracket) {
        return Ok(name);
    }
    let part = selected(alloc, cursor, depth, name)?;
    if !part.is_bit() || !cursor.sees(Kind::OpenBracket) {
        return Ok(part);
    }
    selected(alloc, cursor, depth, part)
}

/// Left sides in braces.
#[cycle(left_side)]
#[tactic(auto, unfolding(verilog_grammar::specs::Expressions::targets_rule))]
fn targets(alloc: Global, cursor: &mut Cursor<'_, '_>, depth: u32) -> Result<Measured, ReadFault>
    ensures { Gives measured_view (reads verilog grammar depth (made concat_of (both (only k.OpenBrace) (before targets_rule k.CloseBrace))) cursor.old) result cursor.new }
{
    let open = cursor.take(Kind::OpenBrace)?;
    let first = target(alloc, cursor, depth)?;
    let all = with_targets(alloc, cursor, depth, Depth::none(open.place), first)?;
    cursor.take(Kind::CloseBrace)?;
    Ok(Measured::concat(alloc, open.place, all)?)
}

/// A left side with those that follow it after commas. It comes after what has the depth `start`.
#[cycle(left_side)]
fn with_targets(
    alloc: Global,
    cursor: &mut Cursor<'_, '_>,
    depth: u32,
    start: Depth,
    first: Measured,
) -> Result<MeasuredList, ReadFault>
    requires start { start.height < 2 ^ 32 }
    requires first { IsLow (measured_view first) }
    ensures others { Gives others_view (reads verilog grammar depth (many (after k.Comma (nest a_target))) cursor.old) result cursor.new }
    ensures exprs { IfOk result (λ l. exprs_view l.exprs.items ≡ measured_view first ∷ others_view l) }
    ensures start { IfOk result (λ l. l.start ≡ start) }
{
    let mut all = MeasuredList::one(alloc, start, first)?;
    'more: while cursor.sees(Kind::Comma) {
        cursor.take(Kind::Comma)?;
        let next = target(alloc, cursor, depth)?;
        all.push(next)?;
    }
    Ok(all)
}
