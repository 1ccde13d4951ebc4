//! Expressions.

ghost use Rattle.std.specs.Prelude.{◌≡◌, ◌<◌, ◌^◌, nat_le, true, false, [], ◌∷◌, length, IfOk, IfErr};
ghost use Rattle.grammar_rules.specs.Rule.{next, member, many, both, nest};
ghost use Rattle.grammar_rules.specs.Grammar.{reads, phrase};
ghost use Rattle.verilog_tree.specs.View.{exprs_view};
ghost use Rattle.verilog_tree.specs.Depth.{depth as depth_of};
ghost use Rattle.verilog_lexer.specs.TokenView.{lexeme};
ghost use Rattle.verilog_grammar.specs.declared.kind.Kind.TheVariants as k;
ghost use Rattle.verilog_grammar.specs.Language.{verilog, expression as an_expression, operand as an_operand};
ghost use Rattle.verilog_grammar.specs.Verilog.{grammar, begins};
ghost use Rattle.verilog_grammar.specs.Parts.{only, any_of, before, after};
ghost use Rattle.verilog_grammar.specs.Expressions.{exprs_rule, cast_rule, braced_rule, prim_rule, unary_rule, is_signed_cast as is_signed};
ghost use Rattle.verilog_expressions.specs.Gives.{Gives, Fails};
ghost use Rattle.verilog_expressions.specs.Grows.{by_operators, by_operator, by_branches};
ghost use Rattle.verilog_expressions.specs.Others.{others_view};
ghost use Rattle.verilog_expressions.specs.declared.fault.ReadFault.TheVariants as read_fault;
ghost use Rattle.verilog_expressions.specs.declared.fault.Wrong.TheVariants as wrong;
ghost use Rattle.verilog_expressions.specs.Measured.{IsLow, measured_view};
ghost use Rattle.verilog_expressions.specs.Views.{behind_token};

use crate::cursor::Cursor;
use crate::fault::ReadFault;
use crate::literal::number;
use crate::measured::{Measured, MeasuredList};
use crate::operator::{binary_of, rank, sees_operator, take_operator, unary_of};
use crate::select::selects;
use std::alloc::Global;
use verilog_grammar::{Kind, Level};
use verilog_lexer::Token;
use verilog_tree::{Depth, Expr};

/// Whether the next token begins an expression.
pub fn begins_expression(cursor: &Cursor<'_, '_>) -> bool
    ensures { result ≡ member (next verilog cursor.now) (begins an_expression) }
{
    sees_operator(cursor, Level::Unary)
        || cursor.sees(Kind::Decimal)
        || cursor.sees(Kind::Based)
        || cursor.sees(Kind::Identifier)
        || cursor.sees(Kind::OpenParen)
        || cursor.sees(Kind::OpenBrace)
        || cursor.sees(Kind::SignedCast)
        || cursor.sees(Kind::UnsignedCast)
}

/// The fault where an expression would be nested too deep.
#[tactic(auto, using(crate::proofs::Gives::refused_at))]
fn too_deep(cursor: &Cursor<'_, '_>) -> ReadFault
    ensures { Fails result (phrase verilog grammar 0 an_expression cursor.now) }
{
    if begins_expression(cursor) {
        cursor.deep()
    } else {
        cursor.refuse()
    }
}

/// An expression that is nested no deeper than `depth`: `test ? yes : no`, or what binds tighter.
#[cycle(expr)]
#[tactic(auto, using(grammar_rules::proofs::Language::phrase_down), unfolding(verilog_grammar::specs::Expressions::expr_rule))]
pub fn expression(
    alloc: Global,
    cursor: &mut Cursor<'_, '_>,
    depth: u32,
) -> Result<Measured, ReadFault>
    ensures { Gives measured_view (phrase verilog grammar depth an_expression cursor.old) result cursor.new }
{
    if depth == 0 {
        return Err(too_deep(cursor));
    }
    let test = operand(alloc, cursor, depth, Level::LogicalOr)?;
    if !cursor.sees(Kind::Question) {
        return Ok(test);
    }
    choice(alloc, cursor, depth - 1, test)
}

/// A test with its branches.
#[cycle(expr)]
#[tactic(auto, unfolding(verilog_grammar::specs::Expressions::branches_rule))]
fn choice(
    alloc: Global,
    cursor: &mut Cursor<'_, '_>,
    depth: u32,
    test: Measured,
) -> Result<Measured, ReadFault>
    ensures { Gives measured_view (by_branches depth (measured_view test) cursor.old) result cursor.new }
{
    may_grow(cursor, &test, depth)?;
    cursor.take(Kind::Question)?;
    let yes = expression(alloc, cursor, depth)?;
    cursor.take(Kind::Colon)?;
    let no = expression(alloc, cursor, depth)?;
    Ok(Measured::choice(alloc, test, yes, no)?)
}

/// A fault where the expression before the next token is too high to become a part of a greater expression.
pub(crate) fn may_grow(
    cursor: &Cursor<'_, '_>,
    before: &Measured,
    depth: u32,
) -> Result<(), ReadFault>
    ensures fits { IfOk result (λ _. nat_le (depth_of (measured_view before.now)).height depth ≡ true) }
    ensures high { IfErr result (λ _. nat_le (depth_of (measured_view before.now)).height depth ≡ false) }
    ensures deepest { IfErr result (λ e. e ≡ read_fault.At (record { wrong = wrong.TooDeep (depth_of (measured_view before.now)).place; left = length cursor.now })) }
{
    let deepest = before.depth();
    if deepest.height > depth as u64 {
        return Err(cursor.too_deep(deepest.place));
    }
    Ok(())
}

/// Operands and operators of a level and of all tighter ones, nested no deeper than `depth`.
#[cycle(expr)]
#[tactic(auto, using(crate::proofs::Levels::nearer))]
fn operand(
    alloc: Global,
    cursor: &mut Cursor<'_, '_>,
    depth: u32,
    level: Level,
) -> Result<Measured, ReadFault>
    ensures { Gives measured_view (phrase verilog grammar depth (an_operand level) cursor.old) result cursor.new }
{
    if depth == 0 {
        return Err(too_deep(cursor));
    }
    let mut left = unary(alloc, cursor, depth - 1)?;
    let mut at = Level::Unary;
    'levels: while rank(at) < rank(level) {
        at = at.looser();
        left = grown(alloc, cursor, depth - 1, at, left)?;
    }
    Ok(left)
}

/// The expression that operators of a level and their operands make with the one before them. They group to the left.
#[cycle(expr)]
fn grown(
    alloc: Global,
    cursor: &mut Cursor<'_, '_>,
    depth: u32,
    level: Level,
    left: Measured,
) -> Result<Measured, ReadFault>
    ensures { Gives measured_view (by_operators depth level (measured_view left) cursor.old) result cursor.new }
{
    let mut left = left;
    'more: while sees_operator(cursor, level) {
        left = operation(alloc, cursor, depth, level, left)?;
    }
    Ok(left)
}

/// The expression before an operator of a level, with the operand after it.
#[cycle(expr)]
#[tactic(auto, unfolding(verilog_grammar::specs::Expressions::operation_rule))]
fn operation(
    alloc: Global,
    cursor: &mut Cursor<'_, '_>,
    depth: u32,
    level: Level,
    left: Measured,
) -> Result<Measured, ReadFault>
    ensures { Gives measured_view (by_operator depth level (measured_view left) cursor.old) result cursor.new }
{
    may_grow(cursor, &left, depth)?;
    let op = binary_of(cursor.kind());
    take_operator(cursor, level)?;
    let right = operand(alloc, cursor, depth, level.tighter())?;
    Ok(Measured::binary(alloc, op, left, right)?)
}

/// An operand, with any number of operators before it.
#[cycle(expr)]
#[tactic(auto, unfolding(verilog_grammar::specs::Expressions::unary_rule))]
fn unary(alloc: Global, cursor: &mut Cursor<'_, '_>, depth: u32) -> Result<Measured, ReadFault>
    ensures { Gives measured_view (reads verilog grammar depth unary_rule cursor.old) result cursor.new }
{
    if !sees_operator(cursor, Level::Unary) {
        return prim(alloc, cursor, depth);
    }
    let op = unary_of(cursor.kind());
    let token = take_operator(cursor, Level::Unary)?;
    let inner = operand(alloc, cursor, depth, Level::Unary)?;
    Ok(Measured::unary(alloc, token.place, op, inner)?)
}

/// What binds tightest.
#[cycle(expr)]
#[tactic(auto, unfolding(verilog_grammar::specs::Expressions::prim_rule, verilog_grammar::specs::Expressions::number_rule, verilog_grammar::specs::Expressions::selects_rule, verilog_grammar::specs::Expressions::paren_rule, verilog_grammar::specs::Expressions::braced_rule))]
fn prim(alloc: Global, cursor: &mut Cursor<'_, '_>, depth: u32) -> Result<Measured, ReadFault>
    ensures { Gives measured_view (reads verilog grammar depth prim_rule cursor.old) result cursor.new }
{
    if cursor.sees(Kind::Decimal) || cursor.sees(Kind::Based) {
        number(alloc, cursor)
    } else if cursor.sees(Kind::Identifier) {
        selects(alloc, cursor, depth)
    } else if cursor.sees(Kind::OpenParen) {
        let (open, inner) = in_parentheses(alloc, cursor, depth)?;
        Ok(Measured::paren(alloc, open.place, inner)?)
    } else if cursor.sees(Kind::OpenBrace) {
        braced(alloc, cursor, depth)
    } else {
        cast(alloc, cursor, depth)
    }
}

/// A `(`, and the expression up to its `)`.
#[cycle(expr)]
pub fn in_parentheses<'a>(
    alloc: Global,
    cursor: &mut Cursor<'_, 'a>,
    depth: u32,
) -> Result<(Token<'a>, Measured), ReadFault>
    ensures read { Gives behind_token (reads verilog grammar depth (both (only k.OpenParen) (before (nest an_expression) k.CloseParen)) cursor.old) result cursor.new }
    ensures low { IfOk result (λ found. IsLow (measured_view found.1)) }
{
    let open = cursor.take(Kind::OpenParen)?;
    let inner = expression(alloc, cursor, depth)?;
    cursor.take(Kind::CloseParen)?;
    Ok((open, inner))
}

/// `$signed` or `$unsigned` of an expression.
#[cycle(expr)]
#[tactic(auto, unfolding(verilog_grammar::specs::Expressions::cast_rule))]
fn cast(alloc: Global, cursor: &mut Cursor<'_, '_>, depth: u32) -> Result<Measured, ReadFault>
    ensures { Gives measured_view (reads verilog grammar depth cast_rule cursor.old) result cursor.new }
{
    let signed = is_signed_cast(cursor.kind());
    let word = take_cast(cursor)?;
    let (_, inner) = in_parentheses(alloc, cursor, depth)?;
    Ok(Measured::sign(alloc, word.place, signed, inner)?)
}

fn is_signed_cast(kind: Kind) -> bool
    ensures { result ≡ is_signed kind }
{
    matches!(kind, Kind::SignedCast)
}

/// Takes a `$signed` or `$unsigned`.
#[tactic(auto, unfolding(grammar_rules::specs::Rule::take_one))]
fn take_cast<'a>(cursor: &mut Cursor<'_, 'a>) -> Result<Token<'a>, ReadFault>
    ensures { Gives lexeme (reads verilog grammar 0 (any_of k.SignedCast (k.UnsignedCast ∷ [])) cursor.old) result cursor.new }
{
    if !cursor.sees(Kind::SignedCast) && !cursor.sees(Kind::UnsignedCast) {
        return Err(cursor.refuse());
    }
    cursor.take_next()
}

/// A concatenation, or one that is repeated.
#[cycle(expr)]
#[tactic(auto, unfolding(verilog_grammar::specs::Expressions::braced_rule, verilog_grammar::specs::Expressions::brace_end_rule, verilog_grammar::specs::Expressions::exprs_rule))]
fn braced(alloc: Global, cursor: &mut Cursor<'_, '_>, depth: u32) -> Result<Measured, ReadFault>
    ensures { Gives measured_view (reads verilog grammar depth braced_rule cursor.old) result cursor.new }
{
    let open = cursor.take(Kind::OpenBrace)?;
    let head = expression(alloc, cursor, depth)?;
    if !cursor.sees(Kind::OpenBrace) {
        let parts = with_others(alloc, cursor, depth, Depth::none(open.place), head)?;
        cursor.take(Kind::CloseBrace)?;
        return Ok(Measured::concat(alloc, open.place, parts)?);
    }
    cursor.take(Kind::OpenBrace)?;
    let first = expression(alloc, cursor, depth)?;
    let parts = with_others(alloc, cursor, depth, head.part_depth(), first)?;
    cursor.take(Kind::CloseBrace)?;
    cursor.take(Kind::CloseBrace)?;
    Ok(Measured::repeat(alloc, open.place, head, parts)?)
}

/// An expression with those that follow it after commas. It comes after what has the depth `start`.
#[cycle(expr)]
fn with_others(
    alloc: Global,
    cursor: &mut Cursor<'_, '_>,
    depth: u32,
    start: Depth,
    first: Measured,
) -> Result<MeasuredList, ReadFault>
    requires start { start.height < 2 ^ 32 }
    requires first { IsLow (measured_view first) }
    ensures others { Gives others_view (reads verilog grammar depth (many (after k.Comma (nest an_expression))) cursor.old) result cursor.new }
    ensures exprs { IfOk result (λ l. exprs_view l.exprs.items ≡ measured_view first ∷ others_view l) }
    ensures start { IfOk result (λ l. l.start ≡ start) }
{
    let mut all = MeasuredList::one(alloc, start, first)?;
    'more: while cursor.sees(Kind::Comma) {
        cursor.take(Kind::Comma)?;
        let next = expression(alloc, cursor, depth)?;
        all.push(next)?;
    }
    Ok(all)
}

/// One expression or more, with commas between.
#[tactic(auto, unfolding(verilog_grammar::specs::Expressions::exprs_rule))]
pub fn expressions(
    alloc: Global,
    cursor: &mut Cursor<'_, '_>,
    depth: u32,
) -> Result<Vec<Expr>, ReadFault>
    ensures { Gives (λ v. exprs_view v.items) (reads verilog grammar depth exprs_rule cursor.old) result cursor.new }
{
    let first = expression(alloc, cursor, depth)?;
    let start = Depth::none(first.depth().place);
    Ok(with_others(alloc, cursor, depth, start, first)?.into_exprs())
}
