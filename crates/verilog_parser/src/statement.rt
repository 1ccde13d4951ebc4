//! Statements.

ghost use Rattle.std.specs.Prelude.{◌≡◌, ◌∷◌, IfOk};
ghost use Rattle.grammar_rules.specs.Rule.{next, member, take_one};
ghost use Rattle.grammar_rules.specs.Grammar.{reads, phrase};
ghost use Rattle.verilog_lexer.specs.TokenView.{lexeme};
ghost use Rattle.verilog_tree.specs.View.{expr_view, statement_view, statements_view, arm_view, arms_view};
ghost use Rattle.verilog_grammar.specs.Kind.{kind_of};
ghost use Rattle.verilog_grammar.specs.declared.kind.Kind.TheVariants as k;
ghost use Rattle.verilog_grammar.specs.Language.{verilog, statement as a_statement};
ghost use Rattle.verilog_grammar.specs.Verilog.{grammar, begins};
ghost use Rattle.verilog_grammar.specs.Parts.{after, in_parentheses as in_parentheses_rule, an_expression};
ghost use Rattle.verilog_grammar.specs.Statements.{case_kind as kind_of_case, statement_rule, statements_rule, block_rule, if_rule, case_rule, arms_rule};
ghost use Rattle.verilog_grammar.specs.Statements.{label_arm_rule, label_arms_rule, default_arm_rule, default_arms_rule, set_rule, header_rule, for_rule};
ghost use Rattle.verilog_grammar.specs.Statements.{sign_rule, assignment_rule, argument_rule, arguments_rule, task_or_null_rule, null_rule};
ghost use Rattle.verilog_expressions.specs.Gives.{Gives, Fails, same};
ghost use Rattle.verilog_parser.specs.Statements.{case_words, task_words, argument_words, default_arms_view, header_view, no_value, task_end_rule};
ghost use Rattle.verilog_expressions.specs.Views.{set_view};

use cov_host::{NoMemory, Place};
use four_state::CaseKind;
use std::alloc::Global;
use verilog_expressions::{
    Cursor, ReadFault, begins_expression, begins_target, expression, expressions, in_parentheses,
    target,
};
use verilog_grammar::{Body, Kind};
use verilog_lexer::Token;
use verilog_tree::{Arm, Expr, Statement};

/// Whether the next token is a system task that a body may have.
fn sees_task(cursor: &Cursor<'_, '_>, body: Body) -> bool
    ensures { result ≡ member (next verilog cursor.now) (task_words body) }
{
    match body {
        Body::Combinational => false,
        Body::Clocked => cursor.sees(Kind::Task),
        Body::Initial => cursor.sees(Kind::Task) || cursor.sees(Kind::InitialTask),
    }
}

/// Whether the next token is one of the words of a case.
fn sees_case(cursor: &Cursor<'_, '_>) -> bool
    ensures { result ≡ member (next verilog cursor.now) case_words }
{
    cursor.sees(Kind::Case) || cursor.sees(Kind::Casez) || cursor.sees(Kind::Casex)
}

/// Whether the next token begins a statement.
pub(crate) fn begins_statement(cursor: &Cursor<'_, '_>, body: Body) -> bool
    ensures { result ≡ member (next verilog cursor.now) (begins (a_statement body)) }
{
    cursor.sees(Kind::Begin)
        || cursor.sees(Kind::If)
        || sees_case(cursor)
        || cursor.sees(Kind::For)
        || begins_target(cursor)
        || sees_task(cursor, body)
        || cursor.sees(Kind::Semicolon)
}

/// A statement that is nested no deeper than `depth`.
#[cycle(statement)]
#[tactic(auto, using(grammar_rules::proofs::Language::phrase_down), unfolding(grammar_rules::specs::Grammar::phrase))]
pub(crate) fn statement(
    alloc: Global,
    cursor: &mut Cursor<'_, '_>,
    depth: u32,
    body: Body,
) -> Result<Statement, ReadFault>
    ensures { Gives statement_view (phrase verilog grammar depth (a_statement body) cursor.old) result cursor.new }
{
    if depth == 0 {
        return Err(too_deep(cursor, body));
    }
    form(alloc, cursor, depth - 1, body)
}

/// The fault where a statement would be nested too deep.
#[tactic(auto, unfolding(grammar_rules::specs::Grammar::phrase))]
fn too_deep(cursor: &Cursor<'_, '_>, body: Body) -> ReadFault
    ensures { Fails result (phrase verilog grammar 0 (a_statement body) cursor.now) }
{
    if begins_statement(cursor, body) {
        cursor.deep()
    } else {
        cursor.refuse()
    }
}

/// A statement whose parts are nested no deeper than `depth`.
#[cycle(statement)]
#[tactic(auto, unfolding(verilog_grammar::specs::Statements::statement_rule, verilog_grammar::specs::Statements::block_rule, verilog_grammar::specs::Statements::if_rule, verilog_grammar::specs::Statements::case_rule, verilog_grammar::specs::Statements::for_rule, verilog_grammar::specs::Statements::assignment_rule))]
fn form(
    alloc: Global,
    cursor: &mut Cursor<'_, '_>,
    depth: u32,
    body: Body,
) -> Result<Statement, ReadFault>
    ensures { Gives statement_view (reads verilog grammar depth (statement_rule body) cursor.old) result cursor.new }
{
    if cursor.sees(Kind::Begin) {
        block(alloc, cursor, depth, body)
    } else if cursor.sees(Kind::If) {
        choice(alloc, cursor, depth, body)
    } else if sees_case(cursor) {
        case(alloc, cursor, depth, body)
    } else if cursor.sees(Kind::For) {
        for_loop(alloc, cursor, depth, body)
    } else if begins_target(cursor) {
        assignment(alloc, cursor, depth, body)
    } else {
        task_or_empty(alloc, cursor, depth, body)
    }
}

/// Statements between `begin` and `end`, with the name of the block or without.
#[cycle(statement)]
#[tactic(auto, unfolding(verilog_grammar::specs::Statements::block_rule))]
fn block(
    alloc: Global,
    cursor: &mut Cursor<'_, '_>,
    depth: u32,
    body: Body,
) -> Result<Statement, ReadFault>
    ensures { Gives statement_view (reads verilog grammar depth (block_rule body) cursor.old) result cursor.new }
{
    let begin = cursor.take(Kind::Begin)?;
    if cursor.sees(Kind::Colon) {
        cursor.take(Kind::Colon)?;
        cursor.take(Kind::Identifier)?;
    }
    let parts = statements(alloc, cursor, depth, body)?;
    cursor.take(Kind::End)?;
    Ok(Statement::block(alloc, begin.place, parts)?)
}

/// Any number of statements.
#[cycle(statement)]
#[tactic(auto, unfolding(verilog_grammar::specs::Statements::statements_rule))]
fn statements(
    alloc: Global,
    cursor: &mut Cursor<'_, '_>,
    depth: u32,
    body: Body,
) -> Result<Vec<Statement>, ReadFault>
    ensures { Gives (λ v. statements_view v.items) (reads verilog grammar depth (statements_rule body) cursor.old) result cursor.new }
{
    let mut all = Vec::new(alloc);
    'more: while begins_statement(cursor, body) {
        let next = statement(alloc, cursor, depth, body)?;
        all.push(next)?;
    }
    Ok(all)
}

/// An expression in parentheses that are no part of it.
fn condition(alloc: Global, cursor: &mut Cursor<'_, '_>, depth: u32) -> Result<Expr, ReadFault>
    ensures { Gives expr_view (reads verilog grammar depth (in_parentheses_rule an_expression) cursor.old) result cursor.new }
{
    let (_, inner) = in_parentheses(alloc, cursor, depth)?;
    Ok(inner.into_expr())
}

#[cycle(statement)]
#[tactic(auto, unfolding(verilog_grammar::specs::Statements::if_rule))]
fn choice(
    alloc: Global,
    cursor: &mut Cursor<'_, '_>,
    depth: u32,
    body: Body,
) -> Result<Statement, ReadFault>
    ensures { Gives statement_view (reads verilog grammar depth (if_rule body) cursor.old) result cursor.new }
{
    let word = cursor.take(Kind::If)?;
    let test = condition(alloc, cursor, depth)?;
    let yes = statement(alloc, cursor, depth, body)?;
    if !cursor.sees(Kind::Else) {
        return Ok(Statement::when(alloc, word.place, test, yes)?);
    }
    cursor.take(Kind::Else)?;
    let no = statement(alloc, cursor, depth, body)?;
    Ok(Statement::when_else(alloc, word.place, test, yes, no)?)
}

/// How the labels match, by the word of a case.
fn case_kind(kind: Kind) -> CaseKind
    ensures { result ≡ kind_of_case kind }
{
    match kind {
        Kind::Casez => CaseKind::AnyZ,
        Kind::Casex => CaseKind::AnyXZ,
        _ => CaseKind::Exact,
    }
}

/// The word of a case, and how the labels match.
#[tactic(auto, using(verilog_expressions::proofs::Taken::any_taken, verilog_expressions::proofs::Taken::any_refused))]
fn case_word<'a>(cursor: &mut Cursor<'_, 'a>) -> Result<(Token<'a>, CaseKind), ReadFault>
    ensures reads { Gives (λ p. lexeme p.0) (take_one verilog case_words cursor.old) result cursor.new }
    ensures kind { IfOk result (λ p. p.1 ≡ kind_of_case (kind_of (lexeme p.0))) }
{
    if !sees_case(cursor) {
        return Err(cursor.refuse());
    }
    let kind = case_kind(cursor.kind());
    let word = cursor.take_next()?;
    Ok((word, kind))
}

#[cycle(statement)]
#[tactic(auto, unfolding(verilog_grammar::specs::Statements::case_rule))]
fn case(
    alloc: Global,
    cursor: &mut Cursor<'_, '_>,
    depth: u32,
    body: Body,
) -> Result<Statement, ReadFault>
    ensures { Gives statement_view (reads verilog grammar depth (case_rule body) cursor.old) result cursor.new }
{
    let (word, kind) = case_word(cursor)?;
    let on = condition(alloc, cursor, depth)?;
    let found = arms(alloc, cursor, depth, body)?;
    cursor.take(Kind::Endcase)?;
    Ok(Statement::case(alloc, word.place, kind, on, found)?)
}

/// An arm and the arms that follow it.
fn with_front(first: Arm, mut others: Vec<Arm>) -> Result<Vec<Arm>, NoMemory>
    ensures { IfOk result (λ v. arms_view v.items ≡ arm_view first ∷ arms_view others.items) }
{
    others.insert(0, first)?;
    Ok(others)
}

/// The arms of a case, of which at most one is the default.
#[cycle(statement)]
#[tactic(auto, unfolding(verilog_grammar::specs::Statements::arms_rule, verilog_grammar::specs::Statements::default_arms_rule, verilog_grammar::specs::Statements::default_arm_rule))]
fn arms(
    alloc: Global,
    cursor: &mut Cursor<'_, '_>,
    depth: u32,
    body: Body,
) -> Result<Vec<Arm>, ReadFault>
    ensures { Gives (λ v. arms_view v.items) (reads verilog grammar depth (arms_rule body) cursor.old) result cursor.new }
{
    if cursor.sees(Kind::Default) {
        let (default, others) = default_arms(alloc, cursor, depth, body)?;
        return Ok(with_front(default, others)?);
    }
    let first = label_arm(alloc, cursor, depth, body)?;
    let others = label_arms(alloc, cursor, depth, body)?;
    let mut all = with_front(first, others)?;
    if cursor.sees(Kind::Default) {
        let (default, others) = default_arms(alloc, cursor, depth, body)?;
        let mut last = with_front(default, others)?;
        all.append(&mut last)?;
    }
    Ok(all)
}

/// The default, and the arms with labels that follow it.
#[cycle(statement)]
#[tactic(auto, unfolding(verilog_grammar::specs::Statements::default_arms_rule))]
fn default_arms(
    alloc: Global,
    cursor: &mut Cursor<'_, '_>,
    depth: u32,
    body: Body,
) -> Result<(Arm, Vec<Arm>), ReadFault>
    ensures { Gives default_arms_view (reads verilog grammar depth (default_arms_rule body) cursor.old) result cursor.new }
{
    let default = default_arm(alloc, cursor, depth, body)?;
    let others = label_arms(alloc, cursor, depth, body)?;
    Ok((default, others))
}

/// Any number of arms with labels.
#[cycle(statement)]
#[tactic(auto, unfolding(verilog_grammar::specs::Statements::label_arms_rule))]
fn label_arms(
    alloc: Global,
    cursor: &mut Cursor<'_, '_>,
    depth: u32,
    body: Body,
) -> Result<Vec<Arm>, ReadFault>
    ensures { Gives (λ v. arms_view v.items) (reads verilog grammar depth (label_arms_rule body) cursor.old) result cursor.new }
{
    let mut all = Vec::new(alloc);
    'more: while begins_expression(cursor) {
        let next = label_arm(alloc, cursor, depth, body)?;
        all.push(next)?;
    }
    Ok(all)
}

#[cycle(statement)]
#[tactic(auto, unfolding(verilog_grammar::specs::Statements::label_arm_rule))]
fn label_arm(
    alloc: Global,
    cursor: &mut Cursor<'_, '_>,
    depth: u32,
    body: Body,
) -> Result<Arm, ReadFault>
    ensures { Gives arm_view (reads verilog grammar depth (label_arm_rule body) cursor.old) result cursor.new }
{
    let labels = expressions(alloc, cursor, depth)?;
    cursor.take(Kind::Colon)?;
    let body = statement(alloc, cursor, depth, body)?;
    Ok(Arm::new(labels, body))
}

#[cycle(statement)]
#[tactic(auto, unfolding(verilog_grammar::specs::Statements::default_arm_rule))]
fn default_arm(
    alloc: Global,
    cursor: &mut Cursor<'_, '_>,
    depth: u32,
    body: Body,
) -> Result<Arm, ReadFault>
    ensures { Gives arm_view (reads verilog grammar depth (default_arm_rule body) cursor.old) result cursor.new }
{
    cursor.take(Kind::Default)?;
    if cursor.sees(Kind::Colon) {
        cursor.take(Kind::Colon)?;
    }
    let body = statement(alloc, cursor, depth, body)?;
    Ok(Arm::new(Vec::new(alloc), body))
}

/// A left side, an equals sign and an expression.
#[tactic(auto, unfolding(verilog_grammar::specs::Statements::set_rule))]
pub(crate) fn set(
    alloc: Global,
    cursor: &mut Cursor<'_, '_>,
    depth: u32,
) -> Result<(Expr, Expr), ReadFault>
    ensures { Gives set_view (reads verilog grammar depth set_rule cursor.old) result cursor.new }
{
    let left = target(alloc, cursor, depth)?;
    cursor.take(Kind::Equals)?;
    let right = expression(alloc, cursor, depth)?;
    Ok((left.into_expr(), right.into_expr()))
}

/// What is in the parentheses of a `for`.
#[derive(Drop)]
struct LoopHeader {
    start: (Expr, Expr),
    test: Expr,
    turn: (Expr, Expr),
}

#[tactic(auto, unfolding(verilog_grammar::specs::Statements::header_rule))]
fn for_header(
    alloc: Global,
    cursor: &mut Cursor<'_, '_>,
    depth: u32,
) -> Result<LoopHeader, ReadFault>
    ensures { Gives header_view (reads verilog grammar depth header_rule cursor.old) result cursor.new }
{
    cursor.take(Kind::OpenParen)?;
    let start = set(alloc, cursor, depth)?;
    cursor.take(Kind::Semicolon)?;
    let test = expression(alloc, cursor, depth)?.into_expr();
    cursor.take(Kind::Semicolon)?;
    let turn = set(alloc, cursor, depth)?;
    cursor.take(Kind::CloseParen)?;
    Ok(LoopHeader { start, test, turn })
}

#[cycle(statement)]
#[tactic(auto, unfolding(verilog_grammar::specs::Statements::for_rule))]
fn for_loop(
    alloc: Global,
    cursor: &mut Cursor<'_, '_>,
    depth: u32,
    body: Body,
) -> Result<Statement, ReadFault>
    ensures { Gives statement_view (reads verilog grammar depth (for_rule body) cursor.old) result cursor.new }
{
    let word = cursor.take(Kind::For)?;
    let LoopHeader { start, test, turn } = for_header(alloc, cursor, depth)?;
    let body = statement(alloc, cursor, depth, body)?;
    Ok(Statement::for_loop(alloc, word.place, start, test, turn, body)?)
}

/// The sign of an assignment, and whether it is blocking. Under `*` or names it is.
fn sign(cursor: &mut Cursor<'_, '_>, body: Body) -> Result<bool, ReadFault>
    ensures { Gives same (reads verilog grammar 0 (sign_rule body) cursor.old) result cursor.new }
{
    match body {
        Body::Clocked | Body::Initial if !cursor.sees(Kind::Equals) => {
            cursor.take(Kind::LessOrEqual)?;
            Ok(false)
        }
        _ => {
            cursor.take(Kind::Equals)?;
            Ok(true)
        }
    }
}

#[tactic(auto, using(crate::proofs::Statements::place_is), unfolding(verilog_grammar::specs::Statements::assignment_rule))]
fn assignment(
    alloc: Global,
    cursor: &mut Cursor<'_, '_>,
    depth: u32,
    body: Body,
) -> Result<Statement, ReadFault>
    ensures { Gives statement_view (reads verilog grammar depth (assignment_rule body) cursor.old) result cursor.new }
{
    let left = target(alloc, cursor, depth)?.into_expr();
    let blocking = sign(cursor, body)?;
    let right = expression(alloc, cursor, depth)?.into_expr();
    cursor.take(Kind::Semicolon)?;
    Ok(Statement::set(alloc, left.place, left, blocking, right)?)
}

/// A system task that a body may have, or a semicolon alone.
fn task_or_empty(
    alloc: Global,
    cursor: &mut Cursor<'_, '_>,
    depth: u32,
    body: Body,
) -> Result<Statement, ReadFault>
    ensures { Gives statement_view (reads verilog grammar depth (task_or_null_rule body) cursor.old) result cursor.new }
{
    if !sees_task(cursor, body) {
        return empty(alloc, cursor);
    }
    let word = cursor.take_next()?;
    task(alloc, cursor, depth, word.place)
}

/// A semicolon alone.
fn empty(alloc: Global, cursor: &mut Cursor<'_, '_>) -> Result<Statement, ReadFault>
    ensures { Gives statement_view (reads verilog grammar 0 null_rule cursor.old) result cursor.new }
{
    let semicolon = cursor.take(Kind::Semicolon)?;
    Ok(Statement::empty(alloc, semicolon.place)?)
}

/// What follows the word of a system task, which has this place. Its arguments are read and dropped.
#[tactic(auto, unfolding(verilog_grammar::specs::Statements::arguments_rule, verilog_grammar::specs::Statements::argument_rule))]
fn task(
    alloc: Global,
    cursor: &mut Cursor<'_, '_>,
    depth: u32,
    place: Place,
) -> Result<Statement, ReadFault>
    ensures { Gives statement_view (reads verilog grammar depth (task_end_rule place) cursor.old) result cursor.new }
{
    if cursor.sees(Kind::OpenParen) {
        cursor.take(Kind::OpenParen)?;
        if begins_argument(cursor) {
            arguments(alloc, cursor, depth)?;
        }
        cursor.take(Kind::CloseParen)?;
    }
    cursor.take(Kind::Semicolon)?;
    Ok(Statement::task(alloc, place)?)
}

/// Whether the next token begins an expression or is a string.
fn begins_argument(cursor: &Cursor<'_, '_>) -> bool
    ensures { result ≡ member (next verilog cursor.now) argument_words }
{
    begins_expression(cursor) || cursor.sees(Kind::Quoted)
}

#[tactic(auto, unfolding(verilog_grammar::specs::Statements::arguments_rule))]
fn arguments(alloc: Global, cursor: &mut Cursor<'_, '_>, depth: u32) -> Result<(), ReadFault>
    ensures { Gives no_value (reads verilog grammar depth arguments_rule cursor.old) result cursor.new }
{
    argument(alloc, cursor, depth)?;
    'more: while cursor.sees(Kind::Comma) {
        next_argument(alloc, cursor, depth)?;
    }
    Ok(())
}

/// A comma and an argument.
fn next_argument(alloc: Global, cursor: &mut Cursor<'_, '_>, depth: u32) -> Result<(), ReadFault>
    ensures { Gives no_value (reads verilog grammar depth (after k.Comma argument_rule) cursor.old) result cursor.new }
{
    cursor.take(Kind::Comma)?;
    argument(alloc, cursor, depth)
}

/// An expression or a string.
#[tactic(auto, unfolding(verilog_grammar::specs::Statements::argument_rule))]
fn argument(alloc: Global, cursor: &mut Cursor<'_, '_>, depth: u32) -> Result<(), ReadFault>
    ensures { Gives no_value (reads verilog grammar depth argument_rule cursor.old) result cursor.new }
{
    if begins_expression(cursor) {
        expression(alloc, cursor, depth)?;
    } else {
        cursor.take(Kind::Quoted)?;
    }
    Ok(())
}
