ghost use Rattle.std.specs.Prelude.{◌≡◌, List, Err, IfOk, IfErr};
ghost use Rattle.verilog_lexer.specs.TokenView.{lexeme, lexemes};
ghost use Rattle.verilog_tree.specs.Tree as t;
ghost use Rattle.verilog_tree.specs.View.{modules_view};
ghost use Rattle.grammar_rules.specs.Grammar.{whole};
ghost use Rattle.verilog_grammar.specs.Language.{verilog};
ghost use Rattle.verilog_grammar.specs.Verilog.{grammar};
ghost use Rattle.verilog_expressions.specs.Gives.{fault_view};
ghost use Rattle.verilog_parser.specs.Parses.{AreModules, IsAnswer, IsRefusalOf, StandsIn};

use crate::fault::{ParseFault, ParseKind};
use crate::left_out::form_of;
use crate::module::modules;
use cov_host::Name;
use std::alloc::Global;
use verilog_expressions::{Cursor, Fault, ReadFault, Wrong};
use verilog_grammar::Kind;
use verilog_lexer::{Token, Tokens};
use verilog_tree::Modules;

/// How deep statements and expressions nest at most.
const MOST_DEPTH: u32 = 256;

/// The modules that the tokens spell (IEEE 1364-2001 annex A, as far as the language has it), or the first
/// fault in them.
#[tactic(auto, using(crate::proofs::Refusals::found, crate::proofs::Refusals::only, crate::proofs::Refusals::none))]
pub fn parse<'a>(alloc: Global, tokens: &Tokens<'a>) -> Result<Modules, ParseFault>
    ensures found { IfOk result (λ found. AreModules (lexemes tokens.now) (modules_view found)) }
    ensures only { (modules : List t.Module) → AreModules (lexemes tokens.now) modules → IsAnswer modules result }
    ensures fault { IfErr result (StandsIn (lexemes tokens.now)) }
{
    let tokens = tokens.as_slice();
    let mut cursor = Cursor::new(tokens);
    match modules(alloc, &mut cursor, MOST_DEPTH) {
        Ok(all) => Ok(Modules::from_vec(all)),
        Err(ReadFault::Memory) => Err(ParseFault::NoMemory),
        Err(ReadFault::At(fault)) => Err(answered(alloc, tokens, fault)),
    }
}

/// The fault with the place of its token, or the end.
#[tactic(auto, using(crate::proofs::Refusals::ends_early, crate::proofs::Refusals::refused, crate::proofs::Refusals::too_deep_at))]
fn answered(alloc: Global, tokens: &[Token<'_>], fault: Fault) -> ParseFault
    requires { whole verilog grammar 256 (lexemes tokens.now) ≡ Err (fault_view fault) }
    ensures { StandsIn (lexemes tokens.now) result }
{
    match fault.wrong {
        Wrong::TooDeep(place) => ParseFault::At {
            kind: ParseKind::TooDeep,
            place: Some(place),
            detail: None,
        },
        Wrong::Unexpected => match tokens.get(tokens.len().saturating_sub(fault.left)) {
            None => ParseFault::At {
                kind: ParseKind::EarlyEnd,
                place: None,
                detail: None,
            },
            Some(token) => refusal(alloc, token),
        },
    }
}

/// The fault of a token with which no rule goes on.
fn refusal(alloc: Global, token: &Token<'_>) -> ParseFault
    ensures { IsRefusalOf (lexeme token.now) result }
{
    let place = Some(token.place);
    match form_of(Kind::of(token)) {
        None => ParseFault::At {
            kind: ParseKind::Unexpected,
            place,
            detail: None,
        },
        Some(form) => match Vec::from_slice(alloc, form.as_bytes()) {
            Err(_) => ParseFault::NoMemory,
            Ok(bytes) => ParseFault::At {
                kind: ParseKind::LeftOut,
                place,
                detail: Some(Name::from_vec(bytes)),
            },
        },
    }
}
