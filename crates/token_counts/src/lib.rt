//! A theorem of the number of tokens; there is no code.
//!
//! Sources have at most 4,194,304 tokens ([`token_count_law`]), so that what is counted in their text fits into 32 bits.
#![tactic(auto)]

ghost use Rattle.std.specs.Prelude.{◌≡◌, ◌≤◌, List, Ok, length};
ghost use Rattle.verilog_lexer.specs.Defines.{DefineText};
ghost use Rattle.verilog_lexer.specs.Reading.{tokens_of};
ghost use Rattle.verilog_lexer.specs.Sources.{SourceText};
ghost use Rattle.verilog_lexer.specs.Tokens.{Lexeme};

/// Sources that have no fault have at most 4,194,304 tokens.
pub fn token_count_law()
    ensures { (sources : List SourceText) (defines : List DefineText) (tokens : List Lexeme) → tokens_of sources defines ≡ Ok tokens → length tokens ≤ 4194304 }
{}
