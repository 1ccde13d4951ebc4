//! Theorems of the places of tokens; there is no code.
//!
//! Each token of sources is on a line of one of them, counted from 1 ([`token_places_law`]).
#![tactic(auto)]

ghost use Rattle.std.specs.Prelude.{◌≡◌, List, Ok, length};
ghost use Rattle.source_places.specs.Lines.{AreCounted, AreOnLines};
ghost use Rattle.verilog_lexer.specs.Defines.{DefineText};
ghost use Rattle.verilog_lexer.specs.Reading.{tokens_of};
ghost use Rattle.verilog_lexer.specs.Sources.{SourceText};
ghost use Rattle.verilog_lexer.specs.Tokens.{Lexeme};

/// Each token of sources is on a line of one of them.
pub fn token_places_law()
    ensures { (sources : List SourceText) (defines : List DefineText) (tokens : List Lexeme) → AreCounted sources → tokens_of sources defines ≡ Ok tokens → AreOnLines (length sources) tokens }
{}
