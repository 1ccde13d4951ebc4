//! The grammar of the language as a value of rules (IEEE 1364-2001 annex A, as far as the language has it).
//!
//! `specs/Verilog.antt` is the grammar. [`grammar_is_exact`] says that it has the theorems of `grammar_rules`: tokens
//! spell at most one list of modules, reading from left to right finds it, and each fault is at the first token with
//! which nothing goes on, or at the end of the tokens. [`Kind::of`] is the kind of a token by its text, [`Level`] the
//! precedence of operators, and [`Body`] says which statements a process allows.
#![tactic(auto)]

ghost use Rattle.std.specs.Prelude.{ℕ, ◌≤◌, List};
ghost use Rattle.verilog_lexer.specs.Tokens.{Lexeme};
ghost use Rattle.grammar_rules.specs.Laws.{IsExact};
ghost use Rattle.grammar_rules.specs.Grammar.{Nests};
ghost use Rattle.verilog_grammar.specs.Language.{verilog, Phrase, Value};
ghost use Rattle.verilog_grammar.specs.Height.{height};
ghost use Rattle.verilog_grammar.specs.Verilog.{grammar};
ghost use Rattle.verilog_grammar.specs.Examples.{ReadsTexts};

mod body;
mod kind;
mod level;

pub use body::Body;
pub use kind::{KEYWORDS, Kind, OPERATORS, SYSTEM_NAMES};
pub use level::Level;

/// Tokens spell at most one list of modules, reading from left to right finds it, and each fault is at the first
/// token with which nothing goes on, or where the tokens end. What is spelled within a depth is no higher.
#[tactic(auto, using(crate::proofs::Verilog::verilog_exact, crate::proofs::Verilog::reads_texts, crate::proofs::Low::phrase_low))]
pub fn grammar_is_exact()
    ensures laws { IsExact verilog grammar }
    ensures texts { ReadsTexts }
    ensures low { (d : ℕ) (p : Phrase) (v : Value p) (i o : List Lexeme) → Nests verilog grammar d p v i o → height p v ≤ d }
{}
