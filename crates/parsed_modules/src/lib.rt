//! Theorems that join the front end and elaboration; there is no code.
//!
//! The modules that sound tokens spell are as the definitions of elaboration take them, and their names are
//! identifiers ([`parsed_law`]). So the flat design of sources that are accepted is lawful ([`lawful_sources_law`]).
#![tactic(auto)]

ghost use Rattle.std.specs.Prelude.{ℕ, ◌≡◌, List, [], Ok};
ghost use Rattle.design_model.specs.Design.{Design};
ghost use Rattle.design_model.specs.Lawful.{IsLawfulDesign};
ghost use Rattle.flat_design.specs.Faults.{answer};
ghost use Rattle.verilog_lexer.specs.TokenTexts.{AreSound};
ghost use Rattle.verilog_lexer.specs.Tokens.{Lexeme};
ghost use Rattle.verilog_tree.specs.Tree.{Module};
ghost use Rattle.flat_laws.specs.Tokens.{AreOfTokens};
ghost use Rattle.parsed_modules.specs.Named.{AreNamed};
ghost use Rattle.parsed_modules.specs.Spelled.{AreModules};

/// The modules that tokens of sources spell are as the definitions of elaboration take them, and their names are
/// identifiers.
pub fn parsed_law()
    ensures tokens { (tokens : List Lexeme) (ms : List Module) → AreSound [] tokens → AreModules tokens ms → AreOfTokens ms }
    ensures names { (tokens : List Lexeme) (ms : List Module) → AreSound [] tokens → AreModules tokens ms → AreNamed ms }
{}

/// The flat design of the modules of sources is lawful.
pub fn lawful_sources_law()
    ensures { (tokens : List Lexeme) (ms : List Module) (top : List ℕ) (d : Design) → AreSound [] tokens → AreModules tokens ms → answer ms top ≡ Ok d → IsLawfulDesign d }
{}
