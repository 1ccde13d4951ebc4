//! A theorem of the designs of sources; there is no code.
//!
//! The flat design of sources that are accepted is written ([`written_law`]): its names are identifiers, its numbers and
//! its bounds fit into 32 bits, and its statements and nodes begin on lines of the sources. So what is collected of it is a
//! table by the laws of `table_laws`.
#![tactic(auto)]

ghost use Rattle.std.specs.Prelude.{◌≡◌, ◌≤◌, ℕ, List, Ok, All, IsTrue, length, map};
ghost use Rattle.coverage_db.specs.Table.{is_file_name};
ghost use Rattle.design_model.specs.Design.{Design};
ghost use Rattle.flat_design.specs.Faults.{answer};
ghost use Rattle.design_names.specs.parsed_modules.Spelled.{AreModules};
ghost use Rattle.table_laws.specs.Written.{IsWritten};
ghost use Rattle.verilog_lexer.specs.Defines.{DefineText};
ghost use Rattle.verilog_lexer.specs.Reading.{tokens_of};
ghost use Rattle.verilog_lexer.specs.Sources.{AreWithinLimits, SourceText};
ghost use Rattle.verilog_lexer.specs.Tokens.{Lexeme};
ghost use Rattle.verilog_tree.specs.Tree.{Module};

/// The flat design of sources is written, with the names of the sources, where there is one at least and a table can have
/// these names.
pub fn written_law()
    ensures { (sources : List SourceText) (defines : List DefineText) (tokens : List Lexeme) (ms : List Module) (top : List ℕ) (d : Design)
        → AreWithinLimits sources → All (λ name. IsTrue (is_file_name name)) (map (λ source. source.name) sources) → 1 ≤ length sources
        → tokens_of sources defines ≡ Ok tokens → AreModules tokens ms → answer ms top ≡ Ok d → IsWritten (map (λ source. source.name) sources) d }
{}
