//! A theorem of the names of a flat design; there is no code.
//!
//! Where the names of modules and all that they declare are identifiers, so are those of the flat design, its paths are
//! identifiers with dots between, and its bounds are at most 1,048,575 ([`names_law`]).
#![tactic(auto)]

ghost use Rattle.std.specs.Prelude.{◌≡◌, ℕ, List, Ok};
ghost use Rattle.design_model.specs.Design.{Design};
ghost use Rattle.design_names.specs.Names.{HasNames};
ghost use Rattle.flat_design.specs.Faults.{answer};
ghost use Rattle.parsed_modules.specs.Named.{AreNamed};
ghost use Rattle.verilog_tree.specs.Tree.{Module};

/// The flat design of modules with identifiers as names has such names and paths, and small bounds.
pub fn names_law()
    ensures { (ms : List Module) (top : List ℕ) (d : Design) → AreNamed ms → answer ms top ≡ Ok d → HasNames d }
{}
