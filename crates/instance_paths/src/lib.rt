//! Theorems of the instances of a flat design; there is no code.
//!
//! The first instance is the top, and the path of each other one begins with that of the top and a dot ([`paths_law`]).
#![tactic(auto)]

ghost use Rattle.std.specs.Prelude.{◌≡◌, ℕ, List, Ok};
ghost use Rattle.design_model.specs.Design.{Design};
ghost use Rattle.verilog_tree.specs.Tree.{Module};
ghost use Rattle.flat_laws.specs.flat_design.Faults.{answer};
ghost use Rattle.instance_paths.specs.Rooted.{IsRooted};

/// The first instance of the flat design of modules is the top, and each is the top or below it.
pub fn paths_law()
    ensures { (ms : List Module) (top : List ℕ) (d : Design) → answer ms top ≡ Ok d → IsRooted d }
{}
