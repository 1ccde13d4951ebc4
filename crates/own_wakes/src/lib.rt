//! A theorem of the signals that a continuous assignment both drives and reads; there is no code.
//!
//! In a design that elaboration answers, a continuous assignment that mentions a signal of which it drives some bit names a bit of
//! it that it does not drive ([`own_wakes_law`]). So a change of that bit makes it run, and a reason can be given by that signal.
#![tactic(auto)]

ghost use Rattle.std.specs.Prelude.{◌≡◌, ℕ, List, Ok};
ghost use Rattle.design_model.specs.Design.{Design};
ghost use Rattle.flat_design.specs.Faults.{answer};
ghost use Rattle.flat_laws.specs.Tokens.{AreOfTokens};
ghost use Rattle.model_laws.specs.Own.{HasOwnWakes};
ghost use Rattle.verilog_tree.specs.Tree.{Module};

/// Each continuous assignment of a design that elaboration answers has a wake bit of each signal that it drives and mentions.
pub fn own_wakes_law()
    ensures { (ms : List Module) (top : List ℕ) (d : Design) → AreOfTokens ms → answer ms top ≡ Ok d → HasOwnWakes d }
{}
