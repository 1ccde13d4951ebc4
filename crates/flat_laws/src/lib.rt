//! Theorems of the definitions of `flat_design`; there is no code (IEEE 1364-2001 clause 12).
//!
//! A design is answered only where there is no fault, and the fault that is answered is the first one
//! ([`first_fault_law`]). A design that is answered is lawful ([`lawful_law`]), which is what everything above
//! assumes of a design, and the text that elaboration goes through for it is within a limit ([`text_law`]). The other
//! functions state that line points are numbered one after the other, that turns of a loop count the same nodes, that
//! the term of a constant has its value, and that a turn changes the loop's variable alone. `proofs/` has worked texts,
//! whose designs and faults are computed from the definitions.
#![tactic(auto)]

ghost use Rattle.std.specs.Prelude.{ℕ, ◌≡◌, ◌≤◌, List, Ok, Err, sum_by};
ghost use Rattle.design_model.specs.Design.{Design};
ghost use Rattle.design_model.specs.Lawful.{IsLawfulDesign};
ghost use Rattle.verilog_tree.specs.Tree.{Expr, Module, Statement};
ghost use Rattle.flat_design.specs.Fault.{Fault, IsFirst};
ghost use Rattle.flat_design.specs.Faults.{Stands, answer, faults_of};
ghost use Rattle.flat_design.specs.Flat.{elaborated};
ghost use Rattle.flat_design.specs.Scope.{Scope};
ghost use Rattle.flat_laws.specs.Laws.{ConstantLaw, LineLaw, NodeLaw, TurnLaw, text_count};
ghost use Rattle.flat_laws.specs.Tokens.{AreOfTokens};

/// A design is answered only where there is no fault. A fault that is answered is there, and no other fault goes before
/// it in the text.
pub fn first_fault_law()
    ensures design { (ms : List Module) (top : List ℕ) (d : Design) → answer ms top ≡ Ok d → (f : Fault) → Stands ms top f → ⊥ }
    ensures fault { (ms : List Module) (top : List ℕ) (f : Fault) → answer ms top ≡ Err f → Stands ms top f }
    ensures first { (ms : List Module) (top : List ℕ) (f : Fault) → answer ms top ≡ Err f → IsFirst f (faults_of ms top) }
{}

/// Each design that is answered for the trees of tokens is lawful.
pub fn lawful_law()
    ensures { (ms : List Module) (top : List ℕ) (d : Design) → AreOfTokens ms → answer ms top ≡ Ok d → IsLawfulDesign d }
{}

/// The text that elaboration goes through for a design that is answered has at most 134,217,728 parts: of each module once
/// for each instance, and of each statement once for each turn of the loops around it.
pub fn text_law()
    ensures { (ms : List Module) (top : List ℕ) (d : Design) → answer ms top ≡ Ok d → sum_by text_count (elaborated ms top).met ≤ 134217728 }
{}

/// The line points of a flat statement have the numbers from the first on, as many as the statement has line points.
pub fn line_number_law()
    ensures { (g : Scope) (s : Statement) → LineLaw g s }
{}

/// How many counted nodes a statement has depends on its signals and memories alone, so it is the same in each turn of
/// a loop.
pub fn node_count_law()
    ensures { (g h : Scope) → NodeLaw g h }
{}

/// The term of a constant expression has the value that `elab_const` gives it, in each context, design and state.
pub fn constant_law()
    ensures { (g : Scope) (e : Expr) → ConstantLaw g e }
{}

/// In a turn of a loop the names that have a value are those of the scope, and the variable with the value of the turn.
pub fn turn_law()
    ensures { (g : Scope) → TurnLaw g }
{}
