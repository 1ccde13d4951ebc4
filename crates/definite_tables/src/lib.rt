//! Theorems of tables that are reasoned, as each table of a score is: which points they leave not undetermined, whatever the
//! design; there is no code.
//!
//! Where a dump has all that a clocked block mentions, and whenever the block can wake its trigger alone of that may have
//! changed before the block is evaluated, each line and each case of it is hit or missed; and so is each toggle, state and
//! arc of a signal that the dump has ([`definite_law`]). It follows from the definiteness law of `design_model`: nothing is in
//! doubt for such a point, and a reasoned table names a doubt for each undetermined one.
#![tactic(auto)]

ghost use Rattle.std.specs.Prelude.{ℕ, List};
ghost use Rattle.coverage_db.specs.declared.verdict.DbVerdict.TheVariants.{Undetermined};
ghost use Rattle.definite_tables.specs.Definite.{DefiniteBlocksLaw, DefiniteSignalsLaw, IsDefiniteVerdict};

/// What is hit or missed in a reasoned table: of a clocked block, and of a signal.
pub fn definite_law()
    ensures blocks { DefiniteBlocksLaw }
    ensures signals { DefiniteSignalsLaw }
{}

/// An undetermined point is neither hit nor missed.
pub fn undetermined_example()
    ensures { (time : ℕ) (path : List ℕ) → IsDefiniteVerdict (Undetermined time path) → ⊥ }
{}
