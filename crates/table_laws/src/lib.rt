//! Theorems of the table of a design that is collected from its points; there is no code.
//!
//! What `point_table::collect` gives of a lawful design is a table that has a text ([`table_law`]), where the names of
//! the design are identifiers, its numbers are from 1 and its places are lines of the sources: each row is a point
//! that the text can write, and comes before the next one. The row with a number names the point of the list with this
//! number, by the path of its instance ([`rows_law`]), so the table lists each point of the design once ([`listed_law`]).
#![tactic(auto)]

ghost use Rattle.std.specs.Prelude.{◌≤◌, ◌∷◌, [], ℕ, List, All, codes, length};
ghost use Rattle.coverage_db.specs.Table.{AreWindows, IsTable};
ghost use Rattle.coverage_db.specs.declared.db.Db.{Db};
ghost use Rattle.point_table.specs.cover_points.Listed.{IsPointList, points_of};
ghost use Rattle.point_table.specs.cover_points.declared.listing.Points.{Points};
ghost use Rattle.point_table.specs.cover_points.declared.listing.TheConstants.{MOST_POINTS};
ghost use Rattle.design_model.specs.Design.{Design};
ghost use Rattle.design_model.specs.FlipFlop.{flip_flop};
ghost use Rattle.design_model.specs.Lawful.{IsLawfulDesign};
ghost use Rattle.point_table.specs.cover_points.design_machines.state_machines.Machines.{StateMachines};
ghost use Rattle.point_marks.specs.declared.verdict.Verdict.{Verdict};
ghost use Rattle.point_table.specs.Collected.{AreListed, IsCollected};
ghost use Rattle.point_table.specs.Verdicts.{AreShown};
ghost use Rattle.table_laws.specs.Rows.{ListsEach, ListsPoints};
ghost use Rattle.table_laws.specs.Written.{IsWritten, IsWrittenMachine, IsWrittenVerdict};

pub use point_table::collect;

/// The points of a lawful design that are collected with these verdicts, and windows that rise, are a table that has a text. Each state machine has
/// names that a text can have, as those that are named by words.
pub fn table_law()
    ensures { (d : Design) (sources : List (List ℕ)) (ps : Points) (verdicts : List Verdict) (db : Db) → IsLawfulDesign d → IsWritten sources d → AreListed d ps
        → length (points_of ps) ≤ MOST_POINTS → All IsWrittenMachine ps.machines.items → All (IsWrittenVerdict d) verdicts → IsCollected d sources ps db → AreWindows db.windows → AreShown d verdicts db.points → IsTable db }
{}

/// The table has a row for each point of the list, which names it.
pub fn rows_law()
    ensures { (d : Design) (sources : List (List ℕ)) (ps : Points) (db : Db) → IsLawfulDesign d → IsWritten sources d → AreListed d ps
        → All IsWrittenMachine ps.machines.items → IsCollected d sources ps db → ListsEach d ps db }
{}

/// The table lists each point of the design with these machines, and nothing else.
pub fn listed_law()
    ensures { (d : Design) (sources : List (List ℕ)) (ms : StateMachines) (ps : Points) (db : Db) → IsLawfulDesign d → IsWritten sources d → IsPointList d ms ps
        → All IsWrittenMachine ps.machines.items → IsCollected d sources ps db → ListsPoints d ms db }
{}

/// A design that is written: a register with a test, from one source.
pub fn written_example()
    ensures { IsWritten (codes "ff.v" ∷ []) flip_flop }
{}
