ghost use Rattle.std.specs.Prelude.{◌≡◌, All, IfOk, List};
ghost use Rattle.coverage_db.specs.Table.{AreWindows};
ghost use Rattle.cover_marks.specs.Marks.{AreMarksOf};
ghost use Rattle.design_model.specs.Lawful.{IsLawfulDesign};
ghost use Rattle.cover_points.specs.design_machines.state_machines.Machines.{StateMachines};
ghost use Rattle.design_model.specs.Shows.{BoundDump};
ghost use Rattle.design_model.specs.View.{design_view};
ghost use Rattle.design_points.specs.Counted.{AreAllPoints};
ghost use Rattle.event_machine.specs.Habit.{Habit};
ghost use Rattle.instance_paths.specs.Rooted.{IsRooted};
ghost use Rattle.verdict_laws.specs.table_laws.Written.{IsWritten, IsWrittenMachine};
ghost use Rattle.score_tables.specs.Scored.{AreScored, HasSmallTimes, IsScoreTable};
ghost use Rattle.score_tables.specs.Windows.{windows_of};

use cov_host::{Name, NoMemory, Sequence};
use cover_marks::Marks;
use cover_points::Points;
use coverage_db::{Db, Window};
use design_model::Design;
use std::alloc::Global;
use verdict_laws::collect;

/// The table of a design, which was read from these sources and has these points, with the verdicts of its marks and the windows
/// of its dump.
pub fn score_table(
    alloc: Global,
    design: &Design,
    points: &Points,
    marks: &Marks,
    windows: Sequence<Window>,
    sources: Sequence<Name>,
) -> Result<Db, NoMemory>
    requires lawful { IsLawfulDesign (design_view design.now) }
    requires written { IsWritten sources (design_view design.now) }
    requires rooted { IsRooted (design_view design.now) }
    requires points { (ms : StateMachines) × AreAllPoints (design_view design.now) ms points.now }
    requires named { All IsWrittenMachine points.now.machines.items }
    requires marks { AreMarksOf points.now marks.now }
    requires windows { AreWindows windows }
    requires scored { (h : Habit) × (dump : BoundDump) × HasSmallTimes dump × AreScored (design_view design.now) h dump points.now marks.now.verdicts }
    ensures { (h : Habit) (dump : BoundDump) (ms : StateMachines) → AreAllPoints (design_view design.now) ms points.now → HasSmallTimes dump → AreScored (design_view design.now) h dump points.now marks.now.verdicts
        → windows ≡ windows_of dump.stretches → IfOk result (IsScoreTable (design_view design.now) h dump ms sources) }
{
    collect(alloc, design, points, marks, windows, sources)
}
