ghost use Rattle.std.specs.Prelude.{◌<◌, All, IfErr, IfOk, List, length};
ghost use Rattle.cover_points.specs.design_machines.state_machines.Machines.{StateMachines};
ghost use Rattle.design_model.specs.View.{design_view};
ghost use Rattle.dump_replay.specs.design_points.Counted.{AreAllPoints};
ghost use Rattle.dump_replay.specs.instance_paths.Rooted.{IsRooted};
ghost use Rattle.dump_replay.specs.replay_core.Fits.{IsReplayable};
ghost use Rattle.dump_replay.specs.replay_core.wake_laws.Laws.{habit_of};
ghost use Rattle.dump_replay.specs.table_laws.Written.{IsWritten, IsWrittenMachine};
ghost use Rattle.whole_files.specs.Effects.{OnlyReads};
ghost use Rattle.dump_score.specs.Faults.{IsScoreFault};
ghost use Rattle.dump_score.specs.Scoring.{IsScoreOfFile};

use crate::ScoreFault;
use crate::header::read_header;
use crate::items::{score_body, score_end};
use crate::pieces::{open, room};
use cov_host::{Host, Name, Sequence};
use cover_points::Points;
use coverage_db::Db;
use design_model::Design;
use dump_replay::{DumpReplay, Habit, score_table};
use std::alloc::Global;

/// The database of a design, which has these points and was read from these sources, under the dump in a file, in which the
/// design is the instance and its inputs move by this habit.
///
/// The file is opened once and read in pieces of 65,536 bytes. All room is made before the body is read, apart from
/// the database's own. A fault of the text is reported as soon as it is read: one of the dump at its byte, and one of the
/// replay at the time after the step that it is about.
pub fn score_dump<H: Host>(
    alloc: Global,
    host: &mut H,
    name: &str,
    design: &Design,
    points: &Points,
    sources: Sequence<Name>,
    instance: &str,
    habit: Habit,
) -> Result<Db, ScoreFault>
    requires replayable { IsReplayable (design_view design.now) points.now }
    requires points { (machines : StateMachines) × AreAllPoints (design_view design.now) machines points.now }
    requires named { All IsWrittenMachine points.now.machines.items }
    requires written { IsWritten sources (design_view design.now) }
    requires rooted { IsRooted (design_view design.now) }
    ensures scored { (machines : StateMachines) → AreAllPoints (design_view design.now) machines points.now → IfOk result (IsScoreOfFile name.now (H.outside host.old) (habit_of habit) design.now machines sources instance.now) }
    ensures fault { IfErr result (IsScoreFault name.now (H.outside host.old) (H.outside host.new) (habit_of habit) design.now instance.now) }
    ensures effects { OnlyReads (H.outside host.old) (H.outside host.new) }
{
    let mut piece = room(alloc)?;
    score_file(
        alloc,
        host,
        piece.as_mut_slice(),
        name,
        design,
        points,
        sources,
        instance,
        habit,
    )
}

/// The database of a design under the dump in a file, which is read into the piece.
fn score_file<H: Host>(
    alloc: Global,
    host: &mut H,
    piece: &mut [u8],
    name: &str,
    design: &Design,
    points: &Points,
    sources: Sequence<Name>,
    instance: &str,
    habit: Habit,
) -> Result<Db, ScoreFault>
    requires replayable { IsReplayable (design_view design.now) points.now }
    requires points { (machines : StateMachines) × AreAllPoints (design_view design.now) machines points.now }
    requires named { All IsWrittenMachine points.now.machines.items }
    requires written { IsWritten sources (design_view design.now) }
    requires rooted { IsRooted (design_view design.now) }
    requires piece { 0 < length piece.old }
    ensures scored { (machines : StateMachines) → AreAllPoints (design_view design.now) machines points.now → IfOk result (IsScoreOfFile name.now (H.outside host.old) (habit_of habit) design.now machines sources instance.now) }
    ensures fault { IfErr result (IsScoreFault name.now (H.outside host.old) (H.outside host.new) (habit_of habit) design.now instance.now) }
    ensures effects { OnlyReads (H.outside host.old) (H.outside host.new) }
{
    open(host, name)?;
    let mut opened = read_header(alloc, host, piece)?;
    let mut replay = DumpReplay::new(alloc, habit, design, points, &opened.vars, instance)?;
    let span = opened.span;
    score_body(host, piece, &span, &mut opened.body, &mut replay)?;
    score_end(&mut opened.body, &mut replay)?;
    let windows = replay.windows(alloc)?;
    let marks = replay.finish();
    Ok(score_table(alloc, design, points, &marks, windows, sources)?)
}
