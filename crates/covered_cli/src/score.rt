ghost use Rattle.std.specs.Prelude.{◌≡◌, ◌<◌, All, IfErr, IfOk, List, OnErr, OnOk, Some, length};
ghost use Rattle.command_line.specs.CommandWords.{HaveForms, score_values};
ghost use Rattle.cov_host.specs.Outside.{HasFile, KeepsFiles, KeepsStreams, Outside, Told};
ghost use Rattle.coverage_db.specs.Table.{IsTable};
ghost use Rattle.coverage_db.specs.Text.{text_of};
ghost use Rattle.design_model.specs.Lawful.{IsLawfulDesign};
ghost use Rattle.design_model.specs.View.{design_view};
ghost use Rattle.design_points.specs.Counted.{AreAllPoints};
ghost use Rattle.dump_score.specs.Faults.{IsScoreFault};
ghost use Rattle.dump_score.specs.Scoring.{IsScoreOfFile};
ghost use Rattle.dump_score.specs.instance_paths.Rooted.{IsRooted};
ghost use Rattle.dump_score.specs.replay_core.Fits.{IsReplayable, signal_of};
ghost use Rattle.source_design.specs.Reading.{IsReadIn};
ghost use Rattle.written_designs.specs.table_laws.Written.{IsWritten, IsWrittenMachine};
ghost use Rattle.state_machines.specs.Drawn.{AreDrawable};
ghost use Rattle.state_machines.specs.Machines.{StateMachines};
ghost use Rattle.database_commands.specs.Reporting.{LeavesFront};
ghost use Rattle.whole_files.specs.Effects.{CountsUp, HoldsFront, OnlyReads};
ghost use Rattle.covered_cli.specs.Fault.{IsDesignFault, IsPointsFault, StandsIn, IsEarly, IsWritingFault, IsScoringFault};
ghost use Rattle.covered_cli.specs.Headline.{KeepsOthers};
ghost use Rattle.covered_cli.specs.Refusing.{IsBindRefusal, IsReplayRefusal};
ghost use Rattle.covered_cli.specs.ScoreMachines.{habit_when};
ghost use Rattle.covered_cli.specs.ScoreSources.{sources_in};
ghost use Rattle.covered_cli.specs.Scoring.{IsDoneIn, IsScoredText, IsTableIn};
ghost use Rattle.covered_cli.specs.declared.fault.Fault.TheVariants as fault_row;

use crate::contradiction::Contradiction;
use crate::drawings::draw_machines;
use crate::dump_refusal::DumpRefusal;
use crate::fault::Fault;
use crate::score_words::{defines_of, files_of, habit_when, states_of};
use crate::signal_path::SignalPath;
use command_line::ScoreWords;
use cov_host::{Host, Name, NoMemory, Sequence, Text};
use cover_points::Points;
use coverage_db::{Db, write_db};
use design_model::Design;
use design_points::{States, list_points};
use dump_score::{ReplayFault, ScoreFault, score_dump};
use signal_binding::BindFault;
use source_design::{ReadDesign, SourceWords, read_design};
use std::alloc::Global;
use vcd_reader::DumpFault;
use whole_files::{FileFault, write_file};

/// Scores a dump and writes the database. The first refusal ends it.
pub(crate) fn run_score<'a, H: Host>(
    alloc: Global,
    words: &ScoreWords<'a>,
    host: &mut H,
) -> Result<(), Fault<'a>>
    requires { HaveForms (score_values words.now) }
    ensures done { OnOk result (IsDoneIn (score_values words.now) (H.outside host.old) (H.outside host.new)) }
    ensures fault { IfErr result (StandsIn (score_values words.now) (H.outside host.old) (H.outside host.new)) }
    ensures early { IfErr result (λ fault. IsEarly fault → KeepsFiles (H.outside host.old) (H.outside host.new)) }
    ensures left { OnErr result (LeavesFront (IsScoredText (score_values words.now) (H.outside host.old)) (Some words.now.output.now) (H.outside host.old) (H.outside host.new)) }
    ensures others { Told (KeepsOthers words.now.output.now) (H.outside host.old).files (H.outside host.new).files }
    ensures streams { KeepsStreams (H.outside host.old) (H.outside host.new) }
    ensures counts { CountsUp (H.outside host.old) (H.outside host.new) }
{
    let table = table_of(alloc, words, host)?;
    let text = text_of(alloc, &table)?;
    write(host, words.output, &text)
}

/// The table of a score: sources, design, machines, points, dump, binding, verdicts, in this order. The first refusal ends it.
pub(crate) fn table_of<'a, H: Host>(
    alloc: Global,
    words: &ScoreWords<'a>,
    host: &mut H,
) -> Result<Db, Fault<'a>>
    requires { HaveForms (score_values words.now) }
    ensures table { IfOk result (IsTableIn (score_values words.now) (H.outside host.old)) }
    ensures fault { IfErr result (StandsIn (score_values words.now) (H.outside host.old) (H.outside host.new)) }
    ensures effects { OnlyReads (H.outside host.old) (H.outside host.new) }
{
    let ReadDesign {
        mut design,
        sources,
    } = design_of(alloc, host, words)?;
    let mut states = states_of(alloc, words.machines)?;
    draw_machines(alloc, &design, words.drawings, &mut states)?;
    let points = points_of(alloc, &design, &states)?;
    db_of(alloc, host, &mut design, &points, sources, words)
}

/// The design of the command's sources, and the names of the sources.
fn design_of<'a, H: Host>(
    alloc: Global,
    host: &mut H,
    words: &ScoreWords<'a>,
) -> Result<ReadDesign, Fault<'a>>
    ensures read { IfOk result (IsReadIn (sources_in (score_values words.now)) (H.outside host.old)) }
    ensures fault { IfErr result (IsDesignFault (score_values words.now) (H.outside host.old) (H.outside host.new)) }
    ensures effects { OnlyReads (H.outside host.old) (H.outside host.new) }
{
    let files = files_of(alloc, words.sources)?;
    let defines = defines_of(alloc, words.defines)?;
    let source_words = SourceWords {
        top: words.top,
        files: files.as_slice(),
        folder: words.folder,
        defines: &defines,
    };
    match read_design(alloc, host, &source_words) {
        Ok(read) => Ok(read),
        Err(fault) => Err(Fault::Source(fault)),
    }
}

/// The points of a design with these state machines.
fn points_of<'a>(alloc: Global, design: &Design, states: &States) -> Result<Box<Points>, Fault<'a>>
    requires lawful { IsLawfulDesign (design_view design.now) }
    requires drawable { AreDrawable (design_view design.now) states.now }
    ensures points { IfOk result (λ points. AreAllPoints (design_view design.now) states.now points.value) }
    ensures fault { IfErr result (IsPointsFault design.now states.now) }
{
    match list_points(alloc, design, states) {
        Ok(points) => Ok(points),
        Err(fault) => Err(Fault::Points(fault)),
    }
}

/// Writes a file whole. After a refusal the file is as before or holds a front of the text.
fn write<'a, H: Host>(host: &mut H, name: &'a str, text: &Text) -> Result<(), Fault<'a>>
    ensures written { OnOk result (Told (HasFile name.now text.now) (H.outside host.old).files (H.outside host.new).files) }
    ensures front { OnErr result (Told (HoldsFront name.now text.now) (H.outside host.old).files (H.outside host.new).files) }
    ensures fault { IfErr result (IsWritingFault name.now (H.outside host.old) (H.outside host.new)) }
    ensures others { Told (KeepsOthers name.now) (H.outside host.old).files (H.outside host.new).files }
    ensures streams { KeepsStreams (H.outside host.old) (H.outside host.new) }
    ensures counts { CountsUp (H.outside host.old) (H.outside host.new) }
{
    match write_file(host, name, text.as_slice()) {
        Ok(()) => Ok(()),
        Err(FileFault::Refused(call)) => Err(Fault::Files { call, file: name }),
        Err(FileFault::NoMemory) => Err(Fault::Memory),
    }
}

/// The database of a design with these points under the command's dump. After a refusal the design is of no use.
fn db_of<'a, H: Host>(
    alloc: Global,
    host: &mut H,
    design: &mut Design,
    points: &Points,
    sources: Sequence<Name>,
    words: &ScoreWords<'a>,
) -> Result<Db, Fault<'a>>
    requires replayable { IsReplayable (design_view design.old) points.now }
    requires points { (machines : StateMachines) × AreAllPoints (design_view design.old) machines points.now }
    requires named { All IsWrittenMachine points.now.machines.items }
    requires written { IsWritten sources (design_view design.old) }
    requires rooted { IsRooted (design_view design.old) }
    ensures scored { (machines : StateMachines) → AreAllPoints (design_view design.old) machines points.now
        → IfOk result (IsScoreOfFile words.now.dump.now (H.outside host.old) (habit_when words.now.late) design.old machines sources words.now.instance.now) }
    ensures fault { IfErr result (IsScoringFault (score_values words.now) design.old (H.outside host.old) (H.outside host.new)) }
    ensures effects { OnlyReads (H.outside host.old) (H.outside host.new) }
{
    match score_dump(
        alloc,
        host,
        words.dump,
        design,
        points,
        sources,
        words.instance,
        habit_when(words.late),
    ) {
        Ok(db) => Ok(db),
        Err(fault) => Err(fault_of(alloc, design, words, fault)),
    }
}

/// The fault of the program that a fault of the scoring is.
fn fault_of<'a>(
    alloc: Global,
    design: &mut Design,
    words: &ScoreWords<'a>,
    fault: ScoreFault,
) -> Fault<'a>
    requires lawful { IsLawfulDesign (design_view design.old) }
    requires fault { (before : Outside) × (after : Outside) × IsScoreFault words.now.dump.now before after (habit_when words.now.late) design.old words.now.instance.now fault }
    ensures { (before after : Outside) → IsScoreFault words.now.dump.now before after (habit_when words.now.late) design.old words.now.instance.now fault → IsScoringFault (score_values words.now) design.old before after result }
{
    match fault {
        ScoreFault::NoMemory => Fault::Memory,
        ScoreFault::Refused(call) => Fault::Files {
            call,
            file: words.dump,
        },
        ScoreFault::Dump(DumpFault::NoMemory) => Fault::Memory,
        ScoreFault::Dump(DumpFault::At { kind, byte }) => {
            Fault::Dump(DumpRefusal::At { kind, byte })
        }
        ScoreFault::Bind(fault) => bind_refusal(words.instance, fault),
        ScoreFault::Replay(fault) => replay_refusal(alloc, design, fault),
    }
}

/// The fault of the program that a fault of the binding is.
fn bind_refusal<'a>(instance: &'a str, fault: BindFault) -> Fault<'a>
    ensures { IsBindRefusal instance.now fault result }
{
    match fault {
        BindFault::NoMemory => Fault::Memory,
        BindFault::NoInstance => Fault::Dump(DumpRefusal::NoInstance { path: instance }),
    }
}

/// The fault of the program that a fault of the replay is. It takes no memory.
fn replay_refusal<'a>(alloc: Global, design: &mut Design, fault: ReplayFault) -> Fault<'a>
    requires lawful { IsLawfulDesign (design_view design.old) }
    requires signal { signal_of fault < length design.old.signals }
    ensures { IsReplayRefusal (design_view design.old) fault result }
{
    match fault {
        ReplayFault::NoBaseline { signal } => {
            let path = SignalPath::of(alloc, design, signal as usize);
            Fault::Dump(DumpRefusal::NoBaseline { path })
        }
        ReplayFault::Contradiction {
            signal,
            time,
            dumped,
            computed,
        } => {
            let path = SignalPath::of(alloc, design, signal as usize);
            Fault::Contradiction(Contradiction {
                path,
                time,
                dumped,
                computed,
            })
        }
    }
}

/// The text of a database.
fn text_of<'a>(alloc: Global, db: &Db) -> Result<Text, Fault<'a>>
    requires { IsTable db.now }
    ensures text { IfOk result (λ text. text ≡ text_of db.now) }
    ensures fault { IfErr result (λ fault. fault ≡ fault_row.Memory) }
{
    match write_db(alloc, db) {
        Ok(text) => Ok(text),
        Err(NoMemory) => Err(Fault::Memory),
    }
}
