ghost use Rattle.std.specs.Prelude.{◌≡◌, ◌<◌, ◌≤◌, ◌++◌, ℕ, true, List, length, OnOk, IfErr};
ghost use Rattle.cov_host.specs.Outside.{Outside};
ghost use Rattle.cover_points.specs.declared.listing.Points.{Points as SpecPoints};
ghost use Rattle.design_model.specs.declared.design.Design.{Design as SpecDesign};
ghost use Rattle.dump_replay.specs.Faults.{IsReplayFault};
ghost use Rattle.dump_replay.specs.Followed.{HasFollowed};
ghost use Rattle.entry_laws.specs.Entries.{AreEntries};
ghost use Rattle.event_machine.specs.Habit.{Habit as SpecHabit};
ghost use Rattle.vcd_reader.specs.Order.{AreOrdered};
ghost use Rattle.vcd_reader.specs.Wanted.{item_by};
ghost use Rattle.vcd_reader.specs.declared.entry.Entry.{Entry};
ghost use Rattle.vcd_reader.specs.declared.vars.Var.{Var as SpecVar};
ghost use Rattle.whole_files.specs.Effects.{OnlyReads};
ghost use Rattle.dump_score.specs.Reading.{HasReadFile};
ghost use Rattle.dump_score.specs.Faults.{IsEndFault, IsFoundFault, IsScoreFault};
ghost use Rattle.dump_score.specs.Scoring.{CanEnd, CanEndSome, CanSay, HasScored, IsOpen, IsScoring, IsScoringSome, ScoresOn, entries_of};

use crate::ScoreFault;
use crate::header::Span;
use crate::pieces::read;
use cov_host::Host;
use dump_replay::{DumpReplay, ReplayFault};
use four_state::Four;
use vcd_reader::{Body, DumpFault, DumpKind, Saying};

/// The longest dump, in bytes.
const LONGEST_DUMP: u64 = 1_099_511_627_776;

/// Gives the replay what the body says, where a change is one to this value.
pub(crate) fn say(replay: &mut DumpReplay, saying: Saying, value: &Four) -> Result<(), ReplayFault>
    requires { CanSay replay.old (item_by saying value.now) }
    ensures ok { OnOk result ((habit : SpecHabit) (design : SpecDesign) (points : SpecPoints) (vars : List SpecVar) (instance : List ℕ) (entries : List Entry)
        → AreEntries vars (entries ++ entries_of (item_by saying value.now)) → AreOrdered (entries ++ entries_of (item_by saying value.now))
        → HasFollowed replay.old habit design points vars instance entries → HasFollowed replay.new habit design points vars instance (entries ++ entries_of (item_by saying value.now))) }
    ensures fault { IfErr result (λ fault. (habit : SpecHabit) (design : SpecDesign) (points : SpecPoints) (vars : List SpecVar) (instance : List ℕ) (entries : List Entry)
        → AreEntries vars (entries ++ entries_of (item_by saying value.now)) → AreOrdered (entries ++ entries_of (item_by saying value.now))
        → HasFollowed replay.old habit design points vars instance entries → IsReplayFault habit design vars instance (entries ++ entries_of (item_by saying value.now)) fault) }
{
    match saying {
        Saying::Time(time) => replay.open_step(time),
        Saying::Change(code) => {
            replay.change(code, value);
            Ok(())
        }
        Saying::Off => {
            replay.end_stretch();
            Ok(())
        }
        Saying::On(time) => {
            replay.begin_stretch(time);
            Ok(())
        }
        Saying::More | Saying::End => Ok(()),
    }
}

/// Scores what a piece says.
pub(crate) fn score_piece(
    body: &mut Body,
    replay: &mut DumpReplay,
    piece: &[u8],
) -> Result<(), ScoreFault>
    requires { IsScoringSome body.old replay.old }
    ensures reads { OnOk result (IsScoringSome body.new replay.new) }
    ensures ok { OnOk result ((habit : SpecHabit) (design : SpecDesign) (points : SpecPoints) (vars : List SpecVar) (instance text : List ℕ) → IsScoring body.old replay.old habit design points vars instance text
        → IsScoring body.new replay.new habit design points vars instance (text ++ piece.now)) }
    ensures fault { IfErr result (λ fault. (habit : SpecHabit) (design : SpecDesign) (points : SpecPoints) (vars : List SpecVar) (instance text : List ℕ) → IsScoring body.old replay.old habit design points vars instance text
        → IsFoundFault habit design instance (text ++ piece.now) fault) }
{
    let mut used = 0;
    while used < piece.len() {
        let (_, rest) = piece.split_at(used);
        let heard = body.next_of(rest, replay.wanted())?;
        say(replay, heard.saying, body.value())?;
        used += heard.used;
    }
    Ok(())
}

/// Scores what comes after the header, except the last word. Of the piece the bytes from `span.used` to `span.count`
/// come after the header; where the piece has no bytes, the file is at its end.
pub(crate) fn score_body<H: Host>(
    host: &mut H,
    piece: &mut [u8],
    span: &Span,
    body: &mut Body,
    replay: &mut DumpReplay,
) -> Result<(), ScoreFault>
    requires reading { (H.outside host.old).reading ≡ true }
    requires piece { 0 < length piece.old }
    requires used { span.now.used ≤ span.now.count }
    requires count { span.now.count ≤ length piece.old }
    requires body { 0 < span.now.count → IsScoringSome body.old replay.old }
    ensures ok { OnOk result ((name : List ℕ) (before : Outside) (habit : SpecHabit) (design : SpecDesign) (points : SpecPoints) (vars : List SpecVar) (instance : List ℕ)
        → IsOpen name before (H.outside host.old) piece.old span.now body.old replay.old habit design points vars instance → ScoresOn name before body.new replay.new habit design points vars instance) }
    ensures fault { IfErr result (λ fault. (name : List ℕ) (before : Outside) (habit : SpecHabit) (design : SpecDesign) (points : SpecPoints) (vars : List SpecVar) (instance : List ℕ)
        → IsOpen name before (H.outside host.old) piece.old span.now body.old replay.old habit design points vars instance → IsScoreFault name before (H.outside host.new) habit design instance fault) }
    ensures effects { OnlyReads (H.outside host.old) (H.outside host.new) }
{
    if span.count == 0 {
        return Ok(());
    }
    match score_piece(body, replay, &piece[span.used..span.count]) {
        Ok(()) => score_rest(host, piece, body, replay, span.at),
        Err(fault) => Err(fault),
    }
}

/// Scores what comes after the last piece, to the end of the file.
pub(crate) fn score_rest<H: Host>(
    host: &mut H,
    piece: &mut [u8],
    body: &mut Body,
    replay: &mut DumpReplay,
    at: u64,
) -> Result<(), ScoreFault>
    requires reading { (H.outside host.old).reading ≡ true }
    requires piece { 0 < length piece.old }
    requires body { IsScoringSome body.old replay.old }
    ensures ok { OnOk result ((name : List ℕ) (before : Outside) (habit : SpecHabit) (design : SpecDesign) (points : SpecPoints) (vars : List SpecVar) (instance text : List ℕ)
        → HasReadFile name before (H.outside host.old) text → at ≡ length text → IsScoring body.old replay.old habit design points vars instance text
        → ScoresOn name before body.new replay.new habit design points vars instance) }
    ensures fault { IfErr result (λ fault. (name : List ℕ) (before : Outside) (habit : SpecHabit) (design : SpecDesign) (points : SpecPoints) (vars : List SpecVar) (instance text : List ℕ)
        → HasReadFile name before (H.outside host.old) text → at ≡ length text → IsScoring body.old replay.old habit design points vars instance text
        → IsScoreFault name before (H.outside host.new) habit design instance fault) }
    ensures effects { OnlyReads (H.outside host.old) (H.outside host.new) }
{
    let mut at = at;
    while at <= LONGEST_DUMP {
        let count = read(host, piece)?;
        if count == 0 {
            return Ok(());
        }
        match score_piece(body, replay, &piece[..count]) {
            Ok(()) => at += count as u64,
            Err(fault) => return Err(fault),
        }
    }
    Err(ScoreFault::Dump(DumpFault::At {
        kind: DumpKind::DumpTooLong,
        byte: LONGEST_DUMP,
    }))
}

/// Scores what the last word says, at the end of the file.
pub(crate) fn score_end(body: &mut Body, replay: &mut DumpReplay) -> Result<(), ScoreFault>
    requires { CanEndSome body.old replay.old }
    ensures ok { OnOk result ((habit : SpecHabit) (design : SpecDesign) (points : SpecPoints) (vars : List SpecVar) (instance text : List ℕ) → CanEnd body.old replay.old habit design points vars instance text
        → HasScored replay.new habit design points vars instance text) }
    ensures fault { IfErr result (λ fault. (habit : SpecHabit) (design : SpecDesign) (points : SpecPoints) (vars : List SpecVar) (instance text : List ℕ) → CanEnd body.old replay.old habit design points vars instance text
        → IsEndFault habit design instance text fault) }
{
    let heard = body.next_of(b"", replay.wanted())?;
    say(replay, heard.saying, body.value())?;
    Ok(())
}
