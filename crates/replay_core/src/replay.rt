ghost use Rattle.std.specs.Prelude.{◌≡◌, ◌≤◌, ◌+◌, ◌-◌, ◌↔◌, ◌<◌, ℕ, Err, IfErr, IfOk, IsFalse, None, OnOk, Some, false, length, slice_index_or, slice_set, suc};
ghost use Rattle.code_values.specs.Values.{IsFirstMissing, value_of};
ghost use Rattle.cover_marks.specs.Marks.{AreMarksOf};
ghost use Rattle.cover_points.specs.Listed.{points_of};
ghost use Rattle.cover_points.specs.Visits.{ArePlaced};
ghost use Rattle.cover_points.specs.declared.listing.Points.{Points as ThePoints};
ghost use Rattle.design_model.specs.Design.{signal_at};
ghost use Rattle.design_model.specs.Shows.{BoundDump, IsFirst, IsShown, NoneShown};
ghost use Rattle.design_model.specs.View.{design_view};
ghost use Rattle.dump_check.specs.declared.order.Difference.{Difference as Found};
ghost use Rattle.four_state.specs.Vector.{Vector};
ghost use Rattle.known_state.specs.Partly.{Partly};
ghost use Rattle.replay_follows.specs.Laws.{IsLastStep};
ghost use Rattle.wake_laws.specs.Laws.{habit_of};
ghost use Rattle.replay_core.specs.Faults.{IsContradiction, fault_at, phase_after};
ghost use Rattle.replay_core.specs.Codes.{flags_of};
ghost use Rattle.replay_core.specs.Fits.{HasInputs, HaveValues, IsReplayable, signal_of};
ghost use Rattle.replay_core.specs.Made.{IsDumpFor};
ghost use Rattle.replay_core.specs.Steps.{CountsSensitive};
ghost use Rattle.replay_core.specs.declared.fault.ReplayFault.{ReplayFault as TheFault};
ghost use Rattle.replay_core.specs.declared.fault.ReplayFault.TheVariants as fault_is;
ghost use Rattle.replay_core.specs.declared.fault.Phase.TheVariants as phase;

use crate::ReplayFault;
use crate::fault::Phase;
use crate::first::run_first_step;
use crate::pausing::forget_values;
use crate::room::{ReplayRoom, make_room};
use crate::rows::{bound_flags, past_codes};
use crate::state::{ReplayState, make_state};
use crate::step::run_step;
use crate::tables::{ReplayTables, make_tables};
use body_replay::runs_lawful;
use cov_host::NoMemory;
use cover_marks::Marks;
use cover_points::{MOST_POINTS, Points};
use design_model::Design;
use dump_check::Difference;
use early_sets::Habit;
use four_state::Four;
use std::alloc::Global;
use std::sync::ledger::Ledger;
use step_counts::Steps;
use step_words::followed_memories;

/// The replay of a dump.
///
/// What is promised of it is said of each dump that it has followed up to a time (`specs/Followed.antt`): of one whose steps up to
/// that time it has closed, each at its time and with its values. There may be several, as long as the dump is not read to its end.
pub struct Replay<'a> {
    design: &'a Design,
    habit: Habit,
    tables: Box<ReplayTables>,
    room: Box<ReplayRoom>,
    state: ReplayState<'a>,
    phase: Phase,
}

// Written out so that a crate which lets one go does not prove again how each of its parts is let go.
impl Drop for Replay<'_> {
    fn drop(self) {
        let Replay {
            design: _,
            habit: _,
            tables: _,
            room: _,
            state: _,
            phase: _,
        } = self;
    }
}

impl<'a> Replay<'a> {
    ghost use Rattle.replay_core.specs.Followed.{AreFinal, AreGivenAt, AreHidden, HasFollowed, HasPaused, IsNextStep, IsStepAt};
    ghost use Rattle.replay_core.specs.Parts.{HasRefused, IsPausedPhase, IsReady, IsStarted, given_of, made_of, without_sign};

    /// The replay of the dumps of a design whose inputs move by this habit, of which these are the points, and of which this is the code of
    /// each signal that the dump has. Nothing is known of any signal, no step is closed and no point is marked. All memory that is ever needed is taken
    /// here, in the time of the design's text.
    pub fn new(
        alloc: Global,
        habit: Habit,
        design: &'a Design,
        points: &'a Points,
        codes: Vec<Option<u32>>,
    ) -> Result<Self, NoMemory>
        requires replayable { IsReplayable (design_view design.now) points.now }
        requires placed { ArePlaced points.now }
        requires few { length (points_of points.now) ≤ MOST_POINTS }
        requires codes { length codes.items ≡ length design.now.signals }
        ensures ready { IfOk result IsReady }
        ensures off { IfOk result IsPausedPhase }
        ensures paused { IfOk result (λ replay. (dump : BoundDump) (u : ℕ) → IsDumpFor (made_of replay) dump → ((v : ℕ) → v < u → IsShown dump v → ⊥) → HasPaused replay dump u) }
        ensures design { IfOk result (λ replay. (made_of replay).design ≡ design_view design.now) }
        ensures habit { IfOk result (λ replay. (made_of replay).habit ≡ habit) }
        ensures points { IfOk result (λ replay. (made_of replay).points ≡ points.now) }
        ensures codes { IfOk result (λ replay. (made_of replay).codes ≡ codes.items) }
        ensures within { IfOk result (λ replay. (s code : ℕ) → slice_index_or codes.items s None ≡ Some code → code < length (given_of replay)) }
        ensures values { IfOk result (λ replay. (code : ℕ) → value_of (given_of replay) code ≡ None) }
    {
        runs_lawful();
        let bound = bound_flags(alloc, codes.as_slice())?;
        let count = past_codes(codes.as_slice());
        let tables = make_tables(alloc, design, codes, bound.as_slice(), count)?;
        let followed = followed_memories(alloc, design, &tables.processes.watched)?;
        let room = make_room(
            alloc,
            design,
            &tables,
            bound.as_slice(),
            followed.as_slice(),
        )?;
        let state = make_state(alloc, design, points, count, followed.as_slice())?;
        Ok(Replay {
            design,
            habit,
            tables,
            room,
            state,
            phase: Phase::Paused,
        })
    }

    /// The dump gives this value to a code, as wide as the signals that have the code. Its sign is taken off. A code that no signal
    /// has may change nothing. It takes constant time and no memory.
    pub fn change(&mut self, code: u32, value: &Four)
        requires ready { IsReady self.old }
        requires width { (s : ℕ) → slice_index_or (made_of self.old).codes s None ≡ Some code → length value.now.bits ≡ (signal_at (made_of self.old).design s).width }
        ensures ready { IsReady self.new }
        ensures made { made_of self.new ≡ made_of self.old }
        ensures phase { self.new.phase ≡ self.old.phase }
        ensures values { given_of self.new ≡ slice_set (given_of self.old) code (Some (without_sign value.now)) }
        ensures followed { (dump : BoundDump) (t : ℕ) → HasFollowed self.old dump t → HasFollowed self.new dump t }
        ensures paused { (dump : BoundDump) (u : ℕ) → HasPaused self.old dump u → HasPaused self.new dump u }
    {
        self.state.values.set(code, unsigned(value));
    }

    /// Whether the first step of a stretch was closed, or a step was refused.
    pub fn has_started(&self) -> bool
        ensures { IsFalse result ↔ IsPausedPhase self.now }
    {
        match self.phase {
            Phase::Paused => false,
            Phase::Started | Phase::Refused(_) => true,
        }
    }

    /// Closes the first step of a stretch, at its first time. Where a signal with a code has no value, the fault is that; else it is
    /// that an Assign, or a Comb that has acted before, makes something else of a signal than what the dump says. After a fault the
    /// same fault is the result of each call, and the marks stay. It takes time for the design, and no memory; each Assign runs once,
    /// and so does each such Comb.
    pub fn start<L: Ledger>(&mut self, time: u64, steps: &mut Steps<L>) -> Result<(), ReplayFault>
        requires ready { IsReady self.old }
        requires once { IsStarted self.old → ⊥ }
        ensures ready { IsReady self.new }
        ensures made { made_of self.new ≡ made_of self.old }
        ensures values { given_of self.new ≡ given_of self.old }

        ensures started { OnOk result (IsStarted self.new) }
        ensures followed { OnOk result ((dump : BoundDump) → HasPaused self.old dump time → IsFirst dump time → IsShown dump time → AreGivenAt self.old dump time → HasFollowed self.new dump time) }

        ensures refused { IfErr result (HasRefused self.new) }
        ensures missing { (s : ℕ) → IsPausedPhase self.old → result ≡ Err (fault_is.NoBaseline s) → IsFirstMissing (given_of self.old) (made_of self.old).codes s }
        ensures contradiction { IfErr result (λ fault. (dump : BoundDump) → HasPaused self.old dump time → IsFirst dump time → IsShown dump time → AreGivenAt self.old dump time
            → IsContradiction (made_of self.old).design (habit_of (made_of self.old).habit) dump time fault) }
        ensures valued { (s t : ℕ) (dumped : Vector) (computed : Partly) → IsPausedPhase self.old → result ≡ Err (fault_is.Contradiction s t dumped computed) → HaveValues (made_of self.old).codes (given_of self.old) }
        ensures again { (fault : TheFault) → HasRefused self.old fault → (result ≡ Err fault) × (self.new ≡ self.old) }
        ensures named { IfErr result (λ fault. signal_of fault < length (made_of self.old).design.signals) }

        ensures steps { steps.new ≤ steps.old + length (made_of self.old).design.processes }
    {
        if let Phase::Refused(fault) = self.phase {
            return Err(fault);
        }
        let codes = self.tables.step.codes.as_slice();
        if let Some(signal) = self.state.values.first_missing(codes) {
            let signal = signal as u32;
            return self.refuse(ReplayFault::NoBaseline { signal });
        }
        let found = run_first_step(
            self.design,
            &self.tables,
            &mut self.room,
            &mut self.state,
            steps,
        );
        self.end(found, time)
    }

    /// Closes a later step of the stretch, which ends at this time. The fault is that a process makes something else of a signal than
    /// what the dump says, or that a signal has changed which nothing moves. After a fault the same fault is the result of each call,
    /// and the marks stay. It takes no memory, and time for what changes and may move in the step; each process that mentions or lists
    /// what may move runs once.
    pub fn close_step<L: Ledger>(
        &mut self,
        time: u64,
        steps: &mut Steps<L>,
    ) -> Result<(), ReplayFault>
        requires ready { IsReady self.old }
        requires started { IsPausedPhase self.old → ⊥ }
        ensures ready { IsReady self.new }
        ensures made { made_of self.new ≡ made_of self.old }
        ensures values { given_of self.new ≡ given_of self.old }

        ensures started { OnOk result (IsStarted self.new) }
        ensures followed { OnOk result ((dump : BoundDump) (t : ℕ) → HasFollowed self.old dump t → IsNextStep dump t time → AreGivenAt self.old dump time → HasFollowed self.new dump time) }

        ensures refused { IfErr result (HasRefused self.new) }
        ensures contradiction { IfErr result (λ fault. (dump : BoundDump) (t : ℕ) → HasFollowed self.old dump t → IsNextStep dump t time → AreGivenAt self.old dump time
            → IsContradiction (made_of self.old).design (habit_of (made_of self.old).habit) dump time fault) }
        ensures again { (fault : TheFault) → HasRefused self.old fault → (result ≡ Err fault) × (self.new ≡ self.old) }
        ensures named { IfErr result (λ fault. signal_of fault < length (made_of self.old).design.signals) }

        ensures steps { (dump : BoundDump) (t : ℕ) → HasFollowed self.old dump t → IsNextStep dump t time → AreGivenAt self.old dump time
            → CountsSensitive (made_of self.old).design dump time steps.old steps.new }
    {
        self.close_at(time, true, steps)
    }

    /// Goes from a time of which the step is closed up to the one before a later time, where the dump lists none between them and has
    /// given no value since. Where an input has no code and a time is between, one step is closed for all of them: it is the same
    /// at each. The fault is that of the first of them. It takes no memory, and time for what may move while the dump lists nothing.
    pub fn rest<L: Ledger>(
        &mut self,
        from: u64,
        time: u64,
        steps: &mut Steps<L>,
    ) -> Result<(), ReplayFault>
        requires ready { IsReady self.old }
        requires started { IsPausedPhase self.old → ⊥ }
        ensures ready { IsReady self.new }
        ensures made { made_of self.new ≡ made_of self.old }
        ensures values { given_of self.new ≡ given_of self.old }

        ensures started { OnOk result (IsStarted self.old → IsStarted self.new) }
        ensures followed { OnOk result ((dump : BoundDump) → HasFollowed self.old dump from → AreHidden dump from time → AreGivenAt self.old dump from → HasFollowed self.new dump (time - 1)) }

        ensures refused { IfErr result (HasRefused self.new) }
        ensures contradiction { IfErr result (λ fault. (dump : BoundDump) → HasFollowed self.old dump from → AreHidden dump from time → AreGivenAt self.old dump from
            → (suc from < time) × IsContradiction (made_of self.old).design (habit_of (made_of self.old).habit) dump (suc from) fault) }
        ensures again { (fault : TheFault) → HasRefused self.old fault → IfErr result (λ now. now ≡ fault) × (self.new ≡ self.old) }
        ensures named { IfErr result (λ fault. signal_of fault < length (made_of self.old).design.signals) }

        ensures steps { (dump : BoundDump) → HasFollowed self.old dump from → AreHidden dump from time → AreGivenAt self.old dump from
            → CountsSensitive (made_of self.old).design dump (suc from) steps.old steps.new }
        ensures none { HasInputs (made_of self.old).design.signals (flags_of (made_of self.old).codes) → steps.new ≡ steps.old }
        ensures next { suc from ≡ time → steps.new ≡ steps.old }
    {
        if time <= from {
            return Ok(());
        }
        let first = from + 1;
        if first == time {
            return Ok(());
        }
        let lacks = self.tables.lacks_input;
        if !lacks {
            return Ok(());
        }
        self.close_at(first, false, steps)
    }

    /// The dump is off from here: nothing is known any more, no code has a value, and the next step is the first of another stretch.
    /// The marks stay, and so does which Combs have acted. After a fault nothing changes. It takes time for the design's signals,
    /// the codes and the words of its memories, and no memory.
    pub fn pause(&mut self)
        requires ready { IsReady self.old }
        ensures ready { IsReady self.new }
        ensures made { made_of self.new ≡ made_of self.old }
        ensures off { ((fault : TheFault) → HasRefused self.old fault → ⊥) → IsPausedPhase self.new }
        ensures values { ((fault : TheFault) → HasRefused self.old fault → ⊥) → (code : ℕ) → value_of (given_of self.new) code ≡ None }
        ensures count { length (given_of self.new) ≡ length (given_of self.old) }
        ensures followed { (dump : BoundDump) (t u : ℕ) → HasFollowed self.old dump t → t < u → NoneShown dump t u → HasPaused self.new dump u }
        ensures stays { (dump : BoundDump) (u v : ℕ) → HasPaused self.old dump u → u ≤ v → ((w : ℕ) → u ≤ w → w < v → IsShown dump w → ⊥) → HasPaused self.new dump v }
        ensures refused { (fault : TheFault) → HasRefused self.old fault → self.new ≡ self.old }
    {
        if let Phase::Refused(_) = self.phase {
            return;
        }
        forget_values(self.design, &mut self.room, &mut self.state);
        self.phase = Phase::Paused;
    }

    /// The marks of the points. Where no step of the dump's window is left, they are its verdicts.
    pub fn finish(self) -> Marks
        requires ready { IsReady self }
        ensures points { AreMarksOf (made_of self.entry).points result }
        ensures followed { (dump : BoundDump) (t : ℕ) → HasFollowed self.entry dump t → IsLastStep dump t → AreFinal (made_of self.entry) dump result }
        ensures paused { (dump : BoundDump) (u : ℕ) → HasPaused self.entry dump u → ((v : ℕ) → IsShown dump v → v < u) → AreFinal (made_of self.entry) dump result }
    {
        let Replay {
            design: _,
            habit: _,
            tables: _,
            room: _,
            state,
            phase: _,
        } = self;
        let notes = state.notes;
        notes.marks
    }

    /// Closes a later step, which ends at this time, that the dump lists or not.
    fn close_at<L: Ledger>(
        &mut self,
        time: u64,
        listed: bool,
        steps: &mut Steps<L>,
    ) -> Result<(), ReplayFault>
        requires ready { IsReady self.old }
        requires started { IsPausedPhase self.old → ⊥ }
        ensures ready { IsReady self.new }
        ensures made { made_of self.new ≡ made_of self.old }
        ensures values { given_of self.new ≡ given_of self.old }
        ensures started { OnOk result (IsStarted self.new) }
        ensures followed { OnOk result ((dump : BoundDump) (t : ℕ) → HasFollowed self.old dump t → IsStepAt dump t time listed → AreGivenAt self.old dump time → HasFollowed self.new dump time) }
        ensures refused { IfErr result (HasRefused self.new) }
        ensures contradiction { IfErr result (λ fault. (dump : BoundDump) (t : ℕ) → HasFollowed self.old dump t → IsStepAt dump t time listed → AreGivenAt self.old dump time
            → IsContradiction (made_of self.old).design (habit_of (made_of self.old).habit) dump time fault) }
        ensures again { (fault : TheFault) → HasRefused self.old fault → (result ≡ Err fault) × (self.new ≡ self.old) }
        ensures named { IfErr result (λ fault. signal_of fault < length (made_of self.old).design.signals) }
        ensures steps { (dump : BoundDump) (t : ℕ) → HasFollowed self.old dump t → IsStepAt dump t time listed → AreGivenAt self.old dump time
            → CountsSensitive (made_of self.old).design dump time steps.old steps.new }
    {
        if let Phase::Refused(fault) = self.phase {
            return Err(fault);
        }
        let found = run_step(
            self.design,
            self.habit,
            &self.tables,
            &mut self.room,
            &mut self.state,
            time,
            listed,
            steps,
        );
        self.end(found, time)
    }

    /// Ends a step: it is refused where there is a difference.
    fn end(&mut self, found: Option<Difference>, time: u64) -> Result<(), ReplayFault>
        ensures phase { self.new ≡ record self.old { phase = phase_after found time } }
        ensures ok { OnOk result (found ≡ None) }
        ensures err { IfErr result (λ fault. (different : Found) × (found ≡ Some different) × (fault ≡ fault_at different time)) }
    {
        match found {
            Some(found) => self.refuse(ReplayFault::Contradiction {
                signal: found.signal,
                time,
                dumped: found.dumped,
                computed: found.computed,
            }),
            None => {
                self.phase = Phase::Started;
                Ok(())
            }
        }
    }

    /// Refuses a step, and all that come later.
    fn refuse(&mut self, fault: ReplayFault) -> Result<(), ReplayFault>
        ensures phase { self.new ≡ record self.old { phase = phase.Refused fault } }
        ensures result { result ≡ Err fault }
    {
        let kept = fault;
        self.phase = Phase::Refused(kept);
        Err(fault)
    }
}

/// The same bits without a sign.
fn unsigned(value: &Four) -> Four
    ensures { result ≡ record { bits = value.now.bits; signed = false } }
{
    value.extend(value.width(), false)
}
