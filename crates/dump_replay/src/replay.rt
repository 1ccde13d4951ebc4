ghost use Rattle.std.specs.Prelude.{◌≡◌, ◌++◌, ◌∷◌, ◌-◌, ◌<◌, ◌≤◌, [], ℕ, List, None, Some, All, IfErr, IfOk, OnOk, length, suc, true};
ghost use Rattle.std.specs.Option.{option_to_list};
ghost use Rattle.cover_points.specs.Listed.{points_of};
ghost use Rattle.cover_points.specs.Visits.{ArePlaced};
ghost use Rattle.cover_points.specs.declared.listing.Points.{Points as ThePoints};
ghost use Rattle.design_model.specs.Design.{signal_at};
ghost use Rattle.design_model.specs.Shows.{BoundDump};
ghost use Rattle.design_model.specs.View.{design_view};
ghost use Rattle.design_model.specs.declared.design.Design.{Design as TheDesign};
ghost use Rattle.entry_laws.specs.Entries.{AreEntries};
ghost use Rattle.event_machine.specs.Habit.{Habit as TheHabit};
ghost use Rattle.replay_core.specs.Faults.{IsContradiction};
ghost use Rattle.replay_core.specs.Fits.{IsReplayable, signal_of};
ghost use Rattle.replay_core.specs.Followed.{AreGivenAt, AreHidden};
ghost use Rattle.replay_core.specs.Parts.{IsReady, IsStarted, given_of, made_of};
ghost use Rattle.replay_core.specs.wake_laws.Laws.{habit_of};
ghost use Rattle.shown_dumps.specs.Laws.{dump_with};
ghost use Rattle.shown_dumps.specs.Rounds.{ByLastRounds};
ghost use Rattle.shown_dumps.specs.Said.{open_stretch};
ghost use Rattle.shown_dumps.specs.Shown.{code_at, dump_of};
ghost use Rattle.signal_binding.specs.Binding.{IsBindFault, codes_of};
ghost use Rattle.vcd_reader.specs.Dump.{stretches_of};
ghost use Rattle.vcd_reader.specs.Order.{AreInTurn, AreOrdered};
ghost use Rattle.vcd_reader.specs.Times.{Rises, last_time};
ghost use Rattle.vcd_reader.specs.Wanted.{IsUnwanted};
ghost use Rattle.vcd_reader.specs.declared.entry.Entry.{Entry};
ghost use Rattle.vcd_reader.specs.declared.entry.Entry.TheVariants as entry;
ghost use Rattle.vcd_reader.specs.declared.vars.Var.{Var as TheVar};
ghost use Rattle.dump_replay.specs.Faults.{IsReplayFault};
ghost use Rattle.dump_replay.specs.Windows.{span_of};
ghost use Rattle.score_tables.specs.Windows.{windows_of};

use bound_codes::{coded_flags, signal_codes};
use cov_host::{NoMemory, Sequence};
use cover_marks::Marks;
use cover_points::{MOST_POINTS, Points};
use coverage_db::Window;
use design_model::Design;
use early_sets::Habit;
use four_state::Four;
use replay_core::{Replay, ReplayFault};
use signal_binding::{BindFault, bind};
use std::alloc::Global;
use std::marker::Brand;
use std::sync::ledger::{Blank, Ledger};
use step_counts::Steps;
use value_store::Queue;
use vcd_reader::Vars;

/// How many windows a dump can have: one for each stretch.
const MOST_WINDOWS: usize = 1024;

/// The replay of a dump while the dump is read.
///
/// It is made when the header ends. What is promised of it is said of each dump that begins with the entries that it was given
/// (`specs/Followed.antt`). Until the windows are handed out only `new` takes memory.
pub struct DumpReplay<'a> {
    replay: Replay<'a>,
    /// By code, whether a signal has it.
    wanted: Vec<bool>,
    /// The first time of the stretch.
    first: Option<u64>,
    /// The last time of the stretch, of which the step is not closed.
    last: Option<u64>,
    /// The windows of the stretches that have ended.
    windows: Queue<Window>,
}

// Written out so that a crate which lets one go does not prove again how each of its parts is let go.
impl Drop for DumpReplay<'_> {
    fn drop(self) {
        let DumpReplay {
            replay: _,
            wanted: _,
            first: _,
            last: _,
            windows: _,
        } = self;
    }
}

impl<'a> DumpReplay<'a> {
    ghost use Rattle.dump_replay.specs.Followed.{AreFinalMarks, Follows, HasFollowed};

    /// Binds the signals of a design with these points, of which the instance is the top and whose inputs move by this habit, to the
    /// variables of a dump.
    pub fn new(
        alloc: Global,
        habit: Habit,
        design: &'a Design,
        points: &'a Points,
        vars: &Vars,
        instance: &str,
    ) -> Result<Self, BindFault>
        requires replayable { IsReplayable (design_view design.now) points.now }
        requires placed { ArePlaced points.now }
        requires few { length (points_of points.now) ≤ MOST_POINTS }
        ensures ready { IfOk result (λ x. IsReady x.replay) }
        ensures followed { IfOk result (λ x. HasFollowed x (habit_of habit) design.now points.now vars.now instance.now []) }
        ensures fault { IfErr result (IsBindFault design.now vars.now instance.now) }
    {
        let binding = bind(alloc, design, vars, instance)?;
        let codes = signal_codes(alloc, &binding, design.signals.len() as u32)?;
        let wanted = coded_flags(alloc, codes.as_slice())?;
        let replay = Replay::new(alloc, habit, design, points, codes)?;
        let windows = Queue::new(alloc, MOST_WINDOWS)?;
        Ok(DumpReplay {
            replay,
            wanted,
            first: None,
            last: None,
            windows,
        })
    }

    /// By code, whether its changes are wanted. They are those of the codes that signals have, and to pass over any others
    /// changes nothing.
    pub fn wanted(&self) -> &[bool]
        ensures { (habit : TheHabit) (design : TheDesign) (points : ThePoints) (vars : List TheVar) (instance : List ℕ) (entries passed : List Entry)
            → HasFollowed self.now habit design points vars instance entries → All (IsUnwanted result.now) passed → HasFollowed self.now habit design points vars instance (entries ++ passed) }
    {
        self.wanted.as_slice()
    }

    /// Takes a change of a code to a value as wide as the signals that have the code.
    pub fn change(&mut self, code: u32, value: &Four)
        requires ready { IsReady self.old.replay }
        requires width { (s : ℕ) → code_at (made_of self.old.replay).codes s ≡ Some code → length value.now.bits ≡ (signal_at (made_of self.old.replay).design s).width }
        ensures ready { IsReady self.new.replay }
        ensures made { made_of self.new.replay ≡ made_of self.old.replay }
        ensures followed { (habit : TheHabit) (design : TheDesign) (points : ThePoints) (vars : List TheVar) (instance : List ℕ) (entries : List Entry)
            → AreInTurn true (entries ++ entry.Value code value.now ∷ []) → HasFollowed self.old habit design points vars instance entries → HasFollowed self.new habit design points vars instance (entries ++ entry.Value code value.now ∷ []) }
    {
        self.replay.change(code, value);
    }

    /// Takes a time that is greater than the one before, and closes the step of the one before, if it is of the same stretch. After
    /// a fault the same fault is the result of each call.
    pub fn open_step(&mut self, time: u64) -> Result<(), ReplayFault>
        requires ready { IsReady self.old.replay }
        ensures ready { IsReady self.new.replay }
        ensures made { made_of self.new.replay ≡ made_of self.old.replay }
        ensures followed { OnOk result ((habit : TheHabit) (design : TheDesign) (points : ThePoints) (vars : List TheVar) (instance : List ℕ) (entries : List Entry)
            → AreEntries vars entries → AreOrdered (entries ++ entry.Time time ∷ []) → HasFollowed self.old habit design points vars instance entries
            → HasFollowed self.new habit design points vars instance (entries ++ entry.Time time ∷ [])) }
        ensures fault { IfErr result (λ fault. (habit : TheHabit) (design : TheDesign) (points : ThePoints) (vars : List TheVar) (instance : List ℕ) (entries : List Entry)
            → AreEntries vars entries → AreOrdered (entries ++ entry.Time time ∷ []) → HasFollowed self.old habit design points vars instance entries
            → IsReplayFault habit design vars instance (entries ++ entry.Time time ∷ []) fault) }
    {
        match self.last {
            Some(last) => self.open_later(last, time),
            None => {
                self.first = Some(time);
                self.last = Some(time);
                Ok(())
            }
        }
    }

    /// The dump goes off: the stretch ends. Its window is noted, and nothing that was known of its values is kept. The step of its
    /// last time is not closed.
    pub fn end_stretch(&mut self)
        requires ready { IsReady self.old.replay }
        requires room { length self.old.windows.items < self.old.windows.room }
        ensures ready { IsReady self.new.replay }
        ensures made { made_of self.new.replay ≡ made_of self.old.replay }
        ensures followed { (habit : TheHabit) (design : TheDesign) (points : ThePoints) (vars : List TheVar) (instance : List ℕ) (entries : List Entry)
            → AreOrdered (entries ++ entry.Off ∷ []) → HasFollowed self.old habit design points vars instance entries → HasFollowed self.new habit design points vars instance (entries ++ entry.Off ∷ []) }
    {
        self.note_window();
        self.replay.pause();
        self.first = None;
        self.last = None;
    }

    /// The dump goes on: a stretch begins, whose first time is this one, or, where no time is given, the next that is opened.
    pub fn begin_stretch(&mut self, time: Option<u64>)
        requires ready { IsReady self.old.replay }
        ensures ready { IsReady self.new.replay }
        ensures made { made_of self.new.replay ≡ made_of self.old.replay }
        ensures followed { (habit : TheHabit) (design : TheDesign) (points : ThePoints) (vars : List TheVar) (instance : List ℕ) (entries : List Entry)
            → AreOrdered (entries ++ entry.On time ∷ []) → HasFollowed self.old habit design points vars instance entries → HasFollowed self.new habit design points vars instance (entries ++ entry.On time ∷ []) }
    {
        self.first = time;
        self.last = time;
    }

    /// Takes a time after this one, of which the step is closed, and with it those of the times between them.
    fn open_later(&mut self, last: u64, time: u64) -> Result<(), ReplayFault>
        requires ready { IsReady self.old.replay }
        requires last { self.old.last ≡ Some last }
        ensures ready { IsReady self.new.replay }
        ensures made { made_of self.new.replay ≡ made_of self.old.replay }
        ensures followed { OnOk result ((habit : TheHabit) (design : TheDesign) (points : ThePoints) (vars : List TheVar) (instance : List ℕ) (entries : List Entry)
            → AreEntries vars entries → AreOrdered (entries ++ entry.Time time ∷ []) → HasFollowed self.old habit design points vars instance entries
            → HasFollowed self.new habit design points vars instance (entries ++ entry.Time time ∷ [])) }
        ensures fault { IfErr result (λ fault. (habit : TheHabit) (design : TheDesign) (points : ThePoints) (vars : List TheVar) (instance : List ℕ) (entries : List Entry)
            → AreEntries vars entries → AreOrdered (entries ++ entry.Time time ∷ []) → HasFollowed self.old habit design points vars instance entries
            → IsReplayFault habit design vars instance (entries ++ entry.Time time ∷ []) fault) }
    {
        self.close::<Brand>(last, Blank::new(1))?;
        self.rest::<Brand>(last, time, Blank::new(1))?;
        self.last = Some(time);
        Ok(())
    }

    /// The windows of the dump, once it has ended: of each stretch that has two times, from its first time to its last.
    pub fn windows(&self, alloc: Global) -> Result<Sequence<Window>, NoMemory>
        ensures { IfOk result (λ windows. (habit : TheHabit) (design : TheDesign) (points : ThePoints) (vars : List TheVar) (instance : List ℕ) (entries : List Entry) → Rises None entries
            → HasFollowed self.now habit design points vars instance entries → windows ≡ windows_of (dump_of (codes_of design vars instance) (stretches_of entries)).stretches) }
    {
        let mut windows = Sequence::new(alloc);
        windows.extend_from_slice(self.windows.as_slice())?;
        if let Some(window) = self.span() {
            windows.push(window)?;
        }
        Ok(windows)
    }

    /// Notes the window of the stretch, where it has two times.
    fn note_window(&mut self)
        requires { length self.old.windows.items < self.old.windows.room }
        ensures { self.new ≡ record self.old { windows = record self.old.windows { items = self.old.windows.items ++ option_to_list (span_of self.old.first self.old.last) } } }
    {
        if let Some(window) = self.span() {
            self.windows.push(window);
        }
    }

    /// From the first time of the stretch to the last, where they are two.
    fn span(&self) -> Option<Window>
        ensures { result ≡ span_of self.now.first self.now.last }
    {
        match (self.first, self.last) {
            (Some(first), Some(last)) if first < last => Some(Window { first, last }),
            _ => None,
        }
    }

    /// The marks of the points at the end of the dump. The step of the last time of a stretch is not closed.
    pub fn finish(self) -> Marks
        requires ready { IsReady self.replay }
        ensures { (habit : TheHabit) (design : TheDesign) (points : ThePoints) (vars : List TheVar) (instance : List ℕ) (entries : List Entry) → Rises None entries
            → HasFollowed self.entry habit design points vars instance entries
            → ByLastRounds (design_view design) (dump_of (codes_of design vars instance) (stretches_of entries)) (λ dump. AreFinalMarks (design_view design) habit dump points result) }
    {
        let DumpReplay {
            replay,
            wanted: _,
            first: _,
            last: _,
            windows: _,
        } = self;
        replay.finish()
    }

    /// Closes the step of this time, whose runs nobody counts.
    fn close<L: Ledger>(&mut self, time: u64, blank: Blank) -> Result<(), ReplayFault>
        requires ready { IsReady self.old.replay }
        requires name { blank.name ≡ L.name }
        requires parts { blank.parts ≡ L.parts }
        requires some { 0 < blank.parts }
        ensures ready { IsReady self.new.replay }
        ensures made { made_of self.new.replay ≡ made_of self.old.replay }
        ensures given { given_of self.new.replay ≡ given_of self.old.replay }
        ensures wanted { self.new.wanted ≡ self.old.wanted }
        ensures first { self.new.first ≡ self.old.first }
        ensures last { self.new.last ≡ self.old.last }
        ensures windows { self.new.windows ≡ self.old.windows }
        ensures started { OnOk result (IsStarted self.new.replay) }
        ensures followed { OnOk result ((habit : TheHabit) (design : TheDesign) (points : ThePoints) (vars : List TheVar) (instance : List ℕ) (entries more : List Entry) (next : ℕ)
            → AreEntries vars entries → Rises None (entries ++ entry.Time next ∷ more) → last_time None (open_stretch entries) ≡ Some time → HasFollowed self.old habit design points vars instance entries
            → Follows self.new.replay (dump_with (codes_of design vars instance) entries next more) time) }
        ensures fault { IfErr result (λ fault. (habit : TheHabit) (design : TheDesign) (points : ThePoints) (vars : List TheVar) (instance : List ℕ) (entries : List Entry) (next : ℕ)
            → AreEntries vars entries → Rises None (entries ++ entry.Time next ∷ []) → last_time None (open_stretch entries) ≡ Some time → HasFollowed self.old habit design points vars instance entries
            → IsReplayFault habit design vars instance (entries ++ entry.Time next ∷ []) fault) }
    {
        let mut steps = Steps::<L>::new(blank);
        if self.replay.has_started() {
            self.replay.close_step(time, &mut steps)
        } else {
            self.replay.start(time, &mut steps)
        }
    }

    /// Closes the steps of the times between this one, of which the step is closed, and the next one, whose runs nobody counts.
    fn rest<L: Ledger>(&mut self, last: u64, time: u64, blank: Blank) -> Result<(), ReplayFault>
        requires ready { IsReady self.old.replay }
        requires started { IsStarted self.old.replay }
        requires name { blank.name ≡ L.name }
        requires parts { blank.parts ≡ L.parts }
        requires some { 0 < blank.parts }
        ensures ready { IsReady self.new.replay }
        ensures made { made_of self.new.replay ≡ made_of self.old.replay }
        ensures given { given_of self.new.replay ≡ given_of self.old.replay }
        ensures wanted { self.new.wanted ≡ self.old.wanted }
        ensures first { self.new.first ≡ self.old.first }
        ensures last { self.new.last ≡ self.old.last }
        ensures windows { self.new.windows ≡ self.old.windows }
        ensures started { OnOk result (IsStarted self.new.replay) }
        ensures followed { OnOk result ((dump : BoundDump) → Follows self.old.replay dump last → AreHidden dump last time → AreGivenAt self.old.replay dump last → Follows self.new.replay dump (time - 1)) }
        ensures fault { IfErr result (λ fault. (dump : BoundDump) → Follows self.old.replay dump last → AreHidden dump last time → AreGivenAt self.old.replay dump last
            → ByLastRounds (made_of self.old.replay).design dump (λ b. (suc last < time) × IsContradiction (made_of self.old.replay).design (habit_of (made_of self.old.replay).habit) b (suc last) fault)) }
        ensures named { IfErr result (λ fault. signal_of fault < length (made_of self.old.replay).design.signals) }
    {
        let mut steps = Steps::<L>::new(blank);
        self.replay.rest(last, time, &mut steps)
    }
}
