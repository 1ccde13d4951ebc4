ghost use Rattle.std.specs.Prelude.{◌≡◌, ◌==◌, ◌<◌, ◌≤◌, ◌↔◌, ◌+◌, ◌*◌, ◌^◌, ◌&&◌, if◌then◌else◌, [], ℕ, IfOk, IfSome, IsFalse, IsSome, IsTrue, false, length, not, slice_set, true};
ghost use Rattle.std.specs.List.{Contains};
ghost use Rattle.index_sets.specs.Rows.{row_at};
ghost use Rattle.early_sets.specs.Adds.{Adds};
ghost use Rattle.early_sets.specs.Once.{AreOnce, IsOnce};
ghost use Rattle.early_sets.specs.Sizes.{AreSizes, AreWriters};

use crate::changes::Changes;
use crate::closure::{close, insert_members, insert_row, insert_where, wake};
use crate::early::{habit_for, insert_inputs, insert_targets};
use crate::rounds::number;
use crate::sets::Sets;
use crate::{Edges, Habit, Rule, Turns, Uncounted};
use cov_host::NoMemory;
use four_state::{Bit, Edge};
use index_sets::IndexSet;
use std::alloc::Global;
use wake_tables::WakeTables;

/// The sets of a step: which signals and memories may move, which processes can wake, and what is early for a clean
/// block.
pub struct Wakes {
    tables: WakeTables,
    /// The inputs whose changes are never reported.
    untold: Vec<u32>,
    /// For each signal or memory the block that writes it, where it may become single.
    writers: Vec<Option<u32>>,
    changes: Changes,
    /// The inputs that change, or may change.
    noted: IndexSet,
    /// What becomes single in the next round.
    ready: IndexSet,
    /// For each signal or memory that became single in this step the round in which it did.
    rounds: Vec<u32>,
    moves: IndexSet,
    woken: IndexSet,
    early: IndexSet,
    /// The processes that what is early may wake.
    early_woken: IndexSet,
    ghost sizes: { AreSizes tables changes.told.items untold.items writers.items noted ready rounds.items moves woken early early_woken },
    ghost once: { AreOnce noted moves woken early },
}

// Written out so that a crate which lets one go does not prove again how each of its parts is let go.
impl Drop for Wakes {
    fn drop(self) {
        let Wakes {
            tables: _,
            untold: _,
            writers: _,
            changes: _,
            noted: _,
            ready: _,
            rounds: _,
            moves: _,
            woken: _,
            early: _,
            early_woken: _,
        } = self;
    }
}

impl Wakes {
    ghost use Rattle.early_sets.specs.Early.{HasNoBlocking, IsEarlyBy};
    ghost use Rattle.early_sets.specs.Edges.{edges_between};
    ghost use Rattle.early_sets.specs.Rounds.{HasMoves, IsNextRound, becomes_single, is_written_by, round_at, runs_at_most_once, writer_at};
    ghost use Rattle.early_sets.specs.Settled.{HasSettled};
    ghost use Rattle.early_sets.specs.Turns.{all_check_turns, choose_turns, early_turns, moves_turns, writer_events};
    ghost use Rattle.early_sets.specs.WakeState.{can_wake_by, is_single, is_told, state_of, trigger_of, waker_of, wakes_only_by};

    /// The sets of a design with these tables, before the first step: for each signal or memory whether it is an input
    /// whose changes are reported, and the other inputs, each of which may change in any step. `writers` gives for each signal
    /// that the dump gives too, and that only one block writes, at most once in each evaluation, this block; it may become
    /// single in a later round than the first. Where it gives none, the sets are those of the first round.
    pub fn new(
        alloc: Global,
        tables: WakeTables,
        told: Vec<bool>,
        untold: Vec<u32>,
        writers: Vec<Option<u32>>,
    ) -> Result<Self, NoMemory>
        requires few { tables.things < 2 ^ 32 }
        requires told { length told.items ≡ tables.things }
        requires untold { (x : ℕ) → Contains untold.items x → x < tables.things }
        requires writers { AreWriters tables.things tables.processes writers.items }
        ensures tables { IfOk result (λ wakes. (state_of wakes).tables ≡ tables) }
        ensures told { IfOk result (λ wakes. (state_of wakes).told ≡ told.items) }
        ensures untold { IfOk result (λ wakes. (state_of wakes).untold ≡ untold.items) }
        ensures writers { IfOk result (λ wakes. (state_of wakes).writers ≡ writers.items) }
        ensures noted { IfOk result (λ wakes. (state_of wakes).noted ≡ []) }
    {
        let changes = Changes::new(alloc, told)?;
        let Sets {
            noted,
            ready,
            rounds,
            moves,
            woken,
            early,
            early_woken,
        } = Sets::new(alloc, tables.things, tables.processes)?;
        Ok(Wakes {
            tables,
            untold,
            writers,
            changes,
            noted,
            ready,
            rounds,
            moves,
            woken,
            early,
            early_woken,
        })
    }

    /// How many signals and memories the design has.
    pub fn things(&self) -> usize
        ensures { result ≡ (state_of self.now).tables.things }
    {
        self.tables.things
    }

    /// How many processes the design has.
    pub fn processes(&self) -> usize
        ensures { result ≡ (state_of self.now).tables.processes }
    {
        self.tables.processes
    }

    /// Whether the number is that of an input whose changes are reported.
    pub fn is_told(&self, thing: u32) -> bool
        ensures value { result ≡ is_told (state_of self.now) thing }
        ensures below { IsTrue result → thing < (state_of self.now).tables.things }
    {
        let place = thing as usize;
        place < self.changes.told.len() && self.changes.told[place]
    }

    /// Whether the number is that of a signal, except an input, that may become single. Its changes are to be noted, as those
    /// of the inputs whose changes are reported.
    pub fn is_candidate(&self, thing: u32) -> bool
        ensures value { IsTrue result ↔ IsSome (writer_at (state_of self.now) thing) }
        ensures below { IsTrue result → thing < (state_of self.now).tables.things }
    {
        let place = thing as usize;
        place < self.writers.len() && self.writers[place].is_some()
    }

    /// Begins a step, in which no change is reported yet. It takes no memory, and time for the inputs whose changes are never reported,
    /// whatever the last step did.
    pub fn clear<T: Turns>(&mut self, turns: &mut T)
        ensures rest { state_of self.new ≡ record (state_of self.old) { noted = (state_of self.new).noted; changed = []; derived = []; moves = []; woken = []; early = [] } }
        ensures noted { (x : ℕ) → Contains (state_of self.new).noted x ↔ Contains (state_of self.old).untold x }
        ensures turns { T.counted turns.new ≤ T.counted turns.old + length (state_of self.old).untold }
    {
        self.noted.clear();
        insert_row(true, self.untold.as_slice(), None, &mut self.noted, turns);
        self.changes.clear();
        self.moves.clear();
        self.woken.clear();
        self.early.clear();
    }

    /// A signal that the dump gives changes in this step: an input, or one that may become single. `old` and `new` are its
    /// lowest bit before and after the step. It takes no memory.
    pub fn note(&mut self, signal: u32, old: Bit, new: Bit)
        requires { signal < (state_of self.old).tables.things }
        ensures rest { state_of self.new ≡ record (state_of self.old) { own = slice_set (state_of self.old).own signal (edges_between old new); noted = (state_of self.new).noted; changed = (state_of self.new).changed } }
        ensures noted { Adds (λ x. (is_told (state_of self.old) signal ≡ true) × (signal ≡ x)) (state_of self.old).noted (state_of self.new).noted }
        ensures changed { Adds (λ x. (is_told (state_of self.old) signal ≡ false) × (signal ≡ x)) (state_of self.old).changed (state_of self.new).changed }
    {
        let place = signal as usize;
        let told = self.changes.told[place];
        self.changes.tell(place, Edges::between(old, new));
        insert_where(told, place, None, &mut self.noted);
    }

    /// Finds what may move in the step and which processes that may wake, in the last of the rounds. It takes no memory. In
    /// each round it takes time for the members, the processes that they may wake, what those may write, and the lists of
    /// edges of the blocks that write members.
    pub fn settle<T: Turns>(&mut self, turns: &mut T)
        ensures rest { state_of self.new ≡ record (state_of self.old) { derived = (state_of self.new).derived; rounds = (state_of self.new).rounds; moves = (state_of self.new).moves; woken = (state_of self.new).woken } }
        ensures settled { HasSettled (state_of self.new) (T.counted turns.old) (T.counted turns.new) }
    {
        self.changes.forget_derived();
        self.find_moves(turns);
        let mut round = 0;
        'rounds: while self.next_round(round, turns) {
            round += 1;
        }
    }

    /// Whether the signal or memory may move in the step.
    pub fn may_move(&self, thing: u32) -> bool
        requires { thing < (state_of self.now).tables.things }
        ensures { IsTrue result ↔ Contains (state_of self.now).moves thing }
    {
        self.moves.contains(thing as usize)
    }

    /// What may move in the step, each once: the inputs that change or may change first, then in the order in which it was
    /// found.
    pub fn moves(&self) -> &[usize]
        ensures value { result.now ≡ (state_of self.now).moves }
        ensures once { IsOnce result.now }
    {
        self.moves.as_slice()
    }

    /// The processes that what may move may wake, each once, in the order in which they were found.
    pub fn woken(&self) -> &[usize]
        ensures value { result.now ≡ (state_of self.now).woken }
        ensures once { IsOnce result.now }
    {
        self.woken.as_slice()
    }

    /// Whether the process can wake in the step by an edge of its list.
    pub fn can_wake(&self, process: u32) -> bool
        requires { process < (state_of self.now).tables.processes }
        ensures { IsTrue result ↔ IsSome (waker_of (state_of self.now) process) }
    {
        self.waker(process).is_some()
    }

    /// The first event signal of the list of the process by which it can wake.
    pub fn waker(&self, process: u32) -> Option<u32>
        requires { process < (state_of self.now).tables.processes }
        ensures value { result ≡ waker_of (state_of self.now) process }
        ensures below { IfSome result (λ signal. signal < (state_of self.now).tables.things) }
    {
        self.find_waker(process, &mut Uncounted)
    }

    /// The trigger of a process, where it is clean: the one event signal by which it can wake, if that is single.
    pub fn trigger(&self, process: u32) -> Option<u32>
        requires { process < (state_of self.now).tables.processes }
        ensures value { result ≡ trigger_of (state_of self.now) process }
        ensures below { IfSome result (λ signal. signal < (state_of self.now).tables.things) }
    {
        self.find_trigger(process, &mut Uncounted)
    }

    /// The number of the round in which the trigger of a clean process became single.
    pub fn round(&self, process: u32) -> u32
        requires process { process < (state_of self.now).tables.processes }
        requires clean { IsSome (trigger_of (state_of self.now) process) }
        ensures { IfSome (trigger_of (state_of self.now) process) (λ trigger. result ≡ round_at (state_of self.now) trigger) }
    {
        match self.trigger(process) {
            Some(trigger) => self.round_at(trigger as usize),
            None => unreachable!(),
        }
    }

    /// Whether a block writes nothing by blocking assignments. What is early for such a block is early for each other such
    /// block with the same trigger, so it need be found for one of them alone.
    pub fn shares_early(&self, process: u32) -> bool
        requires { process < (state_of self.now).tables.processes }
        ensures { IsTrue result ↔ HasNoBlocking (state_of self.now).tables process }
    {
        self.tables.blocking.row(process as usize).is_empty()
    }

    /// Finds what is early for a clean block: what may change in the step before the block is evaluated. It takes no
    /// memory, and time for the members, the processes that they may wake and what those may write.
    pub fn choose<T: Turns>(&mut self, habit: Habit, process: u32, turns: &mut T)
        requires process { process < (state_of self.old).tables.processes }
        requires clean { IsSome (trigger_of (state_of self.old) process) }
        ensures rest { state_of self.new ≡ record (state_of self.old) { early = (state_of self.new).early } }
        ensures early { IfSome (trigger_of (state_of self.old) process) (λ trigger. (x : ℕ) → Contains (state_of self.new).early x ↔ IsEarlyBy (state_of self.old) habit process trigger x) }
        ensures shared { HasNoBlocking (state_of self.old).tables process → (other : ℕ) → HasNoBlocking (state_of self.old).tables other → IfSome (trigger_of (state_of self.old) process) (λ trigger. (x : ℕ) → Contains (state_of self.new).early x ↔ IsEarlyBy (state_of self.old) habit other trigger x) }
        ensures turns { IfSome (trigger_of (state_of self.old) process) (λ trigger. T.counted turns.new ≤ T.counted turns.old + choose_turns (state_of self.new) process trigger) }
    {
        match self.find_trigger(process, turns) {
            Some(trigger) => self.find_early(habit, process as usize, trigger as usize, turns),
            None => unreachable!(),
        }
    }

    /// Whether the signal or memory is early for the block that was chosen last.
    pub fn early(&self, thing: u32) -> bool
        requires { thing < (state_of self.now).tables.things }
        ensures { IsTrue result ↔ Contains (state_of self.now).early thing }
    {
        self.early.contains(thing as usize)
    }

    /// What is early for the block that was chosen last, each once, in the order in which it was found.
    pub fn early_things(&self) -> &[usize]
        ensures value { result.now ≡ (state_of self.now).early }
        ensures once { IsOnce result.now }
    {
        self.early.as_slice()
    }

    /// Finds what may move and which processes that may wake, by what is single now.
    fn find_moves<T: Turns>(&mut self, turns: &mut T)
        ensures rest { state_of self.new ≡ record (state_of self.old) { moves = (state_of self.new).moves; woken = (state_of self.new).woken } }
        ensures moves { HasMoves (state_of self.new) }
        ensures turns { T.counted turns.new ≤ T.counted turns.old + moves_turns (state_of self.new) }
    {
        self.moves.clear();
        self.woken.clear();
        insert_members(&self.noted, &mut self.moves, turns);
        let rule = Rule {
            trigger: None,
            block: None,
        };
        close(
            &self.tables,
            &self.changes,
            rule,
            &mut self.moves,
            &mut self.woken,
            turns,
        );
    }

    /// Goes on from a round to the next one, if something becomes single in it.
    fn next_round<T: Turns>(&mut self, round: u32, turns: &mut T) -> bool
        requires { round ≤ length (state_of self.old).derived }
        ensures rest { state_of self.new ≡ record (state_of self.old) { derived = (state_of self.new).derived; rounds = (state_of self.new).rounds; moves = (state_of self.new).moves; woken = (state_of self.new).woken } }
        ensures last { IsFalse result → (state_of self.new ≡ state_of self.old) × ((x : ℕ) → becomes_single (state_of self.new) x ≡ false) }
        ensures next { IsTrue result → IsNextRound round (state_of self.old) (state_of self.new) }
        ensures more { IsTrue result → (length (state_of self.old).derived < length (state_of self.new).derived) × (length (state_of self.new).derived ≤ (state_of self.new).tables.things) }
        ensures turns { T.counted turns.new ≤ T.counted turns.old + all_check_turns (state_of self.old) + (if result then moves_turns (state_of self.new) else 0) }
    {
        self.find_ready(turns);
        if self.ready.len() == 0 {
            return false;
        }
        self.changes.add_derived(&self.ready, turns);
        number(&self.ready, round + 1, &mut self.rounds, turns);
        self.find_moves(turns);
        true
    }

    /// Finds what becomes single in the next round.
    fn find_ready<T: Turns>(&mut self, turns: &mut T)
        ensures rest { state_of self.new ≡ state_of self.old }
        ensures ready { (x : ℕ) → Contains self.new.ready.items x ↔ (becomes_single (state_of self.old) x ≡ true) }
        ensures turns { T.counted turns.new + 2 * length self.new.ready.items ≤ T.counted turns.old + all_check_turns (state_of self.old) }
    {
        self.ready.clear();
        for place in 0..self.moves.len() {
            turns.count();
            let thing = self.moves.get(place);
            let ready = self.is_ready(thing, turns);
            insert_where(ready, thing, None, &mut self.ready);
        }
    }

    /// Whether a thing that may move becomes single in the next round: it is not yet single, and a block that is evaluated
    /// at most once writes it at most once in each evaluation.
    fn is_ready<T: Turns>(&self, thing: usize, turns: &mut T) -> bool
        requires { thing < (state_of self.now).tables.things }
        ensures value { result ≡ (not (is_single (state_of self.now) thing) && is_written_by (state_of self.now) (writer_at (state_of self.now) thing)) }
        ensures turns { T.counted turns.new ≤ T.counted turns.old + 3 * writer_events (state_of self.now) (writer_at (state_of self.now) thing) }
    {
        match self.writers[thing] {
            Some(writer) => !self.changes.is_single(thing) && self.runs_at_most_once(writer, turns),
            None => false,
        }
    }

    /// Whether a process is evaluated at most once in the step: it cannot wake, or is clean.
    fn runs_at_most_once<T: Turns>(&self, process: u32, turns: &mut T) -> bool
        requires { process < (state_of self.now).tables.processes }
        ensures value { result ≡ runs_at_most_once (state_of self.now) process }
        ensures turns { T.counted turns.new ≤ T.counted turns.old + 3 * length (row_at (state_of self.now).tables.events process) }
    {
        self.find_waker(process, turns).is_none() || self.find_trigger(process, turns).is_some()
    }

    /// The number of the round in which a thing became single.
    fn round_at(&self, thing: usize) -> u32
        requires { thing < (state_of self.now).tables.things }
        ensures { result ≡ round_at (state_of self.now) thing }
    {
        if self.changes.told[thing] {
            0
        } else {
            self.rounds[thing]
        }
    }

    /// The first event signal of the list of the process by which it can wake.
    fn find_waker<T: Turns>(&self, process: u32, turns: &mut T) -> Option<u32>
        requires { process < (state_of self.now).tables.processes }
        ensures value { result ≡ waker_of (state_of self.now) process }
        ensures below { IfSome result (λ signal. signal < (state_of self.now).tables.things) }
        ensures turns { T.counted turns.new ≤ T.counted turns.old + length (row_at (state_of self.now).tables.events process) }
    {
        for (edge, signal) in self.tables.events.row(process as usize) {
            turns.count();
            if self.can_wake_by(*edge, *signal) {
                return Some(*signal);
            }
        }
        None
    }

    /// The trigger of a process, where it is clean.
    fn find_trigger<T: Turns>(&self, process: u32, turns: &mut T) -> Option<u32>
        requires { process < (state_of self.now).tables.processes }
        ensures value { result ≡ trigger_of (state_of self.now) process }
        ensures below { IfSome result (λ signal. signal < (state_of self.now).tables.things) }
        ensures turns { T.counted turns.new ≤ T.counted turns.old + length (row_at (state_of self.now).tables.events process) + length (row_at (state_of self.now).tables.events process) }
    {
        let signal = self.find_waker(process, turns)?;
        if self.changes.is_single(signal as usize) && self.wakes_only_by(process, signal, turns) {
            Some(signal)
        } else {
            None
        }
    }

    /// Finds what is early for a block with this trigger.
    fn find_early<T: Turns>(&mut self, habit: Habit, block: usize, trigger: usize, turns: &mut T)
        requires block { block < (state_of self.old).tables.processes }
        requires trigger { trigger < (state_of self.old).tables.things }
        ensures rest { state_of self.new ≡ record (state_of self.old) { early = (state_of self.new).early } }
        ensures early { (x : ℕ) → Contains (state_of self.new).early x ↔ IsEarlyBy (state_of self.old) habit block trigger x }
        ensures turns { T.counted turns.new ≤ T.counted turns.old + early_turns (state_of self.new) trigger }
    {
        self.early.clear();
        self.early_woken.clear();
        let tables = &self.tables;
        let changes = &self.changes;
        let habit = habit_for(changes, habit, trigger);
        insert_inputs(tables, habit, &self.noted, trigger, &mut self.early, turns);
        wake(tables, changes, trigger, &mut self.early_woken, turns);
        insert_targets(
            tables,
            &self.early_woken,
            block,
            trigger,
            &mut self.early,
            turns,
        );
        self.early_woken.clear();
        let rule = Rule {
            trigger: Some(trigger),
            block: Some(block),
        };
        close(
            tables,
            changes,
            rule,
            &mut self.early,
            &mut self.early_woken,
            turns,
        );
    }

    /// Whether the signal may move by this edge.
    fn can_wake_by(&self, edge: Edge, signal: u32) -> bool
        requires { signal < (state_of self.now).tables.things }
        ensures { result ≡ can_wake_by (state_of self.now) (edge, signal) }
    {
        self.moves.contains(signal as usize) && self.changes.edges(signal as usize).may_be(edge)
    }

    /// Whether the signal is another one than `except` and may move by this edge.
    fn wakes_beside(&self, edge: Edge, signal: u32, except: u32) -> bool
        requires { signal < (state_of self.now).tables.things }
        ensures { result ≡ (not (signal == except) && can_wake_by (state_of self.now) (edge, signal)) }
    {
        signal != except && self.can_wake_by(edge, signal)
    }

    /// Whether the process can wake by no event signal but this one.
    fn wakes_only_by<T: Turns>(&self, process: u32, signal: u32, turns: &mut T) -> bool
        requires { process < (state_of self.now).tables.processes }
        ensures value { result ≡ wakes_only_by (state_of self.now) process signal }
        ensures turns { T.counted turns.new ≤ T.counted turns.old + length (row_at (state_of self.now).tables.events process) }
    {
        for (edge, other) in self.tables.events.row(process as usize) {
            turns.count();
            if self.wakes_beside(*edge, *other, signal) {
                return false;
            }
        }
        true
    }
}
