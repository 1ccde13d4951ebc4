//! The elaborated design, and the definitions of its runs and of its coverage with their theorems.
//!
//! [`Design`] is the flat list of instances, signals, memories, processes, constants and aliases that elaboration
//! builds; [`Design::path`] gives the path of a signal or memory, and [`Design::add_process`] adds a process and
//! nothing else. `specs/` has one module for each definition: the machine of a design, its runs, which runs show a
//! dump, the coverage points and when a run hits one, and what a dump decides (clear, open, reached, in doubt).
//!
//! The functions of this file do no work: their contracts are the theorems of these definitions. What is clear has
//! its settled value in every run that shows the dump ([`clear_law`]), what is reached is hit in each of them
//! ([`reached_law`]), and where nothing is in doubt for a point, no two of them differ in whether it is hit
//! ([`decided_law`]).
#![tactic(auto)]

ghost use Rattle.event_machine.specs.Habit.{Habit};
ghost use Rattle.event_machine.specs.Machine.{IsLawful};
ghost use Rattle.design_model.specs.Design.{Design as DesignTree};
ghost use Rattle.design_model.specs.Machine.{machine};
ghost use Rattle.design_model.specs.Lawful.{IsLawfulDesign};
ghost use Rattle.design_model.specs.ToggleLaw.{ToggleLaw};
ghost use Rattle.design_model.specs.BodyLaws.{AssignLineLaw, AssignVisitsLaw, ListedMemoryLaw, MentionReadLaw, OwnNotClearLaw, OwnUnclearLaw, OwnWakeLaw, PathMentionsLaw, SettledSignalsLaw, TargetCellsLaw, TargetNamesLaw, WordVisitsLaw, WrittenCellsLaw};
ghost use Rattle.design_model.specs.RoundLaws.{DecidedRoundsLaw, EndingRoundsLaw, FirstRoundsLaw, GrowingRoundsLaw, LastRoundsLaw};
ghost use Rattle.design_model.specs.StepLaws.{AssignQueuesLaw, StepFactsLaw, EventFactsLaw, CleanStepLaw, LeftStaysLaw, UnlistedLaw};
ghost use Rattle.design_model.specs.MoreKnown.{MoreKnownLaw};
ghost use Rattle.design_model.specs.StillLaw.{StillLaw};
ghost use Rattle.design_model.specs.Laws.{BoundClearLaw, ClearLaw, ContradictionLaw, ForcedLaw, ClearValueLaw, ClearRoundsLaw, ClearClosedLaw, ClearLeastLaw, ReachedLaw, DefinitenessLaw, BoundPointLaw};
ghost use Rattle.design_model.specs.VisitedOpen.{VisitedOpenLaw};
ghost use Rattle.design_model.specs.DecidedLaw.{SignalDecidedLaw, ClockedDecidedLaw, SettledDecidedLaw};

mod design;
mod examples;
mod map;
mod point;
mod tree;

pub use cov_host::{NoMemory, Place};
pub use design::{Alias, Constant, Design, Instance, Memory, Range, Signal};
pub use examples::{
    bit_of_word, memory_word, moving_input, steady_register, undumped_net, undumped_register,
};
pub use map::PartialMap;
pub use point::Point;
pub use point_words::{LineWord, NodeCase};
pub use tree::{CaseArm, Form, Process, Stmt, StmtForm, Target, Term};

/// The machine of a lawful design is lawful, so the laws of the event machine hold for it.
pub fn lawful_machine()
    ensures { (d : DesignTree) → IsLawfulDesign d → IsLawful (machine d) }
{}

/// In each round of single cells finite tests decide which process can wake, and so each round grows on the one before,
/// and there is a last one. A dump that is read by first rounds has its bound inputs alone as single cells, and each dump
/// can be read by last rounds.
pub fn rounds_law()
    ensures decided { (d : DesignTree) → IsLawfulDesign d → DecidedRoundsLaw d }
    ensures grows { (d : DesignTree) → IsLawfulDesign d → GrowingRoundsLaw d }
    ensures ends { (d : DesignTree) → IsLawfulDesign d → EndingRoundsLaw d }
    ensures first { (d : DesignTree) → FirstRoundsLaw d }
    ensures last { (d : DesignTree) → IsLawfulDesign d → LastRoundsLaw d }
{}

/// What the dump decides holds in each run that shows it up to the time: what is clear, and, where there is such a run,
/// what is forced. So where a forced value is not the dump's, no run shows the dump up to that time.
pub fn clear_law()
    ensures clear { (d : DesignTree) (h : Habit) → IsLawfulDesign d → ClearLaw d h }
    ensures forced { (d : DesignTree) (h : Habit) → IsLawfulDesign d → ForcedLaw d h }
    ensures contradiction { (d : DesignTree) (h : Habit) → IsLawfulDesign d → ContradictionLaw d h }
    ensures one_value { (d : DesignTree) (h : Habit) → IsLawfulDesign d → ClearValueLaw d h }
{}

/// What the laws of the machine say of each step of a run that shows the dump up to the step's time: of the settled
/// values at its ends, and of its events. A clean block has its step, and at a time that the dump does not list, where
/// all inputs are bound, nothing happens. What a process has left stays so, also where the dump is off.
pub fn step_law()
    ensures facts { (d : DesignTree) (h : Habit) → IsLawfulDesign d → StepFactsLaw d h }
    ensures events { (d : DesignTree) (h : Habit) → IsLawfulDesign d → EventFactsLaw d h }
    ensures clean_step { (d : DesignTree) (h : Habit) → IsLawfulDesign d → CleanStepLaw d h }
    ensures unlisted { (d : DesignTree) (h : Habit) → IsLawfulDesign d → UnlistedLaw d h }
    ensures left { (d : DesignTree) (h : Habit) → IsLawfulDesign d → LeftStaysLaw d h }
{}

/// What is clear grows from round to round, is closed under its rules, and is the least map that is. A bound signal is
/// clear, with the dump's value.
pub fn clear_rounds_law()
    ensures rounds { (d : DesignTree) (h : Habit) → ClearRoundsLaw d h }
    ensures closed { (d : DesignTree) (h : Habit) → IsLawfulDesign d → ClearClosedLaw d h }
    ensures bound { (d : DesignTree) (h : Habit) → BoundClearLaw d h }
    ensures least { (d : DesignTree) (h : Habit) → ClearLeastLaw d h }
{}

/// In a run that shows the dump, a toggle point of a signal that the dump has is hit exactly where the dump toggles it.
pub fn toggle_law()
    ensures { (d : DesignTree) (h : Habit) → ToggleLaw d h }
{}

/// Each point that a block of it reaches at a window time is hit in each run that shows the dump up to that time.
pub fn reached_law()
    ensures { (d : DesignTree) (h : Habit) → IsLawfulDesign d → ReachedLaw d h }
{}

/// Nothing is in doubt for the line and logic points of a block that is clean whenever it can wake, of which all that
/// it mentions is bound, and of that only the trigger is early; nor for the toggle, state and arc points of a
/// signal that the dump has.
pub fn definiteness_law()
    ensures blocks { (d : DesignTree) (h : Habit) → DefinitenessLaw d h }
    ensures signals { (d : DesignTree) (h : Habit) → BoundPointLaw d h }
{}

/// Where each input is bound, what is clear at a time of the window that the dump does not list is what was clear the
/// moment before.
pub fn still_law()
    ensures { (d : DesignTree) (h : Habit) → IsLawfulDesign d → StillLaw d h }
{}

/// Of two partial maps of which the second has each value of the first: what a body visits, has surely open and
/// reaches from the first it does from the second too, and what is open from the second is open from the first.
pub fn more_known_law<K: PartialMap, L: PartialMap>()
    ensures { (d : DesignTree) → MoreKnownLaw d K.has L.has }
{}

/// What a body visits, on a state that agrees with a partial map, is open from the map.
pub fn visited_open_law<K: PartialMap>()
    ensures { (d : DesignTree) → VisitedOpenLaw d K.has }
{}

/// At a window time at which nothing is in doubt for a point, two runs that show the dump do not differ in whether it is
/// hit.
pub fn decided_law()
    ensures signals { (d : DesignTree) (h : Habit) → IsLawfulDesign d → SignalDecidedLaw d h }
    ensures clocked { (d : DesignTree) (h : Habit) → IsLawfulDesign d → ClockedDecidedLaw d h }
    ensures settled { (d : DesignTree) (h : Habit) → IsLawfulDesign d → SettledDecidedLaw d h }
{}

/// What a process writes is of the design and among its targets, which are the same by name and by cell; what it may
/// read on some path it mentions; an Assign or Comb assigns and lists signals alone.
pub fn body_law()
    ensures written_cells { (d : DesignTree) → IsLawfulDesign d → WrittenCellsLaw d }
    ensures target_names { (d : DesignTree) → IsLawfulDesign d → TargetNamesLaw d }
    ensures target_cells { (d : DesignTree) → TargetCellsLaw d }
    ensures word_visits { (d : DesignTree) → IsLawfulDesign d → WordVisitsLaw d }
    ensures path_mentions { (d : DesignTree) → PathMentionsLaw d }
    ensures settled_signals { (d : DesignTree) → IsLawfulDesign d → SettledSignalsLaw d }
    ensures listed_memory { (d : DesignTree) → IsLawfulDesign d → ListedMemoryLaw d }
{}

/// An Assign queues no update. What it visits depends on its wake cells alone, it reads each signal that it mentions, and
/// no line of it is a line point. A signal that it both drives and mentions has a wake bit of it, or no bit that it reads, and is clear only
/// where the dump has it.
pub fn assign_law()
    ensures queues { (d : DesignTree) → AssignQueuesLaw d }
    ensures visits { (d : DesignTree) → IsLawfulDesign d → AssignVisitsLaw d }
    ensures lines { (d : DesignTree) → AssignLineLaw d }
    ensures mention_read { (d : DesignTree) → IsLawfulDesign d → MentionReadLaw d }
    ensures own_unclear { (d : DesignTree) → IsLawfulDesign d → OwnUnclearLaw d }
    ensures own_not_clear { (d : DesignTree) → IsLawfulDesign d → OwnNotClearLaw d }
    ensures own_wake { (d : DesignTree) → IsLawfulDesign d → OwnWakeLaw d }
{}
