//! Theorems of one closing step of the replay that its code needs phase by phase; there is no code.
//!
//! In a design without Clocked processes the Assigns and Combs start from what was known, where what is to be made anew is
//! unknown and the dump's values are put in ([`settling_law`]). A process that watches nothing that may move is passed over
//! ([`filter_law`]), and what is to be made anew are the targets of the others, in any order ([`loose_law`]). What may not
//! move stays as it was at the start of the step, before and after each run ([`still_start_law`], [`still_run_law`]), since
//! a process that runs moves what it drives ([`target_law`]). All that holds of the replay after a step holds until the next
//! time that the dump lists ([`rest_law`]). Of what is no cell of the design nothing is ever known ([`blank_first_law`],
//! [`blank_law`]; [`dump_cells_law`] and [`drives_cells_law`] give what they ask), so what two stores know is equal where they agree on the cells of the design.
#![tactic(auto)]

ghost use Rattle.std.specs.Prelude.{◌≡◌, ◌↔◌, ◌<◌, ◌≤◌, ◌+◌, ◌++◌, ℕ, Bool, suc, true, [], List, length};
ghost use Rattle.std.specs.List.{filter, list_any};
ghost use Rattle.event_machine.specs.Cell.{Cell, Values};
ghost use Rattle.replay_model.specs.four_state.declared.bit.Bit.{Bit};
ghost use Rattle.replay_model.specs.design_model.Design.{Design, In, body_at};
ghost use Rattle.replay_model.specs.design_model.Mentions.{blocking_target, body_blocks};
ghost use Rattle.replay_model.specs.design_model.Shows.{BoundDump, IsListed, IsWindow};
ghost use Rattle.replay_model.specs.hidden_times.Hidden.{IsAnyDumpOf, IsCalm};
ghost use Rattle.replay_model.specs.design_model.declared.point.Point.{Point};
ghost use Rattle.replay_model.specs.model_laws.Own.{HasOwnWakes};
ghost use Rattle.replay_model.specs.body_replay.Runs.{Runs};
ghost use Rattle.replay_model.specs.Laws.{IsReplayOf, closing_at};
ghost use Rattle.replay_model.specs.Stands.{Stands};
ghost use Rattle.replay_model.specs.Start.{started};
ghost use Rattle.replay_model.specs.Sets.{AreSets, Sets};
ghost use Rattle.replay_model.specs.Step.{Closing, Replay, Working, all_run, clocked_run, is_loose, is_touched, opened, run_all_settling, run_settling, settle_start};
ghost use Rattle.replay_model.specs.Tables.{AreTables, Tables};
ghost use Rattle.event_machine.specs.Habit.{Habit};
ghost use Rattle.replay_steps.specs.Blank.{DrivesCells, HasDumpCells, IsBlank};
ghost use Rattle.replay_steps.specs.Settling.{IsDumpStill, IsStillAt, MoveTargets, settled_start};

/// Without Clocked processes the Assigns and Combs start from what was known at the start of the step.
pub fn settling_law()
    ensures clocked { (st : Closing) → st.tables.clocked ≡ [] → clocked_run st ≡ opened st }
    ensures kept { (st : Closing) (c : Cell) → st.tables.clocked ≡ [] → (settle_start st (clocked_run st)).kept c ≡ (settled_start st).kept c }
    ensures made { (st : Closing) (c : Cell) → st.tables.clocked ≡ [] → (settle_start st (clocked_run st)).made c ≡ (settled_start st).made c }
{}

/// A process that watches nothing that may move changes nothing.
pub fn filter_law()
    ensures { (st : Closing) (ordered : Bool) (ps : List ℕ) (w : Working) → run_all_settling st ordered ps w ≡ run_all_settling st ordered (filter (is_touched st) ps) w }
{}

/// What is to be made anew are the targets of the processes that watch something that may move.
pub fn loose_law()
    ensures { (st : Closing) (c : Cell) (woken : List ℕ) → ((p : ℕ) → In p woken ↔ (In p (st.tables.order ++ st.tables.last) × (is_touched st p ≡ true)))
        → is_loose st c ≡ list_any (λ p. blocking_target st.design (body_at st.design p) c) woken }
{}

/// What may not move is as it was before the first of them runs.
pub fn still_start_law()
    ensures { (st : Closing) → st.tables.clocked ≡ [] → MoveTargets st → IsDumpStill st → IsStillAt st (settle_start st (clocked_run st)) }
{}

/// It stays so with each run, and so after all of them.
pub fn still_run_law()
    ensures one { (st : Closing) (ordered : Bool) (p : ℕ) (w : Working) → MoveTargets st → IsStillAt st w → IsStillAt st (run_settling st ordered p w) }
    ensures all { (st : Closing) → st.tables.clocked ≡ [] → MoveTargets st → IsDumpStill st → IsStillAt st (all_run st) }
{}

/// A process that watches something that may move drives what may move.
pub fn target_law()
    ensures { (d : Design) (h : Habit) (dump : BoundDump) (run : Runs) (tables : Tables) (sets : Sets) (t : ℕ) (a : Replay) → AreTables d dump.bound tables → AreSets d h dump (suc t) sets
        → MoveTargets (closing_at d dump run tables sets t a) }
{}

/// Over times that the dump does not list all stays that holds of the replay, where each input is bound or the time before is one
/// that the dump does not list.
pub fn rest_law()
    ensures { (d : Design) (h : Habit) (dump : BoundDump) (run : Runs) (tables : Tables) (points : List Point) → IsReplayOf d h dump run tables points → HasOwnWakes d
        → (t : ℕ) (n : ℕ) (a : Replay) → IsCalm d dump t → ((u : ℕ) → t < u → u ≤ t + n → IsWindow dump u × (IsListed dump u → ⊥)) → Stands d h dump tables points t a → Stands d h dump tables points (t + n) a }
{}

/// A dump of a design has cells of the design alone.
pub fn dump_cells_law()
    ensures { (d : Design) (dump : BoundDump) → IsAnyDumpOf d dump → HasDumpCells d dump.bound }
{}

/// A process that drives signals alone drives cells of the design.
pub fn drives_cells_law()
    ensures { (d : Design) (p : ℕ) → ((x : ℕ) → body_blocks x (body_at d p) ≡ true → x < length d.signals) → DrivesCells d p }
{}

/// Where processes drive cells of the design, nothing is known of other cells after the first step.
pub fn blank_first_law()
    ensures { (d : Design) (bound : ℕ → Bool) (run : Runs) (tables : Tables) (new : Values Bit) (before : Replay) → HasDumpCells d bound → ((p : ℕ) → DrivesCells d p) → IsBlank d (started d bound run tables new before).kept }
{}

/// It stays so before the first run of a step, with each run, and after the step.
pub fn blank_law()
    ensures start { (st : Closing) → st.tables.clocked ≡ [] → HasDumpCells st.design st.bound → IsBlank st.design st.start.kept → IsBlank st.design (settle_start st (clocked_run st)).kept }
    ensures one { (st : Closing) (ordered : Bool) (p : ℕ) (w : Working) → DrivesCells st.design p → IsBlank st.design w.kept → IsBlank st.design (run_settling st ordered p w).kept }
    ensures all { (st : Closing) → st.tables.clocked ≡ [] → HasDumpCells st.design st.bound → ((p : ℕ) → DrivesCells st.design p) → IsBlank st.design st.start.kept → IsBlank st.design (all_run st).kept }
{}
