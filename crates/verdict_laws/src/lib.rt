//! Theorems that bring the verdicts of a replay to the rows of a table; there is no code.
//!
//! Where the rows of a table have the verdicts of what a replay reported, in the order of the points, and the verdicts of the
//! replay are sound, the table is sound: each point marked hit is hit and each point marked missed is never hit, in every
//! run of the design that shows the dump ([`sound_law`]). Where they are reasoned, so is the table: each undetermined
//! point names a signal or memory and a time at which this is in doubt for it ([`reasoned_law`]). A row names one point
//! of the design ([`one_point_law`]), and a verdict can be written where the times of the dump can ([`written_law`]).
#![tactic(auto)]

ghost use Rattle.std.specs.Prelude.{◌≡◌, ◌<◌, ◌^◌, [], ℕ, List, All, length, slice_index_or};
ghost use Rattle.coverage_db.specs.Table.{IsTable};
ghost use Rattle.coverage_db.specs.declared.db.Db.{Db};
ghost use Rattle.coverage_db.specs.declared.db.DbInstance.{DbInstance};
ghost use Rattle.coverage_db.specs.declared.db.DbPoint.{DbPoint};
ghost use Rattle.coverage_db.specs.declared.verdict.DbVerdict.TheVariants as verdict;
ghost use Rattle.mark_laws.specs.cover_points.Listed.{IsPointList, points_of};
ghost use Rattle.mark_laws.specs.cover_points.Visits.{point_at};
ghost use Rattle.mark_laws.specs.cover_points.declared.listing.Points.{Points};
ghost use Rattle.design_model.specs.Design.{Design};
ghost use Rattle.design_model.specs.Lawful.{IsLawfulDesign};
ghost use Rattle.design_model.specs.Points.{IsHit};
ghost use Rattle.mark_laws.specs.cover_points.design_machines.state_machines.Drawn.{IsPointWith};
ghost use Rattle.mark_laws.specs.cover_points.design_machines.state_machines.Machines.{StateMachines};
ghost use Rattle.design_model.specs.Run.{Run};
ghost use Rattle.design_model.specs.Shows.{BoundDump, IsListed, IsWindow};
ghost use Rattle.design_model.specs.declared.point.Point.{Point};
ghost use Rattle.event_machine.specs.Habit.{Habit};
ghost use Rattle.mark_laws.specs.Marked.{AreVerdicts};
ghost use Rattle.point_marks.specs.declared.verdict.Verdict.{Verdict};
ghost use Rattle.table_laws.specs.point_table.Collected.{IsCollected};
ghost use Rattle.table_laws.specs.point_table.Verdicts.{AreShown, no_row};
ghost use Rattle.mark_laws.specs.replay_model.Laws.{AreReasonedVerdicts, AreSoundVerdicts};
ghost use Rattle.mark_laws.specs.replay_model.Step.{Replay};
ghost use Rattle.table_laws.specs.Rows.{IsAddressOf};
ghost use Rattle.table_laws.specs.Written.{IsWritten, IsWrittenMachine, IsWrittenVerdict};
ghost use Rattle.verdict_laws.specs.Reasoned.{IsReachedPoint, IsReasoned, IsReasonedRow};
ghost use Rattle.verdict_laws.specs.Sound.{IsShownBy, IsSound, IsSoundRow};

pub use table_laws::collect;

/// A row of a table names one point of the design, that of its own number.
pub fn one_point_law()
    ensures { (d : Design) (sources : List (List ℕ)) (ms : StateMachines) (ps : Points) (db : Db) → IsLawfulDesign d → IsWritten sources d → IsPointList d ms ps
        → All IsWrittenMachine ps.machines.items → IsCollected d sources ps db → IsTable db → (x : Point) (k : ℕ) → IsPointWith d ms x → k < length db.points
        → IsAddressOf d db.instances x (slice_index_or db.points k no_row).address → x ≡ point_at ps k }
{}

/// Where the verdicts of a replay are sound, so is a table that has them.
pub fn sound_law()
    ensures { (d : Design) (h : Habit) (dump : BoundDump) (sources : List (List ℕ)) (ms : StateMachines) (ps : Points) (verdicts : List Verdict) (a : Replay) (db : Db)
        → IsLawfulDesign d → IsWritten sources d → IsPointList d ms ps → All IsWrittenMachine ps.machines.items → IsCollected d sources ps db → IsTable db
        → AreShown d verdicts db.points → AreVerdicts d ps a.notes verdicts → AreSoundVerdicts d h dump (points_of ps) a → IsSound d h dump ms db }
{}

/// Where they are reasoned, so is the table.
pub fn reasoned_law()
    ensures { (d : Design) (h : Habit) (dump : BoundDump) (sources : List (List ℕ)) (ms : StateMachines) (ps : Points) (verdicts : List Verdict) (a : Replay) (db : Db)
        → IsLawfulDesign d → IsWritten sources d → IsPointList d ms ps → All IsWrittenMachine ps.machines.items → IsCollected d sources ps db → IsTable db
        → AreShown d verdicts db.points → AreVerdicts d ps a.notes verdicts → AreReasonedVerdicts d h dump (points_of ps) a → IsReasoned d h dump ms db }
{}

/// The verdicts of a replay can be written in a table, where the times that the dump lists can: a doubt is of a signal or memory of
/// the design, at a time before the last.
pub fn written_law()
    ensures { (d : Design) (h : Habit) (dump : BoundDump) (ms : StateMachines) (ps : Points) (verdicts : List Verdict) (a : Replay)
        → IsLawfulDesign d → IsPointList d ms ps → ((t : ℕ) → IsListed dump t → t < 2 ^ 63) → AreVerdicts d ps a.notes verdicts
        → AreReasonedVerdicts d h dump (points_of ps) a → All (IsWrittenVerdict d) verdicts }
{}

/// Under a dump without a time of its window, as one of two times, nothing is reported, and this is sound and reasoned.
pub fn no_step_law()
    ensures sound { (d : Design) (h : Habit) (dump : BoundDump) (points : List Point) (a : Replay) → ((t : ℕ) → IsWindow dump t → ⊥) → a.notes ≡ [] → AreSoundVerdicts d h dump points a }
    ensures reasoned { (d : Design) (h : Habit) (dump : BoundDump) (points : List Point) (a : Replay) → ((t : ℕ) → IsWindow dump t → ⊥) → a.notes ≡ [] → AreReasonedVerdicts d h dump points a }
{}

/// What the definitions refuse: a table that marks a point missed which a run that shows the dump hits, or hit which such a run does not
/// hit, and one that leaves a point undetermined which a block reaches.
pub fn refused_examples()
    ensures missed { (d : Design) (h : Habit) (dump : BoundDump) (ms : StateMachines) (rows : List DbInstance) (row : DbPoint) (x : Point) (r : Run) → row.verdict ≡ verdict.Missed
        → IsPointWith d ms x → IsAddressOf d rows x row.address → IsShownBy d h dump r → IsHit d dump r x → IsSoundRow d h dump ms rows row → ⊥ }
    ensures hit { (d : Design) (h : Habit) (dump : BoundDump) (ms : StateMachines) (rows : List DbInstance) (row : DbPoint) (x : Point) (r : Run) → row.verdict ≡ verdict.Hit
        → IsPointWith d ms x → IsAddressOf d rows x row.address → IsShownBy d h dump r → (IsHit d dump r x → ⊥) → IsSoundRow d h dump ms rows row → ⊥ }
    ensures open { (d : Design) (h : Habit) (dump : BoundDump) (x : Point) (row : DbPoint) (time : ℕ) (path : List ℕ) → row.verdict ≡ verdict.Undetermined time path
        → IsReachedPoint d h dump x → IsReasonedRow d h dump x row → ⊥ }
{}
