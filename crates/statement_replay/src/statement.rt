//! The run of a statement, form by form (IEEE 1364-2001, clause 9).

ghost use Rattle.std.specs.Prelude.{Bool, List, None, [], false, if◌then◌else◌, length, map, true, ℕ, ◌&&◌, ◌+◌, ◌≡◌, ◌≤◌};
ghost use Rattle.design_model.specs.Design.{Design, nowhere};
ghost use Rattle.design_model.specs.Shape.{are_bodies, is_body};
ghost use Rattle.design_model.specs.Tree as t;
ghost use Rattle.design_model.specs.View.{arms_of, stmt_view, stmts_of, term_view, terms_of};
ghost use Rattle.value_store.specs.body_replay.Replay.{State, decide, run as run_of, run_all as run_all_of, run_arms as run_arms_of, run_default as run_default_of};
ghost use Rattle.value_store.specs.Rooms.{arm_view};
ghost use Rattle.open_tests.specs.body_calls.Rooms.{Leaves};
ghost use Rattle.case_labels.specs.scene_laws.At.{IsState};
ghost use Rattle.open_tests.specs.assignments.Takes.{HasRoom};
ghost use Rattle.open_tests.specs.assignments.Widths.{HasWidths};
ghost use Rattle.open_tests.specs.Views.{else_view};
ghost use Rattle.open_tests.specs.Weights.{HasRoomFor, HasRoomForAll, LeavesBy, LeavesByAll, all_logs, all_queues, arm_logs, arm_queues, arms_logs, arms_queues, default_logs, default_queues, logs, queues};
ghost use Rattle.known_state.specs.Partly.{is_whole};
ghost use Rattle.design_model.specs.Execution.{is_default};
ghost use Rattle.open_tests.specs.body_calls.Ways.{Around};
ghost use Rattle.case_labels.specs.scene_laws.Contexts.{AreArms, AreLabels};
ghost use Rattle.open_tests.specs.Arms.{IsAfter, arm_of, opened_by};
ghost use Rattle.open_tests.specs.Open.{AreSecond};

use case_labels::{matched, within};
use design_model::{CaseArm, Stmt, StmtForm, Term};
use four_state::CaseKind;
use known_state::{Known, Maybe};
use open_tests::{AfterArm, Bodies, Notes, Piece, Progress, Spot, assign, end_tests, evaluate};
use value_store::Queue;

/// Runs a statement on what the store knows. What is returned is the blame of the first read of the run that was not wholly
/// sure. No part of an assignment is left in `pieces`, which is scratch room.
#[cycle(statements)]
pub fn run_statement<B: Bodies, N: Notes>(
    store: &mut B,
    stmt: &Stmt,
    run: Progress,
    pieces: &mut Queue<Piece>,
    notes: &mut N,
) -> Option<u32>
    requires lawful { is_body (B.scene store.old).design (stmt_view stmt.now) ≡ true }
    requires widths { HasWidths (B.scene store.old).design }
    requires room { HasRoomFor (stmt_view stmt.now) (B.around store.old) (B.rooms store.old) }
    requires none { pieces.old.items ≡ [] }
    requires scratch { 128 ≤ pieces.old.room }
    ensures state { (start : N.Start) (d : Design) (a : State) → IsState d a run.first (B.scene store.old) (B.queued store.old) (λ ms. N.noted start ms notes.old) → IsState d (run_of d (stmt_view stmt.now) run.mode a) result (B.scene store.new) (B.queued store.new) (λ ms. N.noted start ms notes.new) }
    ensures design { (B.scene store.new).design ≡ (B.scene store.old).design }
    ensures around { B.around store.new ≡ B.around store.old }
    ensures under { B.under store.new ≡ B.under store.old }
    ensures rooms { LeavesBy (stmt_view stmt.now) (B.around store.old) (B.rooms store.old) (B.rooms store.new) }
    ensures pieces { pieces.new ≡ pieces.old }
{
    match &*stmt.form {
        StmtForm::Block(parts) => run_all(store, parts, run, pieces, notes),
        StmtForm::If {
            line,
            test,
            yes,
            no,
        } => run_if(store, *line, no, test, yes, run, pieces, notes),
        StmtForm::Case {
            line,
            kind,
            on,
            arms,
        } => run_case(store, *line, *kind, arms, on, run, pieces, notes),
        StmtForm::Turns { line, turns } => {
            notes.note(Spot::Line(*line), run.mode);
            run_all(store, turns, run, pieces, notes)
        }
        StmtForm::Set {
            line,
            blocking,
            target,
            value,
        } => assign(store, *line, *blocking, target, value, run, pieces, notes),
        StmtForm::Empty => run.first,
    }
}

/// Statements, one after the other.
#[cycle(statements)]
fn run_all<B: Bodies, N: Notes>(
    store: &mut B,
    stmts: &[Stmt],
    run: Progress,
    pieces: &mut Queue<Piece>,
    notes: &mut N,
) -> Option<u32>
    requires lawful { are_bodies (B.scene store.old).design (stmts_of (map stmt_view stmts.now)) ≡ true }
    requires widths { HasWidths (B.scene store.old).design }
    requires room { HasRoomForAll (stmts_of (map stmt_view stmts.now)) (B.around store.old) (B.rooms store.old) }
    requires none { pieces.old.items ≡ [] }
    requires scratch { 128 ≤ pieces.old.room }
    ensures state { (start : N.Start) (d : Design) (a : State) → IsState d a run.first (B.scene store.old) (B.queued store.old) (λ ms. N.noted start ms notes.old) → IsState d (run_all_of d (stmts_of (map stmt_view stmts.now)) run.mode a) result (B.scene store.new) (B.queued store.new) (λ ms. N.noted start ms notes.new) }
    ensures design { (B.scene store.new).design ≡ (B.scene store.old).design }
    ensures around { B.around store.new ≡ B.around store.old }
    ensures under { B.under store.new ≡ B.under store.old }
    ensures rooms { LeavesByAll (stmts_of (map stmt_view stmts.now)) (B.around store.old) (B.rooms store.old) (B.rooms store.new) }
    ensures pieces { pieces.new ≡ pieces.old }
{
    let mut first = run.first;
    for stmt in stmts {
        first = run_statement(store, stmt, run.after(first), pieces, notes);
    }
    first
}

/// The else branch of a condition, if there is one.
#[cycle(statements)]
fn run_else<B: Bodies, N: Notes>(
    store: &mut B,
    branch: &Option<Stmt>,
    run: Progress,
    pieces: &mut Queue<Piece>,
    notes: &mut N,
) -> Option<u32>
    requires lawful { are_bodies (B.scene store.old).design (else_view branch.now) ≡ true }
    requires widths { HasWidths (B.scene store.old).design }
    requires room { HasRoomForAll (else_view branch.now) (B.around store.old) (B.rooms store.old) }
    requires none { pieces.old.items ≡ [] }
    requires scratch { 128 ≤ pieces.old.room }
    ensures state { (start : N.Start) (d : Design) (a : State) → IsState d a run.first (B.scene store.old) (B.queued store.old) (λ ms. N.noted start ms notes.old) → IsState d (run_all_of d (else_view branch.now) run.mode a) result (B.scene store.new) (B.queued store.new) (λ ms. N.noted start ms notes.new) }
    ensures design { (B.scene store.new).design ≡ (B.scene store.old).design }
    ensures around { B.around store.new ≡ B.around store.old }
    ensures under { B.under store.new ≡ B.under store.old }
    ensures rooms { LeavesByAll (else_view branch.now) (B.around store.old) (B.rooms store.old) (B.rooms store.new) }
    ensures pieces { pieces.new ≡ pieces.old }
{
    match branch {
        Some(stmt) => run_statement(store, stmt, run, pieces, notes),
        None => run.first,
    }
}

/// A condition (IEEE 1364-2001, clause 9.4): one of its branches, or where it is not decided both.
#[cycle(statements)]
fn run_if<B: Bodies, N: Notes>(
    store: &mut B,
    line: u32,
    no: &Option<Stmt>,
    test: &Term,
    yes: &Stmt,
    run: Progress,
    pieces: &mut Queue<Piece>,
    notes: &mut N,
) -> Option<u32>
    requires lawful { is_body (B.scene store.old).design (t.branch nowhere line (term_view test.now) (stmt_view yes.now) (else_view no.now)) ≡ true }
    requires widths { HasWidths (B.scene store.old).design }
    requires room { HasRoomFor (t.branch nowhere line (term_view test.now) (stmt_view yes.now) (else_view no.now)) (B.around store.old) (B.rooms store.old) }
    requires none { pieces.old.items ≡ [] }
    requires scratch { 128 ≤ pieces.old.room }
    ensures state { (start : N.Start) (d : Design) (a : State) → IsState d a run.first (B.scene store.old) (B.queued store.old) (λ ms. N.noted start ms notes.old) → IsState d (run_of d (t.branch nowhere line (term_view test.now) (stmt_view yes.now) (else_view no.now)) run.mode a) result (B.scene store.new) (B.queued store.new) (λ ms. N.noted start ms notes.new) }
    ensures design { (B.scene store.new).design ≡ (B.scene store.old).design }
    ensures around { B.around store.new ≡ B.around store.old }
    ensures under { B.under store.new ≡ B.under store.old }
    ensures rooms { LeavesBy (t.branch nowhere line (term_view test.now) (stmt_view yes.now) (else_view no.now)) (B.around store.old) (B.rooms store.old) (B.rooms store.new) }
    ensures pieces { pieces.new ≡ pieces.old }
{
    notes.note(Spot::Line(line), run.mode);
    let test = evaluate(store, test, run, notes);
    let run = run.after(test.first);
    match test.value.holds() {
        Maybe::Yes => run_statement(store, yes, run, pieces, notes),
        Maybe::No => run_else(store, no, run, pieces, notes),
        Maybe::Unsure(thing) => run_both(store, thing, no, yes, run, pieces, notes),
    }
}

/// Both branches of a condition that is not decided, for which this thing is to blame.
#[cycle(statements)]
fn run_both<B: Bodies, N: Notes>(
    store: &mut B,
    test: u32,
    no: &Option<Stmt>,
    yes: &Stmt,
    run: Progress,
    pieces: &mut Queue<Piece>,
    notes: &mut N,
) -> Option<u32>
    requires lawful { (is_body (B.scene store.old).design (stmt_view yes.now) && are_bodies (B.scene store.old).design (else_view no.now)) ≡ true }
    requires widths { HasWidths (B.scene store.old).design }
    requires room { HasRoom (1 + logs (B.rooms store.old).takes (B.rooms store.old).takes (stmt_view yes.now) + all_logs (B.rooms store.old).takes (B.rooms store.old).takes (else_view no.now)) (queues (stmt_view yes.now) + all_queues (else_view no.now)) (B.rooms store.old) }
    requires none { pieces.old.items ≡ [] }
    requires scratch { 128 ≤ pieces.old.room }
    ensures state { (start : N.Start) (d : Design) (a : State) → IsState d a run.first (B.scene store.old) (B.queued store.old) (λ ms. N.noted start ms notes.old) → IsState d (decide d run.mode test (run_of d (stmt_view yes.now)) (run_all_of d (else_view no.now)) None a) result (B.scene store.new) (B.queued store.new) (λ ms. N.noted start ms notes.new) }
    ensures design { (B.scene store.new).design ≡ (B.scene store.old).design }
    ensures around { B.around store.new ≡ B.around store.old }
    ensures under { B.under store.new ≡ B.under store.old }
    ensures rooms { Leaves (1 + logs (B.rooms store.old).takes (B.rooms store.old).takes (stmt_view yes.now) + all_logs (B.rooms store.old).takes (B.rooms store.old).takes (else_view no.now)) (queues (stmt_view yes.now) + all_queues (else_view no.now)) (B.rooms store.old) (B.rooms store.new) }
    ensures pieces { pieces.new ≡ pieces.old }
{
    store.begin_test(test);
    let inside = within(run, test);
    let first = run_statement(store, yes, inside, pieces, notes);
    store.second_branch();
    let first = run_else(store, no, inside.after(first), pieces, notes);
    store.end_test();
    first
}

/// A case statement (IEEE 1364-2001, clause 9.5).
#[cycle(statements)]
fn run_case<B: Bodies, N: Notes>(
    store: &mut B,
    line: u32,
    kind: CaseKind,
    arms: &[CaseArm],
    on: &Term,
    run: Progress,
    pieces: &mut Queue<Piece>,
    notes: &mut N,
) -> Option<u32>
    requires lawful { is_body (B.scene store.old).design (t.select nowhere line kind (term_view on.now) (arms_of (map arm_view arms.now))) ≡ true }
    requires widths { HasWidths (B.scene store.old).design }
    requires room { HasRoomFor (t.select nowhere line kind (term_view on.now) (arms_of (map arm_view arms.now))) (B.around store.old) (B.rooms store.old) }
    requires none { pieces.old.items ≡ [] }
    requires scratch { 128 ≤ pieces.old.room }
    ensures state { (start : N.Start) (d : Design) (a : State) → IsState d a run.first (B.scene store.old) (B.queued store.old) (λ ms. N.noted start ms notes.old) → IsState d (run_of d (t.select nowhere line kind (term_view on.now) (arms_of (map arm_view arms.now))) run.mode a) result (B.scene store.new) (B.queued store.new) (λ ms. N.noted start ms notes.new) }
    ensures design { (B.scene store.new).design ≡ (B.scene store.old).design }
    ensures around { B.around store.new ≡ B.around store.old }
    ensures under { B.under store.new ≡ B.under store.old }
    ensures rooms { LeavesBy (t.select nowhere line kind (term_view on.now) (arms_of (map arm_view arms.now))) (B.around store.old) (B.rooms store.old) (B.rooms store.new) }
    ensures pieces { pieces.new ≡ pieces.old }
{
    notes.note(Spot::Line(line), run.mode);
    let on = evaluate(store, on, run, notes);
    run_arms(
        store,
        kind,
        &on.value,
        arms,
        run.after(on.first),
        pieces,
        notes,
    )
}

/// Runs the arms of a case in order, up to one that is sure to match, and else the default.
#[cycle(statements)]
fn run_arms<B: Bodies, N: Notes>(
    store: &mut B,
    kind: CaseKind,
    on: &Known,
    arms: &[CaseArm],
    run: Progress,
    pieces: &mut Queue<Piece>,
    notes: &mut N,
) -> Option<u32>
    requires lawful { (signed : Bool) × AreArms (B.scene store.old).design (length on.now.bits) signed (arms_of (map arm_view arms.now)) }
    requires widths { HasWidths (B.scene store.old).design }
    requires room { HasRoom (arms_logs (B.rooms store.old).takes (arms_of (map arm_view arms.now))) (arms_queues (arms_of (map arm_view arms.now))) (B.rooms store.old) }
    requires none { pieces.old.items ≡ [] }
    requires scratch { 128 ≤ pieces.old.room }
    ensures state { (start : N.Start) (d : Design) (a : State) (blame : ℕ) → (is_whole on.now ≡ false → on.now.blame ≡ blame) → IsState d a run.first (B.scene store.old) (B.queued store.old) (λ ms. N.noted start ms notes.old) → IsState d (run_arms_of d kind on.now.bits blame (arms_of (map arm_view arms.now)) (run_default_of d (arms_of (map arm_view arms.now))) run.mode a) result (B.scene store.new) (B.queued store.new) (λ ms. N.noted start ms notes.new) }
    ensures design { (B.scene store.new).design ≡ (B.scene store.old).design }
    ensures around { B.around store.new ≡ B.around store.old }
    ensures under { B.under store.new ≡ B.under store.old }
    ensures rooms { Leaves (arms_logs (B.rooms store.old).takes (arms_of (map arm_view arms.now))) (arms_queues (arms_of (map arm_view arms.now))) (B.rooms store.old) (B.rooms store.new) }
    ensures pieces { pieces.new ≡ pieces.old }
{
    let mut now = run;
    let mut opened = 0;
    for arm in arms {
        match run_arm(store, kind, on, arm, now, pieces, notes) {
            AfterArm::Ran(first) => {
                end_tests(store, opened);
                return first;
            }
            AfterArm::Next(next) => now = next,
            AfterArm::Open(next) => {
                now = next;
                opened += 1;
            }
        }
    }
    let first = run_default(store, arms, now, pieces, notes);
    end_tests(store, opened);
    first
}

/// Asks whether an arm matches, and runs its body if it does or may.
#[cycle(statements)]
fn run_arm<B: Bodies, N: Notes>(
    store: &mut B,
    kind: CaseKind,
    on: &Known,
    arm: &CaseArm,
    run: Progress,
    pieces: &mut Queue<Piece>,
    notes: &mut N,
) -> AfterArm
    requires labels { (signed : Bool) × AreLabels (B.scene store.old).design (length on.now.bits) signed (terms_of (map term_view arm.now.labels.items)) }
    requires lawful { is_body (B.scene store.old).design (stmt_view arm.now.body) ≡ true }
    requires widths { HasWidths (B.scene store.old).design }
    requires room { HasRoom (arm_logs (B.rooms store.old).takes (terms_of (map term_view arm.now.labels.items)) (stmt_view arm.now.body)) (arm_queues (terms_of (map term_view arm.now.labels.items)) (stmt_view arm.now.body)) (B.rooms store.old) }
    requires none { pieces.old.items ≡ [] }
    requires scratch { 128 ≤ pieces.old.room }
    ensures state { (start : N.Start) (d : Design) (a : State) (blame : ℕ) → (is_whole on.now ≡ false → on.now.blame ≡ blame) → IsState d a run.first (B.scene store.old) (B.queued store.old) (λ ms. N.noted start ms notes.old) → IsAfter d (λ others. arm_of d kind on.now.bits blame (terms_of (map term_view arm.now.labels.items)) (stmt_view arm.now.body) others run.mode a) run.mode (B.around store.old) (B.scene store.new) (B.queued store.new) (λ ms. N.noted start ms notes.new) (B.around store.new) result }
    ensures design { (B.scene store.new).design ≡ (B.scene store.old).design }
    ensures around { AreSecond (B.scene store.old).design (opened_by result) (B.around store.old) (B.around store.new) }
    ensures under { B.under store.new ≡ B.under store.old }
    ensures rooms { Leaves (arm_logs (B.rooms store.old).takes (terms_of (map term_view arm.now.labels.items)) (stmt_view arm.now.body)) (arm_queues (terms_of (map term_view arm.now.labels.items)) (stmt_view arm.now.body)) (B.rooms store.old) (B.rooms store.new) }
    ensures pieces { pieces.new ≡ pieces.old }
{
    let labels = matched(store, kind, on, &arm.labels, run, notes);
    let run = run.after(labels.first);
    match labels.answer {
        Maybe::Yes => AfterArm::Ran(run_statement(store, &arm.body, run, pieces, notes)),
        Maybe::No => AfterArm::Next(run),
        Maybe::Unsure(thing) => {
            store.begin_test(thing);
            let inside = within(run, thing);
            let first = run_statement(store, &arm.body, inside, pieces, notes);
            store.second_branch();
            AfterArm::Open(inside.after(first))
        }
    }
}

/// Runs the default arm, if there is one.
#[cycle(statements)]
fn run_default<B: Bodies, N: Notes>(
    store: &mut B,
    arms: &[CaseArm],
    run: Progress,
    pieces: &mut Queue<Piece>,
    notes: &mut N,
) -> Option<u32>
    requires lawful { (w : ℕ) × (signed : Bool) × AreArms (B.scene store.old).design w signed (arms_of (map arm_view arms.now)) }
    requires widths { HasWidths (B.scene store.old).design }
    requires room { HasRoom (default_logs (B.rooms store.old).takes (arms_of (map arm_view arms.now))) (default_queues (arms_of (map arm_view arms.now))) (B.rooms store.old) }
    requires none { pieces.old.items ≡ [] }
    requires scratch { 128 ≤ pieces.old.room }
    ensures state { (start : N.Start) (d : Design) (a : State) → IsState d a run.first (B.scene store.old) (B.queued store.old) (λ ms. N.noted start ms notes.old) → IsState d (run_default_of d (arms_of (map arm_view arms.now)) run.mode a) result (B.scene store.new) (B.queued store.new) (λ ms. N.noted start ms notes.new) }
    ensures design { (B.scene store.new).design ≡ (B.scene store.old).design }
    ensures around { B.around store.new ≡ B.around store.old }
    ensures under { B.under store.new ≡ B.under store.old }
    ensures rooms { Leaves (default_logs (B.rooms store.old).takes (arms_of (map arm_view arms.now))) (default_queues (arms_of (map arm_view arms.now))) (B.rooms store.old) (B.rooms store.new) }
    ensures pieces { pieces.new ≡ pieces.old }
{
    for arm in arms {
        if arm.labels.is_empty() {
            return run_statement(store, &arm.body, run, pieces, notes);
        }
    }
    run.first
}
