//! The runs of a body on one store.

ghost use Rattle.std.specs.Prelude.{◌≡◌, ◌≤◌, ◌<◌, ◌+◌, ℕ, IfSome, OnOk, [], true, length, nat_lt};
ghost use Rattle.std.specs.List.{All, list_all};
ghost use Rattle.design_model.specs.Design.{body, body_at, is_number};
ghost use Rattle.design_model.specs.Lawful.{IsLawfulDesign};
ghost use Rattle.design_model.specs.Mentions.{body_assigns};
ghost use Rattle.design_model.specs.View.{design_view, process_view};
ghost use Rattle.body_calls.specs.Own.{is_in};
ghost use Rattle.bench.specs.Idle.{IsIdle};

use crate::body_stores::{new_store, put_inputs, sum_of};
use assignments::{Piece, widths_law};
use block_runs::{BlockNotes, Certainty, Doubt, run_body};
use body_rooms::store_rooms_law;
use body_store::{Store, own_law, premises_law, views_law};
use cov_host::NoMemory;
use design_model::{Design, Process};
use process_names::{names_law, push_assigned};
use std::alloc::Global;
use std::sync::ledger::{Blank, Ledger};
use step_counts::Steps;
use term_replay::Spot;
use value_store::Queue;

/// Counts what is noted.
#[derive(Drop)]
struct Count {
    notes: u64,
}

impl BlockNotes for Count {
    ghost use Rattle.std.specs.Prelude.{⊤, List};
    ghost use Rattle.body_replay.specs.Contract.{Note};

    ghost Start = { ⊤ };

    ghost noted = { λ start ms x. ⊤ };

    fn note(&mut self, _spot: Spot, _doubt: Option<Doubt>) {
        self.notes = self.notes.wrapping_add(1);
    }
}

/// What the runs of a body take beside the store.
#[derive(Drop)]
struct Scratch {
    pieces: Queue<Piece>,
    notes: Count,
    ghost empty: { pieces.items ≡ [] },
    ghost room: { 128 ≤ pieces.room },
}

/// The first process.
fn first_process(design: &Design) -> Option<&Process>
    ensures body { IfSome result (λ process. body (process_view process.now) ≡ body_at (design_view design.now) 0) }
    ensures some { IfSome result (λ process. 0 < length design.now.processes) }
{
    design.processes.get(0)
}

/// The signals and memories that a process assigns. None where one is not of the design, or memory runs out.
fn written_by(alloc: Global, design: &Design, process: &Process) -> Option<Vec<u32>>
    requires { IsLawfulDesign (design_view design.now) }
    ensures numbers { IfSome result (λ written. All (λ x. is_number (design_view design.now) x ≡ true) written.items) }
    ensures all { IfSome result (λ written. (x : ℕ) → body_assigns x (body (process_view process.now)) ≡ true → is_in written.items x ≡ true) }
{
    premises_law();
    let mut written = Vec::new(alloc);
    if push_names(process, &mut written).is_err() {
        return None;
    }
    let signals = design.signals.len();
    let memories = design.memories.len();
    if are_below(written.as_slice(), signals + memories) {
        Some(written)
    } else {
        None
    }
}

/// Adds what a process assigns.
fn push_names(process: &Process, found: &mut Vec<u32>) -> Result<(), NoMemory>
    ensures { OnOk result ((x : ℕ) → body_assigns x (body (process_view process.now)) ≡ true → is_in found.new.items x ≡ true) }
{
    names_law();
    push_assigned(true, process, found)?;
    push_assigned(false, process, found)?;
    Ok(())
}

/// Whether each of the numbers is below this one.
fn are_below(numbers: &[u32], end: usize) -> bool
    ensures { result ≡ list_all (λ x. nat_lt x end) numbers.now }
{
    numbers.iter().all(|number| (*number as usize) < end)
}

/// Runs the body of the first process so many times, where one in `unknown` inputs is unknown, and none if that is 0. It gives
/// the sum of the numbers that the outputs have then, each times its place; None if there is no process, or memory runs out.
pub(crate) fn sum_after<L: Ledger>(
    alloc: Global,
    design: &Design,
    rounds: u32,
    unknown: usize,
    blank: Blank,
) -> Option<u128>
    requires lawful { IsLawfulDesign (design_view design.now) }
    requires name { blank.name ≡ L.name }
    requires parts { blank.parts ≡ L.parts }
    requires some { 0 < blank.parts }
{
    let process = first_process(design)?;
    let written = written_by(alloc, design, process)?;
    let pieces = Queue::new(alloc, 128).ok()?;
    let mut scratch = Scratch {
        pieces,
        notes: Count { notes: 0 },
    };
    let mut steps = Steps::<L>::new(blank);
    sum_on_store(
        alloc,
        design,
        process,
        written.as_slice(),
        rounds,
        unknown,
        &mut scratch,
        &mut steps,
    )
}

/// Runs the body of the first process, which assigns what is `written`, so many times on a new store.
fn sum_on_store<L: Ledger>(
    alloc: Global,
    design: &Design,
    process: &Process,
    written: &[u32],
    rounds: u32,
    unknown: usize,
    scratch: &mut Scratch,
    steps: &mut Steps<L>,
) -> Option<u128>
    requires lawful { IsLawfulDesign (design_view design.now) }
    requires some { 0 < length design.now.processes }
    requires first { body (process_view process.now) ≡ body_at (design_view design.now) 0 }
    requires numbers { All (λ x. is_number (design_view design.now) x ≡ true) written.now }
    requires written { (x : ℕ) → body_assigns x (body (process_view process.now)) ≡ true → is_in written.now x ≡ true }
{
    match new_store(alloc, design) {
        Ok(store) => {
            let mut store = store;
            put_inputs(&mut store, design, unknown);
            for _ in 0..rounds {
                run_once(&mut store, design, process, written, scratch, steps);
            }
            Some(sum_of(&store, design))
        }
        Err(_) => None,
    }
}

/// Runs the body of the first process, and makes the updates that it queues.
fn run_once<L: Ledger>(
    store: &mut Store,
    design: &Design,
    process: &Process,
    written: &[u32],
    scratch: &mut Scratch,
    steps: &mut Steps<L>,
)
    requires lawful { IsLawfulDesign (design_view design.now) }
    requires idle { IsIdle (design_view design.now) store.old }
    requires some { 0 < length design.now.processes }
    requires first { body (process_view process.now) ≡ body_at (design_view design.now) 0 }
    requires numbers { All (λ x. is_number (design_view design.now) x ≡ true) written.now }
    requires written { (x : ℕ) → body_assigns x (body (process_view process.now)) ≡ true → is_in written.now x ≡ true }
    ensures idle { IsIdle (design_view design.now) store.new }
    ensures steps { steps.new ≡ steps.old + 1 }
{
    widths_law();
    own_law();
    views_law();
    store_rooms_law();
    store.holding();
    run_body(
        store,
        design,
        process,
        written,
        Certainty::Clean { time: 0 },
        &mut scratch.pieces,
        &mut scratch.notes,
        steps,
    );
    store.flush();
}
