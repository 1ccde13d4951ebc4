//! What each process watches, with the places of the bits at whose changes it acts.

ghost use Rattle.std.specs.Prelude.{◌≡◌, ◌<◌, ◌+◌, ◌↔◌, ◌&&◌, IfOk, ℕ, Bool, length, map, nat_lt, not, true};
ghost use Rattle.std.specs.List.{All, Contains};
ghost use Rattle.four_state.specs.Masks.{is_set};
ghost use Rattle.design_model.specs.Design.{In, body, cell, process_at, signal_at};
ghost use Rattle.design_model.specs.Lawful.{IsLawfulDesign};
ghost use Rattle.design_model.specs.Machine.{is_level};
ghost use Rattle.design_model.specs.Shape.{is_body};
ghost use Rattle.design_model.specs.View.{design_view, process_view};
ghost use Rattle.index_sets.specs.Rows.{row_at};
ghost use Rattle.process_names.specs.Laws.{has};
ghost use Rattle.process_targets.specs.Placed.{ArePlaced};
ghost use Rattle.process_targets.specs.Rows.{AreTargetRows, IsInside};
ghost use Rattle.process_targets.specs.Targets.{IsOnce, row_has};
ghost use Rattle.wake_bits.specs.Mentions.{mentioned_names};
ghost use Rattle.wake_bits.specs.Wakes.{AreWakeRows, AreWakes};

use crate::mentions::push_mentioned;
use cov_host::NoMemory;
use design_model::{Design, Process};
use index_sets::{IndexSet, Rows};
use process_order::mark;
use process_targets::{Bits, all_places, mask_of, set_places};
use std::alloc::Global;

/// What a process watches.
#[derive(Clone, Copy)]
pub struct Wake {
    /// The signal or memory.
    pub thing: u32,
    /// The places of the bits of a signal that the process does not itself write, from the lowest bit up. A memory has
    /// no such places.
    pub mask: u128,
    /// Whether the body mentions it. What the body does not mention is in the list of names of a Comb.
    pub mentioned: bool,
}

/// What is looked up of one process at a time.
#[derive(Drop)]
struct Lookup {
    /// For each signal that the process writes its place in the row of the process.
    places: Vec<usize>,
    /// What the body mentions.
    mentioned: IndexSet,
}

/// For each process what it watches, in this order, with the bits that its own body does not write. `targets` are the
/// bits that the processes write. It takes the time of the design's text.
pub fn wake_rows(
    alloc: Global,
    design: &Design,
    watched: &Rows<u32>,
    targets: &Rows<Bits>,
) -> Result<Rows<Wake>, NoMemory>
    requires lawful { IsLawfulDesign (design_view design.now) }
    requires count { length watched.now ≡ length design.now.processes }
    requires watched { (p x : ℕ) → In x (row_at watched.now p) → is_level (process_at (design_view design.now) p) x ≡ true }
    requires targets { AreTargetRows (design_view design.now) targets.now }
    ensures { IfOk result (λ rows. AreWakeRows (design_view design.now) watched.now rows) }
{
    let mut lookup = lookup_for(alloc, design)?;
    let processes = design.processes.as_slice();
    let mut lists = Vec::new(alloc);
    for process in 0..processes.len() {
        let list = wakes_of(
            alloc,
            design,
            &processes[process],
            watched.row(process),
            targets.row(process),
            &mut lookup,
        )?;
        lists.push(list)?;
    }
    Rows::from_lists(alloc, lists.as_slice())
}

/// Room to look up what is of a design.
fn lookup_for(alloc: Global, design: &Design) -> Result<Lookup, NoMemory>
    requires { IsLawfulDesign (design_view design.now) }
    ensures places { IfOk result (λ lookup. length lookup.places.items ≡ length design.now.signals) }
    ensures mentioned { IfOk result (λ lookup. lookup.mentioned.size ≡ length design.now.signals + length design.now.memories) }
{
    let signals = design.signals.len();
    let things = signals + design.memories.len();
    Ok(Lookup {
        places: vec![in alloc; 0; signals]?,
        mentioned: IndexSet::new(alloc, things)?,
    })
}

/// What one process watches.
fn wakes_of(
    alloc: Global,
    design: &Design,
    process: &Process,
    watched: &[u32],
    targets: &[Bits],
    lookup: &mut Lookup,
) -> Result<Vec<Wake>, NoMemory>
    requires lawful { IsLawfulDesign (design_view design.now) }
    requires shaped { is_body (design_view design.now) (body (process_view process.now)) ≡ true }
    requires once { IsOnce targets.now }
    requires inside { All (IsInside (design_view design.now)) targets.now }
    requires watched { (x : ℕ) → Contains watched.now x → x < length design.now.signals + length design.now.memories }
    requires places { length lookup.old.places.items ≡ length design.now.signals }
    requires mentioned { lookup.old.mentioned.size ≡ length design.now.signals + length design.now.memories }
    ensures places { length lookup.new.places.items ≡ length design.now.signals }
    ensures mentioned { lookup.new.mentioned.size ≡ length design.now.signals + length design.now.memories }
    ensures list { IfOk result (λ list. AreWakes (design_view design.now) (row_has targets.now) (λ x. has x (mentioned_names (process_view process.now))) watched.now list.items) }
{
    set_places(targets, &mut lookup.places);
    let mut names = Vec::new(alloc);
    push_mentioned(process, &mut names)?;
    mark(names.as_slice(), &mut lookup.mentioned);
    wake_list(alloc, design, watched, targets, lookup)
}

/// What a process watches, by the places of the bits that it writes and by what it mentions.
fn wake_list(
    alloc: Global,
    design: &Design,
    watched: &[u32],
    targets: &[Bits],
    lookup: &Lookup,
) -> Result<Vec<Wake>, NoMemory>
    requires lawful { IsLawfulDesign (design_view design.now) }
    requires watched { (x : ℕ) → Contains watched.now x → x < lookup.now.mentioned.size }
    requires places { length lookup.now.places.items ≡ length design.now.signals }
    requires placed { ArePlaced targets.now lookup.now.places.items }
    ensures { (test : ℕ → Bool) → ((x : ℕ) → Contains lookup.now.mentioned.items x ↔ (test x ≡ true)) → IfOk result (λ list. AreWakes (design_view design.now) (row_has targets.now) test watched.now list.items) }
{
    let mut list = Vec::new(alloc);
    for thing in watched {
        let mask = wake_places(design, targets, lookup.places.as_slice(), *thing);
        let mentioned = lookup.mentioned.contains(*thing as usize);
        list.push(Wake {
            thing: *thing,
            mask,
            mentioned,
        })?;
    }
    Ok(list)
}

/// The places of the bits of a signal that are not in a row. A memory has no such places.
fn wake_places(design: &Design, row: &[Bits], places: &[usize], thing: u32) -> u128
    requires lawful { IsLawfulDesign (design_view design.now) }
    requires size { length places.now ≡ length design.now.signals }
    requires placed { ArePlaced row.now places.now }
    ensures { (k : ℕ) → is_set result k ≡ (nat_lt k (signal_at (design_view design.now) thing).width && not (row_has row.now (cell thing k))) }
{
    if thing as usize >= design.signals.len() {
        return 0;
    }
    all_places(design, thing) & !mask_of(row, places, thing)
}
