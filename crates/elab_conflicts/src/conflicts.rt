//! Writings of one signal or memory that are in conflict: two drivers of a bit (IEEE 1364-2001 clause 6.1), two
//! processes that write it, and blocking with nonblocking assignments (clause 9.2).

ghost use Rattle.std.specs.Prelude.{◌≡◌, ◌+◌, ◌-◌, ◌^◌, ◌≤◌, ℕ, List, ◌∷◌, [], ◌++◌, ◌||◌, ◌==◌, not, map, All, IfOk, OnOk, if◌then◌else◌};
ghost use Rattle.std.specs.List.{list_any};
ghost use Rattle.std.specs.List.Sorted.{IsPermutation, IsSortedByKey};
ghost use Rattle.std.specs.Option.{option_map};
ghost use Rattle.elab_conflicts.specs.Conflicts.{Summarizes, at_odds, faults_at, first_of, has_other as has_other_process, kept_in, key, name_order, nothing};
ghost use Rattle.elab_scope.specs.View.{IsWithin, name_view, writing_view};
ghost use Rattle.flat_design.specs.Scope.{is_same_thing};
ghost use Rattle.flat_design.specs.Processes.{conflicts, driver_faults, mixed_faults};

use cov_host::NoMemory;
use elab_scope::{NameAt, Written};
use flat_design::{ElabKind, Thing};
use std::alloc::Global;
use std::cmp::Ordering;
use std::collections::HashMap;

/// In which way two writings of one signal or memory are in conflict.
#[derive(Clone, Copy)]
enum Conflict {
    /// One is blocking and the other is not.
    Mixed,
    /// Two continuous assignments drive one bit, or another process writes it too.
    TwoDrivers,
}

/// The processes of some writings.
#[derive(Clone, Copy)]
enum Processes {
    No,
    One(u32),
    Several,
}

/// What is kept of the earlier writings of one signal or memory.
#[derive(Clone, Copy)]
struct Earlier {
    blocking: bool,
    nonblocking: bool,
    /// The bits that continuous assignments drive.
    driven: u128,
    processes: Processes,
    /// The processes that write it otherwise than by a continuous assignment.
    procedural: Processes,
}

/// What is kept of the writings of each signal and memory.
#[derive(Drop)]
struct EarlierTable {
    kept: HashMap<(bool, u32), Earlier>,
}

/// The first name in the text at which a second driver is found, of a bit of a net, or of a variable or memory.
pub fn two_drivers<'a>(
    alloc: Global,
    writings: &[Written<'a>],
) -> Result<Option<NameAt<'a>>, NoMemory>
    requires { All IsWithin writings.now }
    ensures { IfOk result (λ found. driver_faults (map writing_view writings.now) ≡ faults_at ElabKind.TwoDrivers found) }
{
    first_conflict(alloc, writings, Conflict::TwoDrivers)
}

/// The first name in the text at which both blocking and nonblocking assignments to one signal or memory are found.
pub fn mixed<'a>(alloc: Global, writings: &[Written<'a>]) -> Result<Option<NameAt<'a>>, NoMemory>
    requires { All IsWithin writings.now }
    ensures { IfOk result (λ found. mixed_faults (map writing_view writings.now) ≡ faults_at ElabKind.MixedAssign found) }
{
    first_conflict(alloc, writings, Conflict::Mixed)
}

/// The first name in the text of a writing that is in conflict with an earlier one.
fn first_conflict<'a>(
    alloc: Global,
    writings: &[Written<'a>],
    conflict: Conflict,
) -> Result<Option<NameAt<'a>>, NoMemory>
    requires { All IsWithin writings.now }
    ensures { IfOk result (λ found. option_map name_view found ≡ first_of (conflicts (at_odds conflict) (map writing_view writings.now))) }
{
    let sorted = in_text_order(alloc, writings)?;
    let mut table = EarlierTable::new(alloc);
    for written in &sorted {
        let earlier = table.get(written.thing);
        if earlier.is_at_odds(written, conflict) {
            return Ok(Some(written.name));
        }
        table.set(written.thing, earlier.with(written))?;
    }
    Ok(None)
}

/// The writings by their names in the text.
fn in_text_order<'a>(alloc: Global, writings: &[Written<'a>]) -> Result<Vec<Written<'a>>, NoMemory>
    ensures permutation { IfOk result (λ sorted. IsPermutation writings.now sorted.items) }
    ensures rising { IfOk result (λ sorted. IsSortedByKey (λ written. name_view written.name) name_order sorted.items) }
{
    let mut sorted = Vec::from_slice(alloc, writings)?;
    sorted.sort_unstable_by(|a, b| order(a.name, b.name));
    Ok(sorted)
}

/// The order of two names in the text, and at one place by their letters.
fn order(x: NameAt, y: NameAt) -> Ordering
    ensures { result ≡ name_order (name_view x.entry) (name_view y.entry) }
{
    let p = x.place;
    let q = y.place;
    (p.source, p.line, p.column, x.name).cmp(&(q.source, q.line, q.column, y.name))
}

/// Whether it is a memory, and its number.
fn key_of(thing: Thing) -> (bool, u32)
    ensures { result ≡ key thing }
{
    match thing {
        Thing::Signal(number) => (false, number),
        Thing::Memory(number) => (true, number),
    }
}

impl EarlierTable {
    /// No writings. It takes no memory.
    fn new(alloc: Global) -> EarlierTable
        ensures { (t : Thing) → kept_in result t ≡ nothing }
    {
        EarlierTable {
            kept: HashMap::new(alloc),
        }
    }

    /// What is kept of the writings of this signal or memory.
    fn get(&self, thing: Thing) -> Earlier
        ensures { result ≡ kept_in self.now thing }
    {
        self.kept
            .get(&key_of(thing))
            .copied()
            .unwrap_or(Earlier::NONE)
    }

    /// Keeps this of the writings of a signal or memory, in the place of what was kept of them.
    fn set(&mut self, thing: Thing, earlier: Earlier) -> Result<(), NoMemory>
        ensures { OnOk result ((t : Thing) → kept_in self.new t ≡ (if is_same_thing thing t then earlier else kept_in self.old t)) }
    {
        let _ = self.kept.insert(key_of(thing), earlier)?;
        Ok(())
    }
}

impl Earlier {
    /// No writings.
    const NONE: Earlier = Earlier {
        blocking: false,
        nonblocking: false,
        driven: 0,
        processes: Processes::No,
        procedural: Processes::No,
    };

    /// Whether a writing of the same signal or memory is in conflict with one of these.
    fn is_at_odds(&self, written: &Written, conflict: Conflict) -> bool
        requires { IsWithin written.now }
        ensures { (ws : List Written) → Summarizes self.now written.now.thing ws
            → result ≡ list_any (λ w. at_odds conflict (writing_view written.now) (writing_view w)) ws }
    {
        match conflict {
            Conflict::Mixed if written.blocking => self.nonblocking,
            Conflict::Mixed => self.blocking,
            Conflict::TwoDrivers if written.continuous => {
                self.driven & bits_of(written) != 0 || self.procedural.has_other(written.process)
            }
            Conflict::TwoDrivers => self.processes.has_other(written.process),
        }
    }

    /// These and one more.
    fn with(self, written: &Written) -> Earlier
        requires { IsWithin written.now }
        ensures { (ws : List Written) → Summarizes self written.now.thing ws → Summarizes result written.now.thing (ws ++ written.now ∷ []) }
    {
        Earlier {
            blocking: self.blocking || written.blocking,
            nonblocking: self.nonblocking || !written.blocking,
            driven: if written.continuous {
                self.driven | bits_of(written)
            } else {
                self.driven
            },
            processes: self.processes.with(written.process),
            procedural: if written.continuous {
                self.procedural
            } else {
                self.procedural.with(written.process)
            },
        }
    }
}

/// The bits that are written.
fn bits_of(written: &Written) -> u128
    requires { IsWithin written.now }
    ensures { result ≡ 2 ^ (written.now.low + written.now.count) - 2 ^ written.now.low }
{
    ones(written.low + written.count) - ones(written.low)
}

/// A mask with this number of ones.
fn ones(count: u32) -> u128
    requires { count ≤ 128 }
    ensures { result ≡ 2 ^ count - 1 }
{
    if count == 128 {
        u128::MAX
    } else {
        (1 << count) - 1
    }
}

impl Processes {
    /// Whether there is another process than this one.
    fn has_other(self, process: u32) -> bool
        ensures { result ≡ has_other_process self process }
    {
        match self {
            Processes::No => false,
            Processes::One(number) => process != number,
            Processes::Several => true,
        }
    }

    /// These and one more.
    fn with(self, process: u32) -> Processes
        ensures { (p : ℕ) → has_other_process result p ≡ (has_other_process self p || not (p == process)) }
    {
        match self {
            Processes::No => Processes::One(process),
            Processes::One(number) if number == process => self,
            _ => Processes::Several,
        }
    }
}
