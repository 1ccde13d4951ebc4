ghost use Rattle.std.specs.Prelude.{◌≡◌, ◌<◌, ◌≤◌, ◌+◌, ◌==◌, ℕ, IfOk, OnOk, drop, false, if◌then◌else◌, length, nat_eq, nat_lt, slice_set, true};
ghost use Rattle.std.specs.List.{All};

use cov_host::NoMemory;
use std::alloc::Global;

/// How often each signal and memory is named by the targets of a path so far, up to twice.
#[derive(Drop)]
pub struct TargetCounts {
    /// For each signal or memory how often it is named, up to 2.
    counts: Vec<u8>,
    /// Those that were named, in order of the text.
    order: Vec<u32>,
    ghost within: { All (λ thing. thing < length counts.items) order.items },
}

impl TargetCounts {
    ghost use Rattle.process_names.specs.Laws.{has};
    ghost use Rattle.target_counts.specs.Counts.{Counts, IsClear, Replaces, count_at};

    /// Of so many signals and memories none is named yet.
    pub fn new(alloc: Global, things: usize) -> Result<Self, NoMemory>
        ensures size { IfOk result (λ counts. length counts.counts.items ≡ things) }
        ensures clear { IfOk result IsClear }
    {
        let counts = vec![in alloc; 0; things]?;
        let order = Vec::new(alloc);
        Ok(TargetCounts { counts, order })
    }

    /// How often it is named, up to twice.
    pub(crate) fn count(&self, thing: usize) -> u8
        requires { thing < length self.now.counts.items }
        ensures { result ≡ count_at self.now thing }
    {
        self.counts[thing]
    }

    /// How many times something was named so far.
    pub(crate) fn named(&self) -> usize
        ensures { result ≡ length self.now.order.items }
    {
        self.order.len()
    }

    /// A target names it. What is no signal or memory of the design is passed over.
    pub(crate) fn name(&mut self, thing: u32) -> Result<(), NoMemory>
        ensures { OnOk result (Counts (λ x. if thing == x then 1 else 0) self.old self.new) }
    {
        let place = thing as usize;
        if place < self.counts.len() {
            self.order.push(thing)?;
            self.raise(place);
        }
        Ok(())
    }

    /// It is named once more.
    fn raise(&mut self, place: usize)
        requires { place < length self.old.counts.items }
        ensures order { self.new.order.items ≡ self.old.order.items }
        ensures counts { self.new.counts.items ≡ (if nat_lt (count_at self.old place) 2 then slice_set self.old.counts.items place (count_at self.old place + 1) else self.old.counts.items) }
    {
        let count = self.counts[place];
        if count < 2 {
            self.set(place, count + 1);
        }
    }

    /// In place of this count the other.
    fn replace_at(&mut self, place: usize, count: u8, other: u8)
        requires { place < length self.old.counts.items }
        ensures order { self.new.order.items ≡ self.old.order.items }
        ensures counts { self.new.counts.items ≡ (if nat_eq count (count_at self.old place) then slice_set self.old.counts.items place other else self.old.counts.items) }
    {
        if count == self.counts[place] {
            self.set(place, other);
        }
    }

    /// Sets a count.
    fn set(&mut self, place: usize, count: u8)
        requires { place < length self.old.counts.items }
        ensures order { self.new.order.items ≡ self.old.order.items }
        ensures counts { self.new.counts.items ≡ slice_set self.old.counts.items place count }
    {
        self.counts[place] = count;
    }

    /// Leaves a branch: what it named alone, from this time on, is not named on the other branches.
    pub(crate) fn leave(&mut self, from: usize)
        requires { from ≤ length self.old.order.items }
        ensures order { self.new.order.items ≡ self.old.order.items }
        ensures counts { Replaces (nat_eq 1) 0 (drop from self.old.order.items) self.old.counts.items self.new.counts.items }
    {
        self.replace(from, 1, 0);
    }

    /// Joins the branches: what one of them named, from this time on, may be named.
    pub(crate) fn join(&mut self, from: usize)
        requires { from ≤ length self.old.order.items }
        ensures order { self.new.order.items ≡ self.old.order.items }
        ensures counts { Replaces (nat_eq 0) 1 (drop from self.old.order.items) self.old.counts.items self.new.counts.items }
    {
        self.replace(from, 0, 1);
    }

    /// Nothing is named any more. It takes time for what was named.
    pub(crate) fn clear(&mut self)
        requires { (x : ℕ) → x < length self.old.counts.items → has x self.old.order.items ≡ false → count_at self.old x ≡ 0 }
        ensures size { length self.new.counts.items ≡ length self.old.counts.items }
        ensures clear { IsClear self.new }
    {
        self.reset();
        self.order.clear();
    }

    /// Each count of what was named becomes 0.
    fn reset(&mut self)
        ensures order { self.new.order.items ≡ self.old.order.items }
        ensures counts { Replaces (λ n. true) 0 self.old.order.items self.old.counts.items self.new.counts.items }
    {
        for named in 0..self.order.len() {
            let place = self.order[named] as usize;
            self.set(place, 0);
        }
    }

    /// Of what was named from this time on, in place of this count the other.
    fn replace(&mut self, from: usize, count: u8, other: u8)
        requires { from ≤ length self.old.order.items }
        ensures order { self.new.order.items ≡ self.old.order.items }
        ensures counts { Replaces (nat_eq count) other (drop from self.old.order.items) self.old.counts.items self.new.counts.items }
    {
        for named in from..self.order.len() {
            let place = self.order[named] as usize;
            self.replace_at(place, count, other);
        }
    }
}
