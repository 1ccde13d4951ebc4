//! How many line and node points of each process are not hit yet.

ghost use Rattle.std.specs.Prelude.{◌≡◌, ◌↔◌, ◌<◌, ◌≤◌, ◌-◌, ◌^◌, ℕ, List, IfOk, IsTrue, true, cond, length, nat_eq, replicate, slice_index_or, slice_set};
ghost use Rattle.std.specs.List.{All, count_by};
ghost use Rattle.point_marks.specs.declared.verdict.Verdict.{Verdict as TheVerdict};
ghost use Rattle.cover_points.specs.Listed.{points_of};
ghost use Rattle.cover_marks.specs.Counted.{IsOpenBy};
ghost use Rattle.cover_marks.specs.Open.{is_open};
ghost use Rattle.cover_marks.specs.Owners.{owners_of};

use crate::owners::owners;
use cov_host::NoMemory;
use cover_points::{MOST_POINTS, Points};
use point_marks::Verdict;
use std::alloc::Global;

/// The line and node points of each process that are not hit yet, counted.
#[derive(Drop)]
pub(crate) struct OpenPoints {
    /// The process of each line and node point, by the number of the point.
    pub(crate) owners: Vec<u32>,
    /// How many of its points are not hit yet, by the number of the process.
    pub(crate) counts: Vec<u32>,
}

impl OpenPoints {
    /// The counts of these points, none of which is hit yet.
    pub(crate) fn new(alloc: Global, points: &Points) -> Result<Self, NoMemory>
        requires few { length (points_of points.now) ≤ MOST_POINTS }
        ensures { IfOk result (λ counted. (verdicts : List TheVerdict) → verdicts ≡ replicate (length (points_of points.now)) Verdict.Missed → IsOpenBy (owners_of points.now) verdicts counted) }
    {
        let owners = owners(alloc, points)?;
        let counts = counts_of(alloc, owners.as_slice())?;
        Ok(OpenPoints { owners, counts })
    }

    /// A point that had this verdict before is hit. It takes constant time and no memory.
    pub(crate) fn hit(&mut self, point: u32, before: Verdict)
        ensures { (owners : List ℕ) (verdicts : List TheVerdict) → IsOpenBy owners verdicts self.old → point < length verdicts → slice_index_or verdicts point Verdict.Missed ≡ before → IsOpenBy owners (slice_set verdicts point Verdict.Hit) self.new }
    {
        match before {
            Verdict::Hit => {}
            Verdict::Missed | Verdict::Undetermined(_) => self.close(point),
        }
    }

    /// A point that was not hit before is hit.
    fn close(&mut self, point: u32)
        ensures { (owners : List ℕ) (verdicts : List TheVerdict) → IsOpenBy owners verdicts self.old → point < length verdicts → is_open (slice_index_or verdicts point Verdict.Missed) ≡ true → IsOpenBy owners (slice_set verdicts point Verdict.Hit) self.new }
    {
        match self.owners.get(point as usize) {
            Some(owner) => lower(self.counts.as_mut_slice(), *owner as usize),
            None => {}
        }
    }

    /// Whether all points of the process are hit. It takes constant time.
    pub(crate) fn is_settled(&self, process: u32) -> bool
        ensures { IsTrue result ↔ (slice_index_or self.now.counts.items process 0 ≡ 0) }
    {
        match self.counts.get(process as usize) {
            Some(count) => *count == 0,
            None => true,
        }
    }
}

/// Lowers a count by one, if it is there and not 0.
fn lower(counts: &mut [u32], place: usize)
    ensures { (p : ℕ) → slice_index_or counts.new p 0 ≡ slice_index_or counts.old p 0 - cond (nat_eq p place) 1 0 }
{
    if place < counts.len() {
        counts[place] = counts[place].saturating_sub(1);
    }
}

/// How often each process is among these owners.
fn counts_of(alloc: Global, owners: &[u32]) -> Result<Vec<u32>, NoMemory>
    requires { length owners.now < 2 ^ 32 }
    ensures { IfOk result (λ counts. (p : ℕ) → slice_index_or counts.items p 0 ≡ count_by (nat_eq p) owners.now) }
{
    let mut counts = vec![in alloc; 0u32; past_last(owners)]?;
    for owner in owners {
        counts[*owner as usize] += 1;
    }
    Ok(counts)
}

/// A number past all of these.
fn past_last(owners: &[u32]) -> usize
    ensures { All (λ (owner : ℕ). owner < result) owners.now }
{
    let mut past: usize = 0;
    for owner in owners {
        past = past.max(*owner as usize + 1);
    }
    past
}
