ghost use Rattle.std.specs.Prelude.{◌≡◌, ◌≤◌, length};
ghost use Rattle.test_ranking.specs.Candidate.{better, goes_before};
ghost use Rattle.test_ranking.specs.PointSet.{size, without};

use crate::HitSet;

/// A table and what it adds.
#[derive(Clone, Copy)]
pub(crate) struct Candidate {
    /// The place of the table, from 0.
    pub(crate) table: usize,
    /// How many points it adds to those that are hit.
    pub(crate) added: u32,
}

impl Candidate {
    /// The better of this candidate and a table, of which the last count is a bound of what it adds. It is counted
    /// again only where it could be better by its last count.
    pub(crate) fn better(
        self,
        table: usize,
        set: &HitSet,
        hit: &HitSet,
        total: u32,
        last_count: &mut u32,
    ) -> Candidate
        requires same { length hit.now ≡ length set.now }
        requires total { total ≡ size hit.now }
        requires bound { size (without set.now hit.now) ≤ last_count.old }
        ensures better { result ≡ better self table (size (without set.now hit.now)) }
        ensures bound { size (without set.now hit.now) ≤ last_count.new }
    {
        if !self.yields_to(table, *last_count) {
            return self;
        }
        let added = hit.gain(set, total);
        *last_count = added;
        if self.yields_to(table, added) {
            Candidate { table, added }
        } else {
            self
        }
    }

    /// Whether a table that adds `added` points goes before this one.
    fn yields_to(self, table: usize, added: u32) -> bool
        ensures { result ≡ goes_before table added self }
    {
        self.added < added || added == self.added && table < self.table
    }
}
