ghost use Rattle.std.specs.Prelude.{◌≡◌, ◌<◌, ◌^◌, length, IfOk};
ghost use Rattle.test_ranking.specs.Hits.{hits_of};
ghost use Rattle.test_ranking.specs.PointSet.{no_points, size, union, without};

use crate::words::{join_words, joined_ones, words_of};
use cov_host::NoMemory;
use coverage_db::Db;
use std::alloc::Global;
use std::marker::Model;

/// The points of a table that are hit, in one bit a point. Contracts see a mark for each point, in their order.
#[derive(Drop)]
pub struct HitSet {
    points: u32,
    words: Vec<u64>,
}

impl Model for HitSet {
    ghost use Rattle.std.specs.Prelude.{Bool, List};
    ghost use Rattle.test_ranking.specs.Words.{ArePacked, marks_of};

    ghost Value = { List Bool };

    ghost view = { λ s. marks_of s.points s.words.items };

    ghost invariant = { λ s. ArePacked s.points s.words.items };
}

impl HitSet {
    /// A set of which none of `points` points is a member.
    pub fn none(alloc: Global, points: u32) -> Result<HitSet, NoMemory>
        ensures { IfOk result (λ set. set ≡ no_points points) }
    {
        let count = (points as usize).div_ceil(64);
        Ok(HitSet {
            points,
            words: vec![in alloc; 0; count]?,
        })
    }

    /// The points of the table that are hit. An undetermined point is not hit.
    pub fn of(alloc: Global, db: &Db) -> Result<HitSet, NoMemory>
        requires { length db.now.points < 2 ^ 32 }
        ensures { IfOk result (λ set. set ≡ hits_of db.now) }
    {
        let points = db.points.as_slice();
        let count = points.len().div_ceil(64);
        Ok(HitSet {
            points: points.len() as u32,
            words: words_of(alloc, points, count)?,
        })
    }

    /// How many points there are, hit or not.
    pub fn points(&self) -> u32
        ensures { result ≡ length self.now }
    {
        self.points
    }

    /// The number of points that another set adds to those of this one, whose size is `total`.
    pub(crate) fn gain(&self, other: &HitSet, total: u32) -> u32
        requires same { length self.now ≡ length other.now }
        requires total { total ≡ size self.now }
        ensures { result ≡ size (without other.now self.now) }
    {
        joined_ones(&self.words, &other.words) as u32 - total
    }

    /// Adds the points of another set.
    pub(crate) fn add(&mut self, other: &HitSet)
        requires { length self.old ≡ length other.now }
        ensures { self.new ≡ union self.old other.now }
    {
        join_words(&mut self.words, &other.words);
    }
}
