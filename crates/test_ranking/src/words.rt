//! Sets of points as words of 64 bits.
ghost use Rattle.std.specs.Prelude.{◌≡◌, ◌≤◌, ◌<◌, ◌+◌, ◌*◌, ◌^◌, length, IfOk};
ghost use Rattle.test_ranking.specs.Hits.{hits_among, is_hit};
ghost use Rattle.test_ranking.specs.Words.{joined_ones, joined_words, word_of, words_of};

use cov_host::NoMemory;
use coverage_db::{DbPoint, DbVerdict};
use std::alloc::Global;

/// A bit for each point, set where it is hit, in `count` words.
pub(crate) fn words_of(
    alloc: Global,
    points: &[DbPoint],
    count: usize,
) -> Result<Vec<u64>, NoMemory>
    requires enough { length points.now ≤ 64 * count }
    ensures { IfOk result (λ words. words.items ≡ words_of count (hits_among points.now)) }
{
    let mut words = Vec::with_capacity(alloc, count)?;
    let mut left = points;
    for _place in 0..count {
        let (first, others) = left.split_at(left.len().min(64));
        words.push(word_of(first))?;
        left = others;
    }
    Ok(words)
}

/// The word of no more than 64 points, the first in the lowest bit.
fn word_of(points: &[DbPoint]) -> u64
    requires { length points.now ≤ 64 }
    ensures { result ≡ word_of (hits_among points.now) }
{
    let mut word = 0;
    let mut place = points.len();
    while place > 0 {
        place -= 1;
        word = word * 2 + u64::from(is_hit(&points[place].verdict));
    }
    word
}

/// Whether the point was hit. An undetermined one was not.
fn is_hit(verdict: &DbVerdict) -> bool
    ensures { result ≡ is_hit verdict.now }
{
    match verdict {
        DbVerdict::Hit => true,
        DbVerdict::Missed => false,
        DbVerdict::Undetermined { .. } => false,
    }
}

/// How many bits are set in one of two lists of words, or in both.
pub(crate) fn joined_ones(left: &[u64], right: &[u64]) -> usize
    requires same { length left.now ≡ length right.now }
    requires few { length left.now < 2 ^ 32 }
    ensures { result ≡ joined_ones left.now right.now }
{
    let mut count = 0;
    for (place, word) in left.iter().enumerate() {
        count += (*word | right[place]).count_ones() as usize;
    }
    count
}

/// Sets the bits of other words too.
pub(crate) fn join_words(words: &mut [u64], others: &[u64])
    requires { length words.old ≡ length others.now }
    ensures { words.new ≡ joined_words words.old others.now }
{
    for (place, word) in words.iter_mut().enumerate() {
        *word |= others[place];
    }
}
