//! The bits that digits write, as two masks.

ghost use Rattle.std.specs.Prelude.{◌≡◌, ◌+◌, ◌≤◌, length, map, reverse, take};
ghost use Rattle.std.specs.Simd.Lanes.{chunk, mask_l};
ghost use Rattle.digit_lanes.specs.Bytes.{writes_one_or_z, writes_strange};

use crate::byte_tests::{writes_one_or_z, writes_strange};
use crate::lanes::{LANES, ones, strange};
use std::simd::prelude::*;

/// The bits that digits write, the last one at the lowest place.
#[derive(Clone, Copy)]
pub struct DigitMasks {
    /// The bits that are 1 or z.
    pub ones: u128,
    /// The bits that are x or z.
    pub strange: u128,
}

/// The bits that the first `count` bytes write.
#[inline(always)]
pub fn digit_masks(bytes: &[u8], count: usize) -> DigitMasks
    requires within { count ≤ length bytes.now }
    requires narrow { count ≤ 128 }
    ensures ones { result.ones ≡ mask_l (map writes_one_or_z (reverse (take count bytes.now))) }
    ensures strange { result.strange ≡ mask_l (map writes_strange (reverse (take count bytes.now))) }
{
    if bytes.len() < LANES {
        return few_masks(bytes, count);
    }
    let mut start = count % LANES;
    let lanes = reversed(bytes, 0);
    let mut all_ones = u128::from(ones(lanes) >> (LANES - start));
    let mut all_strange = u128::from(strange(lanes) >> (LANES - start));
    while start < count {
        let lanes = reversed(bytes, start);
        all_ones = all_ones * 65_536 + u128::from(ones(lanes));
        all_strange = all_strange * 65_536 + u128::from(strange(lanes));
        start += LANES;
    }
    DigitMasks {
        ones: all_ones,
        strange: all_strange,
    }
}

/// The sixteen bytes from `start` on, the last one first.
#[inline(always)]
fn reversed(bytes: &[u8], start: usize) -> u8x16
    requires { start + LANES ≤ length bytes.now }
    ensures { result ≡ reverse (chunk start 16 bytes.now) }
{
    u8x16::from_slice(&bytes[start..]).reverse()
}

/// The bits that the first `count` bytes write, of fewer than sixteen.
#[cold]
fn few_masks(bytes: &[u8], count: usize) -> DigitMasks
    requires within { count ≤ length bytes.now }
    requires few { count ≤ 15 }
    ensures ones { result.ones ≡ mask_l (map writes_one_or_z (reverse (take count bytes.now))) }
    ensures strange { result.strange ≡ mask_l (map writes_strange (reverse (take count bytes.now))) }
{
    let (digits, _) = bytes.split_at(count);
    let mut all_ones: u128 = 0;
    let mut all_strange: u128 = 0;
    for digit in digits {
        all_ones = all_ones * 2 + u128::from(writes_one_or_z(*digit));
        all_strange = all_strange * 2 + u128::from(writes_strange(*digit));
    }
    DigitMasks {
        ones: all_ones,
        strange: all_strange,
    }
}
