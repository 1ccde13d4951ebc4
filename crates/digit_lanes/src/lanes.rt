//! Which of sixteen bytes pass a test. Bit `i` of an answer is that of byte `i`.

ghost use Rattle.std.specs.Prelude.{◌≡◌, map};
ghost use Rattle.std.specs.Simd.Lanes.{mask_l};
ghost use Rattle.digit_lanes.specs.Bytes.{is_no_digit, is_white_space, writes_one_or_z, writes_strange};

use std::simd::prelude::*;

/// How many bytes are taken at once.
pub(crate) const LANES: usize = 16;

/// The bytes that are white space.
#[inline(always)]
pub(crate) fn spaces(bytes: u8x16) -> u64
    ensures { result ≡ mask_l (map is_white_space bytes) }
{
    let from_tab = bytes - u8x16::splat(b'\t');
    (bytes.simd_eq(u8x16::splat(b' ')) | from_tab.simd_lt(u8x16::splat(5))).to_bitmask()
}

/// The bytes that are no digits of a value. With a bit set `0` is `1`, and with two cleared `x`, `z` and `Z` are `X`.
#[inline(always)]
pub(crate) fn no_digits(bytes: u8x16) -> u64
    ensures { result ≡ mask_l (map is_no_digit bytes) }
{
    let not_known = (bytes | u8x16::splat(1)).simd_ne(u8x16::splat(b'1'));
    let not_strange = (bytes & u8x16::splat(0xdd)).simd_ne(u8x16::splat(b'X'));
    (not_known & not_strange).to_bitmask()
}

/// The digits whose bit is 1 or z. With a bit set `X` is `x`.
#[inline(always)]
pub(crate) fn ones(digits: u8x16) -> u64
    ensures { result ≡ mask_l (map writes_one_or_z digits) }
{
    let not_zero = digits.simd_ne(u8x16::splat(b'0'));
    let not_x = (digits | u8x16::splat(0x20)).simd_ne(u8x16::splat(b'x'));
    (not_zero & not_x).to_bitmask()
}

/// The digits whose bit is x or z. With a bit set `0` is `1`.
#[inline(always)]
pub(crate) fn strange(digits: u8x16) -> u64
    ensures { result ≡ mask_l (map writes_strange digits) }
{
    (digits | u8x16::splat(1))
        .simd_ne(u8x16::splat(b'1'))
        .to_bitmask()
}
