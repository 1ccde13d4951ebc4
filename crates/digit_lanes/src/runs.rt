//! How many bytes pass a test, from the first one.

ghost use Rattle.std.specs.Prelude.{◌≡◌, ◌+◌, ◌≤◌, drop, length};
ghost use Rattle.std.specs.List.{prefix_len};
ghost use Rattle.digit_lanes.specs.Bytes.{is_black, is_digit};

use crate::byte_tests::{is_digit, is_white_space};
use crate::lanes::{LANES, no_digits, spaces};
use std::simd::prelude::*;

/// How many bytes are digits of a value, from the first one.
#[inline(always)]
pub fn digit_run(bytes: &[u8]) -> usize
    ensures count { result ≡ prefix_len is_digit bytes.now }
    ensures within { result ≤ length bytes.now }
{
    let mut count = 0;
    while bytes.len() - count >= LANES {
        let found = no_digits(u8x16::from_slice(&bytes[count..]));
        if found != 0 {
            return count + found.trailing_zeros() as usize;
        }
        count += LANES;
    }
    last_digits(bytes, count)
}

/// How many bytes are digits up to the first other one, where the first `from` are.
#[cold]
fn last_digits(bytes: &[u8], from: usize) -> usize
    requires { from ≤ length bytes.now }
    ensures count { result ≡ from + prefix_len is_digit (drop from bytes.now) }
    ensures within { result ≤ length bytes.now }
{
    let mut count = from;
    while count < bytes.len() && is_digit(bytes[count]) {
        count += 1;
    }
    count
}

/// How many bytes are no white space, from the first one.
#[inline(always)]
pub fn word_length(bytes: &[u8]) -> usize
    ensures count { result ≡ prefix_len is_black bytes.now }
    ensures within { result ≤ length bytes.now }
{
    let mut count = 0;
    while bytes.len() - count >= LANES {
        let found = spaces(u8x16::from_slice(&bytes[count..]));
        if found != 0 {
            return count + found.trailing_zeros() as usize;
        }
        count += LANES;
    }
    last_length(bytes, count)
}

/// How many bytes are no white space up to the first that is, where the first `from` are no white space.
#[cold]
fn last_length(bytes: &[u8], from: usize) -> usize
    requires { from ≤ length bytes.now }
    ensures count { result ≡ from + prefix_len is_black (drop from bytes.now) }
    ensures within { result ≤ length bytes.now }
{
    let mut count = from;
    while count < bytes.len() && !is_white_space(bytes[count]) {
        count += 1;
    }
    count
}
