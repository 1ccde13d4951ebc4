//! Operators on numbers (IEEE 1364-2001, clause 4.1). Those that are not here go by the operators on vectors.

ghost use Rattle.std.specs.Prelude.{◌≡◌, ◌-◌, ◌^◌, ◌<◌, ◌≤◌, IfSome, bit_and, if◌then◌else◌};
ghost use Rattle.term_replay.specs.Numbers.{IsCombined, IsTested};

use crate::memory::low_mask;
use four_state::Binary;

/// The lowest bits of a number.
#[tactic(auto, using(crate::proofs::Combined::cut_inside))]
fn masked(number: u128, width: u8) -> u128
    requires low { 1 ≤ width }
    requires high { width ≤ 64 }
    ensures value { result ≡ bit_and (2 ^ width - 1) number }
    ensures inside { result < 2 ^ width }
{
    low_mask(width) & number
}

/// A number cut to this width.
fn cut(number: u128, width: u8) -> u64
    requires low { 1 ≤ width }
    requires high { width ≤ 64 }
    ensures value { result ≡ bit_and (2 ^ width - 1) number }
    ensures inside { result < 2 ^ width }
{
    masked(number, width) as u64
}

/// What `&`, `|`, `^`, `+` or `-` gives of two numbers of this width; None for another operator.
pub(crate) fn combined(op: Binary, one: u64, two: u64, width: u8) -> Option<u64>
    requires low { 1 ≤ width }
    requires high { width ≤ 64 }
    requires one { one < 2 ^ width }
    requires two { two < 2 ^ width }
    ensures { IfSome result (IsCombined op width one two) }
{
    match op {
        Binary::BitwiseAnd => Some(one & two),
        Binary::BitwiseOr => Some(one | two),
        Binary::BitwiseXor => Some(one ^ two),
        Binary::Add => Some(cut(u128::from(one) + u128::from(two), width)),
        Binary::Subtract => Some(cut(u128::from(one).wrapping_sub(u128::from(two)), width)),
        _ => None,
    }
}

/// What `==` or `!=` gives of two numbers of one width, and `<` where they are not signed; None for another operator.
pub(crate) fn tested(op: Binary, one: u64, two: u64, signed: bool) -> Option<u64>
    ensures { IfSome result (IsTested op signed one two) }
{
    match op {
        Binary::Equal => Some(number_of(one ^ two == 0)),
        Binary::NotEqual => Some(number_of(one ^ two != 0)),
        Binary::LessThan if !signed => Some(number_of(one < two)),
        _ => None,
    }
}

/// 1 for true and 0 for false.
fn number_of(answer: bool) -> u64
    ensures { result ≡ (if answer then 1 else 0) }
{
    if answer { 1 } else { 0 }
}
