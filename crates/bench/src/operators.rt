//! Times the operators of four-state vectors.
ghost use Rattle.std.specs.Prelude.{◌≡◌, ◌≤◌, false, length};

use crate::{Figures, nanos_since};
use four_state::{Binary, Four};
use std::rt::Clock;
use std::time::Instant;

/// The operator that is written so.
fn operator_of(word: &str) -> Option<Binary> {
    match word {
        "+" => Some(Binary::Add),
        "-" => Some(Binary::Subtract),
        "*" => Some(Binary::Multiply),
        "/" => Some(Binary::Divide),
        "&" => Some(Binary::BitwiseAnd),
        "^" => Some(Binary::BitwiseXor),
        "<<" => Some(Binary::ShiftLeft),
        ">>" => Some(Binary::ShiftRight),
        "<" => Some(Binary::LessThan),
        "==" => Some(Binary::Equal),
        "===" => Some(Binary::CaseEqual),
        "&&" => Some(Binary::LogicalAnd),
        _ => None,
    }
}

/// The unsigned vector of a number, cut to a width.
fn vector(width: u8, number: u128) -> Four
    requires at_least { 1 ≤ width }
    requires at_most { width ≤ 128 }
    ensures width { length result.bits ≡ width }
    ensures sign { result.signed ≡ false }
{
    Four::make(width, false, number & (u128::MAX >> (128 - width)), 0)
}

/// The sum of what an operator gives of `rounds` pairs of numbers, each made from the one before.
fn sum_of(op: Binary, width: u8, rounds: u32) -> u128
    requires at_least { 1 ≤ width }
    requires at_most { width ≤ 128 }
{
    let mut number = 1u128;
    let mut sum = 0u128;
    for _ in 0..rounds {
        number = number
            .wrapping_mul(0x5851_f42d_4c95_7f2d_1405_7b7e_f767_814f)
            .wrapping_add(1);
        let a = vector(width, number);
        let b = vector(width, number >> 64 | 1);
        sum = sum.wrapping_add(Four::binary(op, &a, &b).ones());
    }
    sum
}

/// Times this number of rounds of an operator at a width of 1 to 128 bits. The figures are the nanoseconds, and the sum of the
/// answers.
pub(crate) fn measure(rt: &impl Clock, operator: &str, width: u32, rounds: u32) -> Option<Figures> {
    let operator = operator_of(operator)?;
    let width = u8::try_from(width).ok()?;
    if width < 1 || width > 128 {
        return None;
    }
    let start = Instant::now(rt).ok()?;
    let sum = sum_of(operator, width, rounds);
    Some([nanos_since(rt, start)?, sum, 0, 0])
}
