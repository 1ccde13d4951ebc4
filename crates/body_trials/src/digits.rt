//! Values as digits, the highest first: `0`, `1`, `x`, `z`, and `?` for a bit that is not sure.

use cov_host::NoMemory;
use four_state::{Bit, Four};
use known_state::Known;

/// The vector of one bit for a digit, where `?` is a bit that is not sure.
fn bit_of(digit: u8, blame: u32) -> Known {
    let bit = match digit {
        b'0' => Bit::Zero,
        b'1' => Bit::One,
        b'x' => Bit::X,
        b'z' => Bit::Z,
        _ => return Known::unknown(1, false, blame),
    };
    Known::whole(Four::fill(1, false, bit))
}

/// The vector with these digits, the highest first, 128 of them at most. There is one bit at least.
pub fn known_of(digits: &[u8], blame: u32) -> Known {
    let Some((first, rest)) = digits.split_first() else {
        return bit_of(b'?', blame);
    };
    let mut value = bit_of(*first, blame);
    for digit in rest {
        let low = bit_of(*digit, blame);
        if value.width() < 128 && low.width() == 1 {
            value = Known::append(&value, &low);
        }
    }
    value
}

/// Adds the digits of a value to a text.
pub fn add_digits(value: &Known, text: &mut Vec<u8>) -> Result<(), NoMemory> {
    let (ones, strange) = (value.value().ones(), value.value().strange());
    for place in (0..value.width()).rev() {
        let is_set = |mask: u128| mask >> place & 1 == 1;
        text.push(
            match (is_set(value.sure()), is_set(strange), is_set(ones)) {
                (false, _, _) => b'?',
                (true, false, false) => b'0',
                (true, false, true) => b'1',
                (true, true, false) => b'x',
                (true, true, true) => b'z',
            },
        )?;
    }
    Ok(())
}
