//! Vectors as Verilog spells them.
ghost use Rattle.std.specs.Prelude.{◌≤◌};

use four_state::{Binary, Bit, Four};

/// The vector of one digit.
fn digit(byte: u8) -> Four {
    let bit = match byte {
        b'x' => Bit::X,
        b'z' => Bit::Z,
        b'1' => Bit::One,
        _ => Bit::Zero,
    };
    Four::fill(1, false, bit)
}

/// The vector of the digits.
fn vector_of(width: u8, signed: bool, digits: &str) -> Four
    requires at_least { 1 ≤ width }
    requires at_most { width ≤ 128 }
{
    let one = Four::fill(1, false, Bit::One);
    let mut value = Four::fill(width, signed, Bit::Zero);
    for byte in digits.bytes() {
        let raised = Four::binary(Binary::ShiftLeft, &value, &one);
        value = raised.place(0, &digit(byte));
    }
    value
}

/// The vector that a binary number means: `4'b1x0z` or `4'sb1000`.
pub(crate) fn vector(text: &str) -> Option<Four> {
    let (width, digits) = text.split_once('\'')?;
    let width: u8 = width.parse().ok()?;
    if width < 1 || width > 128 {
        return None;
    }
    match digits.strip_prefix("sb") {
        Some(digits) => Some(vector_of(width, true, digits)),
        None => Some(vector_of(width, false, digits.strip_prefix("b")?)),
    }
}
