//! Vectors as Verilog spells them.
ghost use Rattle.std.specs.Prelude.{◌≤◌};

use four_state::{Binary, Bit, Four};

/// The vector of one digit, cut to one bit or of four.
fn digit(byte: u8, size: u8) -> Four
    requires at_least { 1 ≤ size }
    requires at_most { size ≤ 4 }
{
    match byte {
        b'x' => Four::fill(size, false, Bit::X),
        b'z' => Four::fill(size, false, Bit::Z),
        _ => {
            let value = (byte as char).to_digit(16).unwrap_or(0) % 16;
            Four::make(4, false, value as u128, 0).extend(size, false)
        }
    }
}

/// The vector of the digits, of so many bits each.
fn vector_of(width: u8, signed: bool, digits: &str, size: u8) -> Four
    requires at_least { 1 ≤ width }
    requires at_most { width ≤ 128 }
    requires size_at_least { 1 ≤ size }
    requires size_at_most { size ≤ 4 }
{
    let places = Four::make(8, false, size as u128, 0);
    let mut value = Four::fill(width, signed, Bit::Zero);
    for byte in digits.bytes() {
        let raised = Four::binary(Binary::ShiftLeft, &value, &places);
        value = raised.place(0, &digit(byte, size));
    }
    value
}

/// The vector that a based number means, as `4'b1x0z` or `65'sh1f`.
pub(crate) fn vector(text: &str) -> Option<Four> {
    let (width, digits) = text.split_once('\'')?;
    let width: u8 = width.parse().ok()?;
    if width < 1 || width > 128 {
        return None;
    }
    let (signed, digits) = match digits.strip_prefix('s') {
        Some(digits) => (true, digits),
        None => (false, digits),
    };
    match digits.strip_prefix('h') {
        Some(digits) => Some(vector_of(width, signed, digits, 4)),
        None => Some(vector_of(width, signed, digits.strip_prefix('b')?, 1)),
    }
}

/// Whether the vector is the one that is spelled so.
pub(crate) fn is_spelled(value: &Four, text: &str) -> bool {
    match vector(text) {
        Some(wanted) => *value == wanted,
        None => false,
    }
}
