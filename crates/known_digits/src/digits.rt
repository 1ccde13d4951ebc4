ghost use Rattle.std.specs.Prelude.{◌≡◌, ◌<◌, None, length, slice_index_or};
ghost use Rattle.four_state.specs.Masks.{is_set};
ghost use Rattle.known_digits.specs.Digits.{digit_of, digits_of};

use four_state::Bit;
use known_state::Known;

/// The most digits that a vector has.
pub const MOST_DIGITS: usize = 128;

/// Writes the digits of a partly known vector into the front of the room, and gives that front: a digit for each bit, the
/// highest first, and `?` for a bit that is not sure.
pub fn write_digits<'a>(value: &Known, room: &'a mut [u8; MOST_DIGITS]) -> &'a [u8]
    ensures { result.now ≡ digits_of value.now.bits }
{
    let count = value.width();
    for place in 0..count {
        room[place as usize] = digit(value, count - 1 - place);
    }
    &room[..count as usize]
}

/// The digit of the bit at a place, above the lowest one.
fn digit(value: &Known, place: u8) -> u8
    requires place { place < length value.now.bits }
    requires most { place < 128 }
    ensures { result ≡ digit_of (slice_index_or value.now.bits place None) }
{
    match bit_at(value, place) {
        None => b'?',
        Some(Bit::Zero) => b'0',
        Some(Bit::One) => b'1',
        Some(Bit::X) => b'x',
        Some(Bit::Z) => b'z',
    }
}

/// The bit at a place, if it is sure.
fn bit_at(value: &Known, place: u8) -> Option<Bit>
    requires place { place < length value.now.bits }
    requires most { place < 128 }
    ensures { result ≡ slice_index_or value.now.bits place None }
{
    if has_place(value.sure(), place) {
        Some(value.value().bit(place))
    } else {
        None
    }
}

/// Whether a mask has a place.
fn has_place(mask: u128, place: u8) -> bool
    requires { place < 128 }
    ensures { result ≡ is_set mask place }
{
    mask >> place & 1 == 1
}
