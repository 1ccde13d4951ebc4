ghost use Rattle.std.specs.Prelude.{◌≡◌};
ghost use Rattle.std.specs.List.{list_all, position};
ghost use Rattle.vcd_reader.specs.Words.{is_white_space};
ghost use Rattle.four_state.specs.Masks.{is_one_or_z, is_strange};
ghost use Rattle.vcd_reader.specs.Holding.{begins_strange};
ghost use Rattle.vcd_reader.specs.Values.{is_digit, digit_bit};
ghost use Rattle.vcd_reader.specs.Header.{is_printable};

use digit_lanes::word_length;

/// Whether the byte separates words: space, tab, line feed, carriage return, vertical tab or form feed.
pub(crate) fn is_white_space(byte: u8) -> bool
    ensures { result ≡ is_white_space byte }
{
    matches!(byte, b' ' | b'\t' | b'\n' | 0x0b | 0x0c | b'\r')
}

/// The number of bytes before the first white space, if there is some.
#[inline(always)]
pub(crate) fn length_of_word(bytes: &[u8]) -> Option<usize>
    ensures { result ≡ position is_white_space bytes.now }
{
    let length = word_length(bytes);
    if length < bytes.len() {
        Some(length)
    } else {
        None
    }
}

/// Whether the byte is a digit of a value (IEEE 1364-2001 clause 18.2.2).
pub(crate) fn is_digit(byte: u8) -> bool
    ensures { result ≡ is_digit byte }
{
    matches!(byte, b'0' | b'1' | b'x' | b'X' | b'z' | b'Z')
}

/// Whether the bit of a digit is 1 or z. Without a branch, since the digits of values are hard to predict.
pub(crate) fn writes_one_or_z(digit: u8) -> bool
    ensures { result ≡ is_one_or_z (digit_bit digit) }
{
    (digit != b'0') & (digit != b'x') & (digit != b'X')
}

/// Whether the bit of a digit is x or z.
pub(crate) fn writes_strange(digit: u8) -> bool
    ensures { result ≡ is_strange (digit_bit digit) }
{
    (digit != b'0') & (digit != b'1')
}

/// Whether the bit of the first digit is x or z.
pub(crate) fn begins_strange(word: &[u8]) -> bool
    ensures { result ≡ begins_strange word.now }
{
    match word {
        [first, ..] => writes_strange(*first),
        [] => false,
    }
}

/// Whether each byte can be a part of a code (IEEE 1364-2001 clause 18.2.1).
pub(crate) fn are_printable(word: &[u8]) -> bool
    ensures { result ≡ list_all is_printable word.now }
{
    word.iter().all(|byte| is_printable(*byte))
}

pub(crate) fn is_printable(byte: u8) -> bool
    ensures { result ≡ is_printable byte }
{
    matches!(byte, 33..=126)
}
