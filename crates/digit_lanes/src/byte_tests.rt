//! Tests of one byte.

ghost use Rattle.std.specs.Prelude.{◌≡◌};
ghost use Rattle.digit_lanes.specs.Bytes.{is_digit, is_white_space, writes_one_or_z, writes_strange};

/// Whether the byte separates words: space, tab, line feed, carriage return, vertical tab or form feed.
pub fn is_white_space(byte: u8) -> bool
    ensures { result ≡ is_white_space byte }
{
    matches!(byte, b' ' | b'\t' | b'\n' | 0x0b | 0x0c | b'\r')
}

/// Whether the byte is a digit of a value (IEEE 1364-2001 clause 18.2.2).
pub fn is_digit(byte: u8) -> bool
    ensures { result ≡ is_digit byte }
{
    matches!(byte, b'0' | b'1' | b'x' | b'X' | b'z' | b'Z')
}

/// Whether the bit of a digit is 1 or z. Without a branch, since the digits of values are hard to predict.
pub fn writes_one_or_z(digit: u8) -> bool
    ensures { result ≡ writes_one_or_z digit }
{
    (digit != b'0') & (digit != b'x') & (digit != b'X')
}

/// Whether the bit of a digit is x or z.
pub fn writes_strange(digit: u8) -> bool
    ensures { result ≡ writes_strange digit }
{
    (digit != b'0') & (digit != b'1')
}
