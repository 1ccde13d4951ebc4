ghost use Rattle.std.specs.Prelude.{◌≡◌, ◌+◌, ◌==◌, ◌≤◌, length, not, slice_index, drop, take, is_some};
ghost use Rattle.std.specs.List.{list_any};
ghost use Rattle.verilog_lexer.specs.Run.{run};
ghost use Rattle.verilog_lexer.specs.Based.{base_of, is_strange, is_underscore, is_digit, is_part, is_decimal_part, decimal_digits_length, digits_length, letter_at, digits_at, based_length, digits_fit, are_sound_digits, is_sound_based};

use crate::number::number_within;
use crate::run::{byte_at, tail, white_length};

/// The base of a based number (IEEE 1364-2001 clause 2.5.1).
#[derive(Clone, Copy)]
pub(crate) enum Base {
    Binary,
    Octal,
    Decimal,
    Hexadecimal,
}

/// The base after a quote and the letter of a sign.
pub(crate) fn base_at(text: &[u8]) -> Option<Base>
    ensures { result ≡ base_of (slice_index text.now (letter_at text.now)) }
{
    base_of(byte_at(text, letter_at(text)))
}

/// How many bytes the based number of this base at the front has.
#[tactic(auto, unfolding(crate::specs::Based::based_length))]
pub(crate) fn based_length(base: Base, text: &[u8]) -> usize
    ensures { result ≡ based_length base text.now }
{
    let start = digits_at(text);
    start + digits_length(base, tail(text, start))
}

/// Whether the based number is a literal, with a size before it or without: it has a digit, and its value fits.
#[tactic(auto, unfolding(crate::specs::Based::is_sound_based))]
pub(crate) fn is_sound_based(sized: bool, text: &[u8]) -> bool
    ensures { result ≡ is_sound_based sized text.now }
{
    match base_at(text) {
        Some(base) => are_sound_digits(sized, base, tail(text, digits_at(text))),
        None => false,
    }
}

/// The base that a letter names, in either case.
fn base_of(letter: u8) -> Option<Base>
    ensures { result ≡ base_of letter }
{
    match letter {
        b'b' | b'B' => Some(Base::Binary),
        b'o' | b'O' => Some(Base::Octal),
        b'd' | b'D' => Some(Base::Decimal),
        b'h' | b'H' => Some(Base::Hexadecimal),
        _ => None,
    }
}

/// The place of the letter of the base.
fn letter_at(text: &[u8]) -> usize
    ensures value { result ≡ letter_at text.now }
    ensures within { result ≤ 2 }
{
    match byte_at(text, 1) {
        b's' | b'S' => 2,
        _ => 1,
    }
}

/// Where the digits begin.
#[tactic(auto, unfolding(crate::specs::Based::digits_at))]
fn digits_at(text: &[u8]) -> usize
    ensures value { result ≡ digits_at text.now }
    ensures within { result ≤ length text.now + 3 }
{
    let start = letter_at(text) + 1;
    start + white_length(tail(text, start))
}

/// How many bytes at the front are digits of the base with underscores.
fn digits_length(base: Base, text: &[u8]) -> usize
    ensures value { result ≡ digits_length base text.now }
    ensures within { result ≤ length text.now }
{
    match base {
        Base::Decimal => decimal_digits_length(text),
        Base::Binary => parts_length(base, text),
        Base::Octal => parts_length(base, text),
        Base::Hexadecimal => parts_length(base, text),
    }
}

/// How many bytes at the front are digits of the base, unknown ones and underscores included.
fn parts_length(base: Base, text: &[u8]) -> usize
    ensures value { result ≡ run (is_part base) text.now }
    ensures within { result ≤ length text.now }
{
    text.iter().take_while(|byte| is_part(base, **byte)).count()
}

/// How many bytes at the front are decimal digits, or one `x`, `z` or `?` alone, with underscores.
fn decimal_digits_length(text: &[u8]) -> usize
    ensures value { result ≡ decimal_digits_length text.now }
    ensures within { result ≤ length text.now }
{
    let start = underscores_length(text);
    if is_strange(byte_at(text, start)) {
        let behind = start + 1;
        return behind + underscores_length(tail(text, behind));
    }
    decimal_length(text)
}

/// The number of underscores at the front.
fn underscores_length(text: &[u8]) -> usize
    ensures value { result ≡ run is_underscore text.now }
    ensures within { result ≤ length text.now }
{
    text.iter().take_while(|byte| **byte == b'_').count()
}

/// The number of decimal digits and underscores at the front.
pub(crate) fn decimal_length(text: &[u8]) -> usize
    ensures value { result ≡ run is_decimal_part text.now }
    ensures within { result ≤ length text.now }
{
    text.iter()
        .take_while(|byte| is_decimal_part(**byte))
        .count()
}

/// Whether the byte is a decimal digit or an underscore.
fn is_decimal_part(byte: u8) -> bool
    ensures { result ≡ is_decimal_part byte }
{
    byte.is_ascii_digit() || byte == b'_'
}

/// Whether the byte is a digit of the base, known or not, or an underscore.
fn is_part(base: Base, byte: u8) -> bool
    ensures { result ≡ is_part base byte }
{
    is_digit(base, byte) || is_strange(byte) || byte == b'_'
}

/// Whether the byte is a known digit of the base.
fn is_digit(base: Base, byte: u8) -> bool
    ensures { result ≡ is_digit base byte }
{
    match base {
        Base::Binary => byte == b'0' || byte == b'1',
        Base::Octal => b'0' <= byte && byte <= b'7',
        Base::Decimal => byte.is_ascii_digit(),
        Base::Hexadecimal => is_hexadecimal_digit(byte),
    }
}

/// Whether the byte is a hexadecimal digit.
fn is_hexadecimal_digit(byte: u8) -> bool
    ensures { result ≡ is_digit Base.Hexadecimal byte }
{
    byte.is_ascii_digit() || (b'a' <= byte && byte <= b'f') || (b'A' <= byte && byte <= b'F')
}

/// Whether the byte is a digit of unknown value: `x`, `z` or `?`.
fn is_strange(byte: u8) -> bool
    ensures { result ≡ is_strange byte }
{
    byte == b'x' || byte == b'X' || byte == b'z' || byte == b'Z' || byte == b'?'
}

/// Whether there is a digit, and the digits fit in a literal.
fn are_sound_digits(sized: bool, base: Base, digits: &[u8]) -> bool
    ensures { result ≡ are_sound_digits sized base digits.now }
{
    has_digit(digits) && digits_fit(sized, base, digits)
}

/// Whether there is a digit, known or not.
fn has_digit(digits: &[u8]) -> bool
    ensures { result ≡ list_any (λ byte. not (is_underscore byte)) digits.now }
{
    digits.iter().any(|byte| *byte != b'_')
}

/// Whether the digits fit in a literal of 128 bits, or of 32 bits where it has no size.
fn digits_fit(sized: bool, base: Base, digits: &[u8]) -> bool
    ensures { result ≡ digits_fit sized base digits.now }
{
    match base {
        Base::Decimal => decimal_digits_fit(sized, digits),
        Base::Binary => true,
        Base::Octal => true,
        Base::Hexadecimal => true,
    }
}

/// Whether decimal digits fit in a literal.
fn decimal_digits_fit(sized: bool, digits: &[u8]) -> bool
    ensures { result ≡ digits_fit sized Base.Decimal digits.now }
{
    let greatest = if sized { u128::MAX } else { 0xffff_ffff };
    has_strange(digits) || number_within(greatest, digits).is_some()
}

/// Whether a digit of unknown value is among the digits.
fn has_strange(digits: &[u8]) -> bool
    ensures { result ≡ list_any is_strange digits.now }
{
    digits.iter().any(|byte| is_strange(*byte))
}
