//! The values of number literals (IEEE 1364-2001 clause 2.5.1).

ghost use Rattle.grammar_rules.specs.Grammar.{reads};
ghost use Rattle.verilog_grammar.specs.Language.{verilog};
ghost use Rattle.verilog_grammar.specs.Verilog.{grammar};
ghost use Rattle.verilog_grammar.specs.Expressions.{number_rule};
ghost use Rattle.verilog_expressions.specs.Gives.{Gives};
ghost use Rattle.verilog_expressions.specs.Measured.{measured_view};
ghost use Rattle.std.specs.Prelude.{◌≡◌, ◌%◌, ◌^◌, ◌≤◌, slice_index, drop, filter};
ghost use Rattle.verilog_lexer.specs.Number.{number, with_digit};
ghost use Rattle.verilog_lexer.specs.Based.{letter_at, digits_at};
ghost use Rattle.verilog_lexer.specs.Run.{is_white, run};
ghost use Rattle.verilog_grammar.specs.Literal.{decimal_vector, width_of, bits_of_decimal, based_vector};
ghost use Rattle.verilog_expressions.specs.Digits.{is_digit, capped};

use crate::cursor::Cursor;
use crate::digits::{digits_value, first_digit, low_mask, strange_bit};
use crate::fault::ReadFault;
use crate::measured::Measured;
use four_state::{Bit, Four};
use std::alloc::Global;
use verilog_grammar::Kind;

/// A number, with its size before it or without.
#[tactic(auto, unfolding(verilog_grammar::specs::Expressions::number_rule))]
pub(crate) fn number(alloc: Global, cursor: &mut Cursor<'_, '_>) -> Result<Measured, ReadFault>
    ensures { Gives measured_view (reads verilog grammar 0 number_rule cursor.old) result cursor.new }
{
    if !cursor.sees(Kind::Decimal) {
        let based = cursor.take(Kind::Based)?;
        return Ok(Measured::number(alloc, based.place, based_value(32, based.text))?);
    }
    let decimal = cursor.take(Kind::Decimal)?;
    if !cursor.sees(Kind::Based) {
        return Ok(Measured::number(alloc, decimal.place, decimal_value(decimal.text))?);
    }
    let based = cursor.take(Kind::Based)?;
    let value = based_value(width_of(decimal.text), based.text);
    Ok(Measured::number(alloc, decimal.place, value)?)
}

/// The number that decimal digits write, underscores passed over, cut to 128 bits.
#[tactic(auto, using(crate::proofs::Numbers::numbers))]
fn decimal_number(digits: &[u8]) -> u128
    ensures { result ≡ number 0 digits.now % 2 ^ 128 }
{
    let mut value: u128 = 0;
    for byte in digits {
        value = with_digit(value, *byte);
    }
    value
}

/// The number with one digit more, cut to 128 bits. An underscore adds nothing.
fn with_digit(value: u128, byte: u8) -> u128
    ensures { result ≡ with_digit value byte % 2 ^ 128 }
{
    if byte == b'_' {
        return value;
    }
    value
        .wrapping_mul(10)
        .wrapping_add(u128::from(byte.saturating_sub(b'0')))
}

/// A plain decimal number has 32 bits and a sign.
fn decimal_value(text: &[u8]) -> Four
    ensures { result ≡ decimal_vector text.now }
{
    Four::make(32, true, decimal_number(text) & 0xffff_ffff, 0)
}

/// The number of bits by the size before a based number, from 1 to 128.
#[tactic(auto, using(crate::proofs::Numbers::sizes))]
fn width_of(size: &[u8]) -> u8
    ensures value { result ≡ width_of size.now }
    ensures low { 1 ≤ result }
    ensures high { result ≤ 128 }
{
    let mut width: u8 = 0;
    for byte in size {
        width = longer_size(width, *byte);
    }
    if width == 0 {
        1
    } else if width >= 128 {
        128
    } else {
        width
    }
}

/// The size with one digit more, or 255 where it is greater.
fn longer_size(size: u8, byte: u8) -> u8
    ensures { result ≡ capped (with_digit size byte) }
{
    if byte == b'_' {
        return size;
    }
    size.saturating_mul(10)
        .saturating_add(byte.saturating_sub(b'0'))
}

/// The byte at a place, and 0 past the end.
fn byte_at(text: &[u8], place: usize) -> u8
    ensures { result ≡ slice_index text.now place }
{
    match text.get(place) {
        Some(byte) => *byte,
        None => 0,
    }
}

/// The place of the letter of the base.
fn letter_at(text: &[u8]) -> usize
    ensures value { result ≡ letter_at text.now }
    ensures within { result ≤ 2 }
{
    match byte_at(text, 1) {
        b's' | b'S' => 2,
        _ => 1,
    }
}

/// What follows the first `start` bytes.
fn tail(text: &[u8], start: usize) -> &[u8]
    ensures { result.now ≡ drop start text.now }
{
    text.get(start..).unwrap_or(&[])
}

/// The number of bytes of white space at the front.
fn white_length(text: &[u8]) -> usize
    ensures { result ≡ run is_white text.now }
{
    text.iter().take_while(|byte| is_white(**byte)).count()
}

/// The digits after the letter of the base and white space.
#[tactic(auto, using(crate::proofs::Numbers::tails), unfolding(verilog_lexer::specs::Based::digits_at))]
fn digits(text: &[u8]) -> &[u8]
    ensures { result.now ≡ drop (digits_at text.now) text.now }
{
    let behind = tail(text, letter_at(text) + 1);
    tail(behind, white_length(behind))
}

/// Whether the byte is white space (IEEE 1364-2001 clause 2.2).
fn is_white(byte: u8) -> bool
    ensures { result ≡ is_white byte }
{
    byte == b' ' || (9 <= byte && byte <= 13)
}

/// A based number of `width` bits. It is 0 where the letter names no base.
#[tactic(auto, unfolding(verilog_grammar::specs::Literal::based_vector))]
fn based_value(width: u8, text: &[u8]) -> Four
    requires low { 1 ≤ width }
    requires high { width ≤ 128 }
    ensures { result ≡ based_vector width text.now }
{
    let letter_at = letter_at(text);
    let signed = letter_at == 2;
    let digits = digits(text);
    match byte_at(text, letter_at) {
        b'b' | b'B' => digits_value(width, signed, 1, digits),
        b'o' | b'O' => digits_value(width, signed, 3, digits),
        b'h' | b'H' => digits_value(width, signed, 4, digits),
        b'd' | b'D' => decimal_digits_value(width, signed, digits),
        _ => Four::fill(width, signed, Bit::Zero),
    }
}

/// The value of decimal digits, or of one x or z.
fn decimal_digits_value(width: u8, signed: bool, digits: &[u8]) -> Four
    requires low { 1 ≤ width }
    requires high { width ≤ 128 }
    ensures { result ≡ record { bits = bits_of_decimal width (filter is_digit digits.now); signed = signed } }
{
    match strange_bit(first_digit(digits)) {
        Some(bit) => Four::fill(width, signed, bit),
        None => Four::make(width, signed, decimal_number(digits) & low_mask(width), 0),
    }
}
