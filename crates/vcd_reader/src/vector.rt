//! A change of a vector that lies whole at the front of a piece.

ghost use Rattle.std.specs.Prelude.{◌≡◌, IfSome};
ghost use Rattle.vcd_reader.specs.Vectors.{AreVectorWords, IsCodeAfter, IsVectorFront, is_vector_letter};

use crate::letters::{is_white_space, length_of_word};
use digit_lanes::digit_run;

/// How many digits a change of a vector has, and how many bytes its code.
#[derive(Clone, Copy)]
pub(crate) struct VectorFront {
    pub(crate) digits: usize,
    pub(crate) code: usize,
}

/// The lengths in the change of a vector that the piece begins with: `b` or `B`, digits, white space, a code, and white
/// space.
#[inline(always)]
pub(crate) fn vector_front(piece: &[u8]) -> Option<VectorFront>
    ensures { IfSome result (IsVectorFront piece.now) }
{
    match piece {
        [letter, words @ ..] if is_vector_letter(*letter) => vector_words(words),
        _ => None,
    }
}

/// Whether the digits of a vector begin so.
fn is_vector_letter(byte: u8) -> bool
    ensures { result ≡ is_vector_letter byte }
{
    matches!(byte, b'b' | b'B')
}

/// The lengths of the digits and of the code that the bytes begin with.
#[inline(always)]
fn vector_words(bytes: &[u8]) -> Option<VectorFront>
    ensures { IfSome result (AreVectorWords bytes.now) }
{
    let digits = digit_run(bytes);
    if digits == 0 {
        return None;
    }
    let (_, rest) = bytes.split_at(digits);
    let code = code_after(rest)?;
    if code == 0 {
        return None;
    }
    Some(VectorFront { digits, code })
}

/// The length of the word after a byte of white space, where white space comes after it.
#[inline(always)]
fn code_after(bytes: &[u8]) -> Option<usize>
    ensures { IfSome result (IsCodeAfter bytes.now) }
{
    match bytes {
        [space, words @ ..] if is_white_space(*space) => length_of_word(words),
        _ => None,
    }
}
