ghost use Rattle.std.specs.Prelude.{◌≡◌, ◌&&◌, ◌==◌, ◌+◌, ◌<◌, ◌≤◌, IfSome, length, false, slice_index, drop, take};
ghost use Rattle.cov_host.specs.Identifier.{continues_name};
ghost use Rattle.verilog_lexer.specs.Run.{is_white, is_blank, is_within_line, run, through_pair, closes, takes_next, through_quote};

use cov_host::continues_name;

/// The byte at a place, and 0 past the end.
pub(crate) fn byte_at(text: &[u8], place: usize) -> u8
    ensures { result ≡ slice_index text.now place }
{
    match text.get(place) {
        Some(byte) => *byte,
        None => 0,
    }
}

/// The text from a place on, empty past the end.
pub(crate) fn tail(text: &[u8], place: usize) -> &[u8]
    ensures { result.now ≡ drop place text.now }
{
    text.get(place..).unwrap_or(&[])
}

/// The first bytes of the text, all of them where there are no more.
pub(crate) fn front(text: &[u8], length: usize) -> &[u8]
    ensures { result.now ≡ take length text.now }
{
    text.get(..length).unwrap_or(text)
}

/// Whether the byte is white space (IEEE 1364-2001 clause 2.2).
pub(crate) fn is_white(byte: u8) -> bool
    ensures { result ≡ is_white byte }
{
    byte == b' ' || (9 <= byte && byte <= 13)
}

/// Whether the byte is white space that ends no line.
pub(crate) fn is_blank(byte: u8) -> bool
    ensures { result ≡ is_blank byte }
{
    is_white(byte) && byte != b'\n'
}

/// The number of bytes of white space at the front.
pub(crate) fn white_length(text: &[u8]) -> usize
    ensures value { result ≡ run is_white text.now }
    ensures within { result ≤ length text.now }
{
    text.iter().take_while(|byte| is_white(**byte)).count()
}

/// The number of bytes of white space at the front, within the line.
pub(crate) fn blank_length(text: &[u8]) -> usize
    ensures value { result ≡ run is_blank text.now }
    ensures within { result ≤ length text.now }
{
    text.iter().take_while(|byte| is_blank(**byte)).count()
}

/// How many bytes there are up to the end of the line.
pub(crate) fn line_length(text: &[u8]) -> usize
    ensures value { result ≡ run is_within_line text.now }
    ensures within { result ≤ length text.now }
{
    text.iter().take_while(|byte| **byte != b'\n').count()
}

/// The number of bytes at the front that a name may go on with.
pub(crate) fn name_length(text: &[u8]) -> usize
    ensures value { result ≡ run continues_name text.now }
    ensures within { result ≤ length text.now }
{
    text.iter()
        .take_while(|byte| continues_name(**byte))
        .count()
}

/// How many bytes there are up to the end of the first such pair of bytes.
#[tactic(auto, using(crate::proofs::Texts::texts))]
pub(crate) fn through_pair(first: u8, second: u8, text: &[u8]) -> Option<usize>
    ensures value { result ≡ through_pair first second 0 text.now }
    ensures within { IfSome result (λ n. n ≤ length text.now + 1) }
{
    for (i, byte) in text.iter().enumerate() {
        if is_pair_at(first, second, *byte, byte_at(text, i + 1)) {
            return Some(i + 2);
        }
    }
    None
}

/// Whether two bytes are the pair.
fn is_pair_at(first: u8, second: u8, byte: u8, next: u8) -> bool
    ensures { result ≡ (byte == first && next == second) }
{
    byte == first && next == second
}

/// How many bytes there are up to the end of the first quote on the line. A backslash takes the next byte with it.
#[tactic(auto, using(crate::proofs::Texts::texts))]
pub(crate) fn through_quote(text: &[u8]) -> Option<usize>
    ensures value { result ≡ through_quote 0 false text.now }
    ensures within { IfSome result (λ n. n ≤ length text.now) }
    ensures some { IfSome result (λ n. 0 < n) }
{
    let mut taken = false;
    for (i, byte) in text.iter().enumerate() {
        if *byte == b'\n' {
            return None;
        }
        if closes(*byte, taken) {
            return Some(i + 1);
        }
        taken = takes_next(*byte, taken);
    }
    None
}

/// Whether the byte is a quote that no backslash takes with it.
pub(crate) fn closes(byte: u8, taken: bool) -> bool
    ensures { result ≡ closes byte taken }
{
    byte == b'"' && !taken
}

/// Whether the byte is a backslash that takes the next byte with it.
pub(crate) fn takes_next(byte: u8, taken: bool) -> bool
    ensures { result ≡ takes_next byte taken }
{
    byte == b'\\' && !taken
}
