ghost use Rattle.std.specs.Prelude.{◌≡◌, ◌≤◌, length};
ghost use Rattle.verilog_lexer.specs.DefineText.{turn, turn_within, turn_in_code, turn_in_quote, turn_in_comment, on_next_line, goes_on, define_text_length};

use crate::run::byte_at;

/// What a byte of a macro's text is part of.
#[derive(Clone, Copy)]
pub(crate) enum Within {
    Code,
    Quote,
    Comment,
}

/// What follows a byte of a macro's text.
#[derive(Clone, Copy)]
pub(crate) struct Standing {
    within: Within,
    taken: bool,
}

/// How many bytes the text of a macro at the front has (IEEE 1364-2001 clause 19.3.1). It goes to the end of the
/// line, without a comment there, and a backslash directly before the line's end continues it, also in a string.
#[tactic(auto, using(crate::proofs::DefineTexts::define_texts), unfolding(crate::specs::DefineText::define_text_length))]
pub(crate) fn define_text_length(text: &[u8]) -> usize
    ensures value { result ≡ define_text_length text.now }
    ensures within { result ≤ length text.now }
{
    let mut state = Standing {
        within: Within::Code,
        taken: false,
    };
    for (i, byte) in text.iter().enumerate() {
        let Some(next) = turn(state, *byte, byte_at(text, i + 1)) else {
            return i;
        };
        state = next;
    }
    text.len()
}

/// Whether the text goes on with a byte, and what follows it.
fn turn(state: Standing, byte: u8, next: u8) -> Option<Standing>
    ensures { result ≡ turn state byte next }
{
    if byte == b'\\' && next == b'\n' {
        goes_on(on_next_line(state.within), true)
    } else if state.taken {
        goes_on(state.within, false)
    } else if byte == b'\n' {
        None
    } else {
        turn_within(state.within, byte, next)
    }
}

/// What the next line begins within. A string ends with its line.
fn on_next_line(within: Within) -> Within
    ensures { result ≡ on_next_line within }
{
    match within {
        Within::Code => Within::Code,
        Within::Quote => Within::Code,
        Within::Comment => Within::Comment,
    }
}

/// Whether the text goes on with a byte on the line that no backslash took with it, and what follows it.
fn turn_within(within: Within, byte: u8, next: u8) -> Option<Standing>
    ensures { result ≡ turn_within within byte next }
{
    match within {
        Within::Code => turn_in_code(byte, next),
        Within::Quote => turn_in_quote(byte),
        Within::Comment => turn_in_comment(byte, next),
    }
}

/// Whether the text goes on with a byte outside of strings and comments, and what follows it.
fn turn_in_code(byte: u8, next: u8) -> Option<Standing>
    ensures { result ≡ turn_in_code byte next }
{
    if byte == b'/' && next == b'/' {
        None
    } else if byte == b'/' && next == b'*' {
        goes_on(Within::Comment, true)
    } else if byte == b'"' {
        goes_on(Within::Quote, false)
    } else {
        goes_on(Within::Code, false)
    }
}

/// Whether the text goes on with a byte in a string, and what follows it.
fn turn_in_quote(byte: u8) -> Option<Standing>
    ensures { result ≡ turn_in_quote byte }
{
    match byte {
        b'\\' => goes_on(Within::Quote, true),
        b'"' => goes_on(Within::Code, false),
        _ => goes_on(Within::Quote, false),
    }
}

/// Whether the text goes on with a byte in a comment between two marks, and what follows it.
fn turn_in_comment(byte: u8, next: u8) -> Option<Standing>
    ensures { result ≡ turn_in_comment byte next }
{
    if byte == b'*' && next == b'/' {
        goes_on(Within::Code, true)
    } else {
        goes_on(Within::Comment, false)
    }
}

/// The text goes on within this, and takes the next byte along or not.
fn goes_on(within: Within, taken: bool) -> Option<Standing>
    ensures { result ≡ goes_on within taken }
{
    Some(Standing { within, taken })
}
