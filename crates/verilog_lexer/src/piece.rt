ghost use Rattle.std.specs.Prelude.{◌≡◌, ◌+◌, ◌-◌, ◌^◌, ◌<◌, ◌≤◌, ◌&&◌, nat_le, length, slice_index};
ghost use Rattle.std.specs.List.{list_all};
ghost use Rattle.verilog_lexer.specs.Run.{run};
ghost use Rattle.verilog_lexer.specs.Piece.{piece_length, word_piece, quoted_piece, based_piece, system_piece, operator_piece, comment_piece, slash_piece, parenthesis_piece, name_in, name_behind, name_end, define_piece, is_file_name, file_piece, include_piece, condition_piece, other_piece, directive_word, accent_piece, mark_piece, read_piece, is_plain, left_out_slash, left_out_quote, left_out_accent, left_out_piece, token_of, fault, is_macro_name};
ghost use Rattle.verilog_lexer.specs.PieceView.{piece_view, piece_option_view};
ghost use Rattle.verilog_lexer.specs.ReadingView.{passage_view};

use crate::based::{base_at, based_length, decimal_length};
use crate::define_text::define_text_length;
use crate::directive::{Directive, directive_of, is_use};
use crate::operator::operator_length;
use crate::passage::Passage;
use crate::run::{
    blank_length, byte_at, front, is_white, line_length, name_length, tail, through_pair,
    through_quote, white_length,
};
use crate::{LexKind, TokenKind};
use cov_host::{begins_name, is_identifier, is_keyword};

/// What a directive of conditions asks (IEEE 1364-2001 clause 19.4). A name that is not there is empty.
#[derive(Clone, Copy)]
pub(crate) enum Test<'a> {
    IfDefined(&'a [u8]),
    IfUndefined(&'a [u8]),
    ElseIfDefined(&'a [u8]),
    Otherwise,
    End,
}

/// What is at the front of a text.
#[derive(Clone, Copy)]
pub(crate) enum Piece<'a> {
    /// White space, a comment, an attribute or what is passed over.
    Blank {
        length: usize,
    },
    Token {
        kind: TokenKind,
        text: &'a [u8],
    },
    Define {
        name: &'a [u8],
        text: &'a [u8],
        length: usize,
    },
    Undefine {
        name: &'a [u8],
        length: usize,
    },
    Condition {
        test: Test<'a>,
        length: usize,
    },
    Inclusion {
        name: &'a [u8],
        length: usize,
    },
    Expansion {
        name: &'a [u8],
        length: usize,
    },
    /// A fault after this number of bytes.
    Fault {
        kind: LexKind,
        before: usize,
    },
}

impl<'a> Piece<'a> {
    /// How many bytes are passed over with the piece: at least one.
    pub(crate) fn bytes(&self) -> usize
        ensures { result ≡ piece_length (piece_view self.now) - 1 + 1 }
    {
        self.len().saturating_sub(1) + 1
    }

    /// How many bytes the piece has.
    fn len(&self) -> usize
        ensures { result ≡ piece_length (piece_view self.now) }
    {
        match *self {
            Piece::Blank { length } => length,
            Piece::Token { text, .. } => text.len(),
            Piece::Define { length, .. } => length,
            Piece::Undefine { length, .. } => length,
            Piece::Condition { length, .. } => length,
            Piece::Inclusion { length, .. } => length,
            Piece::Expansion { length, .. } => length,
            Piece::Fault { .. } => 0,
        }
    }
}

/// What is at the front of a text that is read (IEEE 1364-2001 clauses 2 and 19).
#[tactic(auto, unfolding(crate::specs::Piece::read_piece))]
pub(crate) fn read_piece(text: &[u8]) -> Piece<'_>
    ensures { piece_view result ≡ read_piece text.now }
{
    let first = byte_at(text, 0);
    if is_white(first) {
        let length = white_length(text);
        Piece::Blank { length }
    } else if begins_name(first) {
        word_piece(text)
    } else if first.is_ascii_digit() {
        token_of(TokenKind::Decimal, text, decimal_length(text))
    } else {
        mark_piece(text)
    }
}

/// What is at the front of a text that a condition leaves out: only directives of conditions are read there.
#[tactic(auto, unfolding(crate::specs::Piece::left_out_piece))]
pub(crate) fn left_out_piece<'a>(passage: &mut Passage<'a>) -> Piece<'a>
    ensures value { piece_view result ≡ left_out_piece passage.old.text.now }
    ensures same { passage_view passage.new ≡ passage_view passage.old }
{
    let text = passage.text;
    let first = byte_at(text, 0);
    if first == b'/' {
        left_out_slash(text)
    } else if first == b'"' {
        left_out_quote(passage)
    } else if first == b'`' {
        left_out_accent(text)
    } else {
        let length = plain_length(tail(text, 1)) + 1;
        Piece::Blank { length }
    }
}

/// What begins with a mark.
fn mark_piece(text: &[u8]) -> Piece<'_>
    ensures { piece_view result ≡ mark_piece text.now }
{
    let first = byte_at(text, 0);
    if first == b'/' {
        slash_piece(text)
    } else if first == b'(' {
        parenthesis_piece(text)
    } else if first == b'"' {
        quoted_piece(text)
    } else if first == b'`' {
        accent_piece(text)
    } else if first == b'\'' {
        based_piece(text)
    } else if first == b'$' {
        system_piece(text)
    } else {
        operator_piece(text)
    }
}

/// The token of the first bytes.
fn token_of(kind: TokenKind, text: &[u8], length: usize) -> Piece<'_>
    ensures { piece_view result ≡ token_of kind text.now length }
{
    Piece::Token {
        kind,
        text: front(text, length),
    }
}

/// A name or a keyword.
fn word_piece(text: &[u8]) -> Piece<'_>
    ensures { piece_view result ≡ word_piece text.now }
{
    let word = front(text, name_length(text));
    if is_keyword(word) {
        Piece::Token {
            kind: TokenKind::Keyword,
            text: word,
        }
    } else {
        Piece::Token {
            kind: TokenKind::Identifier,
            text: word,
        }
    }
}

/// A string (clause 2.6).
fn quoted_piece(text: &[u8]) -> Piece<'_>
    ensures { piece_view result ≡ quoted_piece text.now }
{
    match through_quote(tail(text, 1)) {
        Some(length) => token_of(TokenKind::Quoted, text, length + 1),
        None => bad_byte(0),
    }
}

/// A based number (clause 2.5.1).
fn based_piece(text: &[u8]) -> Piece<'_>
    ensures { piece_view result ≡ based_piece text.now }
{
    match base_at(text) {
        Some(base) => token_of(TokenKind::Based, text, based_length(base, text)),
        None => bad_byte(0),
    }
}

/// The name of a system task or function (clause 2.7.4).
fn system_piece(text: &[u8]) -> Piece<'_>
    ensures { piece_view result ≡ system_piece text.now }
{
    let length = name_length(tail(text, 1));
    if length == 0 {
        bad_byte(0)
    } else {
        token_of(TokenKind::System, text, length + 1)
    }
}

/// The longest operator.
fn operator_piece(text: &[u8]) -> Piece<'_>
    ensures { piece_view result ≡ operator_piece text.now }
{
    let length = operator_length(text);
    if length == 0 {
        bad_byte(0)
    } else {
        token_of(TokenKind::Operator, text, length)
    }
}

/// A byte that begins no token, after `before` bytes.
fn bad_byte<'a>(before: usize) -> Piece<'a>
    ensures { piece_view result ≡ fault LexKind.BadByte before }
{
    Piece::Fault {
        kind: LexKind::BadByte,
        before,
    }
}

/// A directive that is not known.
fn unknown_directive<'a>() -> Piece<'a>
    ensures { piece_view result ≡ fault LexKind.UnknownDirective 0 }
{
    Piece::Fault {
        kind: LexKind::UnknownDirective,
        before: 0,
    }
}

/// What is between the first two bytes and the next such pair of bytes.
fn comment_piece(first: u8, second: u8, text: &[u8]) -> Piece<'_>
    ensures { piece_view result ≡ comment_piece first second text.now }
{
    match through_pair(first, second, tail(text, 2)) {
        Some(length) => Piece::Blank { length: length + 2 },
        None => Piece::Fault {
            kind: LexKind::OpenComment,
            before: 0,
        },
    }
}

/// A comment (clause 2.3) or a quotient.
fn slash_piece(text: &[u8]) -> Piece<'_>
    ensures { piece_view result ≡ slash_piece text.now }
{
    let next = byte_at(text, 1);
    if next == b'/' {
        let length = line_length(text);
        Piece::Blank { length }
    } else if next == b'*' {
        comment_piece(b'*', b'/', text)
    } else {
        operator_piece(text)
    }
}

/// An attribute (clause 2.8), unless it is the star in parentheses that means all events.
fn parenthesis_piece(text: &[u8]) -> Piece<'_>
    ensures { piece_view result ≡ parenthesis_piece text.now }
{
    let behind = tail(text, 2);
    if byte_at(text, 1) == b'*' && byte_at(behind, white_length(behind)) != b')' {
        comment_piece(b'*', b')', text)
    } else {
        operator_piece(text)
    }
}

/// The directive or the use of a macro at a grave accent.
#[tactic(auto, unfolding(crate::specs::Piece::accent_piece))]
fn accent_piece(text: &[u8]) -> Piece<'_>
    ensures { piece_view result ≡ accent_piece text.now }
{
    let word = directive_word(text);
    if word.is_empty() {
        return bad_byte(0);
    }
    let start = word.len() + 1;
    let directive = directive_of(word);
    let behind = tail(text, start);
    match condition_piece(directive, start, behind) {
        Some(piece) => piece,
        None => other_piece(directive, word, start, behind),
    }
}

/// The word after a grave accent, empty where there is no word.
fn directive_word(text: &[u8]) -> &[u8]
    ensures value { result.now ≡ directive_word text.now }
    ensures within { length result.now ≤ length text.now }
{
    name_in(tail(text, 1))
}

/// A directive of conditions, whose name comes in the text after its word.
fn condition_piece(directive: Directive, start: usize, text: &[u8]) -> Option<Piece<'_>>
    requires { start + length text.now < 2 ^ 64 }
    ensures { piece_option_view result ≡ condition_piece directive start text.now }
{
    let name = name_behind(text);
    let length = start + name_end(text);
    match directive {
        Directive::Ifdef => Some(Piece::Condition {
            test: Test::IfDefined(name),
            length,
        }),
        Directive::Ifndef => Some(Piece::Condition {
            test: Test::IfUndefined(name),
            length,
        }),
        Directive::Elsif => Some(Piece::Condition {
            test: Test::ElseIfDefined(name),
            length,
        }),
        Directive::Else => Some(Piece::Condition {
            test: Test::Otherwise,
            length: start,
        }),
        Directive::Endif => Some(Piece::Condition {
            test: Test::End,
            length: start,
        }),
        Directive::Define => None,
        Directive::Undef => None,
        Directive::Include => None,
        Directive::PassedOver => None,
        Directive::Refused => None,
        Directive::Use => None,
    }
}

/// Any other directive, whose arguments come in the text after its word.
fn other_piece<'a>(directive: Directive, word: &'a [u8], start: usize, text: &'a [u8]) -> Piece<'a>
    requires { start + length text.now < 2 ^ 64 }
    ensures { piece_view result ≡ other_piece directive word.now start text.now }
{
    match directive {
        Directive::Define => define_piece(start, text),
        Directive::Undef => Piece::Undefine {
            name: name_behind(text),
            length: start + name_end(text),
        },
        Directive::Include => include_piece(start, text),
        Directive::PassedOver => Piece::Blank {
            length: start + line_length(text),
        },
        Directive::Use => Piece::Expansion {
            name: word,
            length: start,
        },
        Directive::Refused => unknown_directive(),
        Directive::Ifdef => unknown_directive(),
        Directive::Ifndef => unknown_directive(),
        Directive::Elsif => unknown_directive(),
        Directive::Else => unknown_directive(),
        Directive::Endif => unknown_directive(),
    }
}

/// The name at the front, empty where there is no name.
fn name_in(text: &[u8]) -> &[u8]
    ensures value { result.now ≡ name_in text.now }
    ensures within { length result.now ≤ length text.now }
{
    if begins_name(byte_at(text, 0)) {
        front(text, name_length(text))
    } else {
        &[]
    }
}

/// The name after blanks, empty where there is no name.
fn name_behind(text: &[u8]) -> &[u8]
    ensures value { result.now ≡ name_behind text.now }
{
    name_in(tail(text, blank_length(text)))
}

/// Where the name after blanks ends.
fn name_end(text: &[u8]) -> usize
    ensures value { result ≡ name_end text.now }
    ensures within { result ≤ length text.now }
{
    let blanks = blank_length(text);
    blanks + name_in(tail(text, blanks)).len()
}

/// Whether a macro may have the name: it is an identifier, and no directive has it (clause 19.3.1).
fn is_macro_name(name: &[u8]) -> bool
    ensures { result ≡ is_macro_name name.now }
{
    is_identifier(name) && is_use(directive_of(name))
}

/// The definition of a macro (clause 19.3.1). A macro with arguments is refused.
fn define_piece(start: usize, text: &[u8]) -> Piece<'_>
    requires { start + length text.now < 2 ^ 64 }
    ensures { piece_view result ≡ define_piece start text.now }
{
    let name = name_behind(text);
    let end = name_end(text);
    if is_macro_name(name) && byte_at(text, end) != b'(' {
        let behind = tail(text, end);
        let length = define_text_length(behind);
        Piece::Define {
            name,
            text: front(behind, length),
            length: start + end + length,
        }
    } else {
        unknown_directive()
    }
}

/// The inclusion of a file (clause 19.5).
fn include_piece(start: usize, text: &[u8]) -> Piece<'_>
    requires { start + length text.now < 2 ^ 64 }
    ensures { piece_view result ≡ include_piece start text.now }
{
    let blanks = blank_length(text);
    if byte_at(text, blanks) != b'"' {
        return unknown_directive();
    }
    let behind = tail(text, blanks + 1);
    match through_quote(behind) {
        Some(length) => file_piece(start + blanks + 1, front(behind, length - 1)),
        None => bad_byte(start + blanks),
    }
}

/// The inclusion of the file whose name is in the quotes, after `before` bytes.
fn file_piece(before: usize, name: &[u8]) -> Piece<'_>
    requires { before + length name.now + 1 < 2 ^ 64 }
    ensures { piece_view result ≡ file_piece before name.now }
{
    if is_file_name(name) {
        Piece::Inclusion {
            name,
            length: before + name.len() + 1,
        }
    } else {
        unknown_directive()
    }
}

/// Whether a file can have the name: one or more bytes from 32 to 126.
fn is_file_name(name: &[u8]) -> bool
    ensures { result ≡ is_file_name name.now }
{
    !name.is_empty() && are_printable(name)
}

/// Whether all bytes are from 32 to 126.
fn are_printable(name: &[u8]) -> bool
    ensures { result ≡ list_all (λ byte. nat_le 32 byte && nat_le byte 126) name.now }
{
    name.iter().all(|byte| 32 <= *byte && *byte <= 126)
}

/// How many bytes at the front begin no comment, string or directive.
fn plain_length(text: &[u8]) -> usize
    ensures value { result ≡ run is_plain text.now }
    ensures within { result ≤ length text.now }
{
    text.iter().take_while(|byte| is_plain(**byte)).count()
}

/// Whether the byte begins no comment, string or directive.
fn is_plain(byte: u8) -> bool
    ensures { result ≡ is_plain byte }
{
    !(byte == b'/' || byte == b'"' || byte == b'`')
}

/// A comment, or another byte, in a part that is left out.
fn left_out_slash(text: &[u8]) -> Piece<'_>
    ensures { piece_view result ≡ left_out_slash text.now }
{
    let next = byte_at(text, 1);
    if next == b'/' {
        let length = line_length(text);
        Piece::Blank { length }
    } else if next == b'*' {
        comment_piece(b'*', b'/', text)
    } else {
        Piece::Blank { length: 1 }
    }
}

/// A string, or a quote alone, in a part that is left out.
fn left_out_quote<'a>(passage: &mut Passage<'a>) -> Piece<'a>
    requires { slice_index passage.old.text.now 0 ≡ 34 }
    ensures value { piece_view result ≡ left_out_quote passage.old.text.now }
    ensures same { passage_view passage.new ≡ passage_view passage.old }
{
    match passage.through_quote() {
        Some(length) => Piece::Blank { length: length + 1 },
        None => Piece::Blank { length: 1 },
    }
}

/// A directive of conditions, or another byte, in a part that is left out.
fn left_out_accent(text: &[u8]) -> Piece<'_>
    ensures { piece_view result ≡ left_out_accent text.now }
{
    let word = directive_word(text);
    let start = word.len() + 1;
    match condition_piece(directive_of(word), start, tail(text, start)) {
        Some(piece) => piece,
        None => Piece::Blank { length: 1 },
    }
}
