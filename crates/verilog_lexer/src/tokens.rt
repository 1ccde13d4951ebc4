ghost use Rattle.std.specs.Prelude.{◌≡◌, Ok, OnOk, IfErr, length};
ghost use Rattle.std.specs.Option.{option_map};
ghost use Rattle.verilog_lexer.specs.Answer.{IsFault};
ghost use Rattle.verilog_lexer.specs.Spot.{IsInRange};
ghost use Rattle.verilog_lexer.specs.Tokens.{last_of, decimal_of, is_size, bad_based, bad_number, unless, is_identifier_kind, is_too_long, sound_number, room_for_one, short_enough, with_token};
ghost use Rattle.verilog_lexer.specs.TokenView.{lexeme, lexemes, lexeme_option};

use crate::based::is_sound_based;
use crate::number::number_within;
use crate::run::front;
use crate::spot::Spot;
use crate::{LexFault, LexKind, Token, TokenKind};
use cov_host::Place;

/// The most tokens.
const MOST_TOKENS: usize = 4_194_304;

/// The longest identifier, in bytes.
const LONGEST_IDENTIFIER: usize = 255;

/// Adds a token with which the text begins at the end, where it makes no bad number, is no identifier that is too
/// long, and there are not too many tokens.
pub(crate) fn push_token<'a>(
    tokens: &mut Vec<Token<'a>>,
    spot: Spot,
    text: &[u8],
    kind: TokenKind,
    word: &'a [u8],
) -> Result<(), LexFault>
    requires { IsInRange spot (length text.now) }
    ensures ok { OnOk result (with_token spot text.now kind word.now (lexemes tokens.old.items) ≡ Ok (lexemes tokens.new.items)) }
    ensures fault { IfErr result (IsFault (with_token spot text.now kind word.now (lexemes tokens.old.items))) }
{
    sound_number(bad_number(tokens.as_slice(), kind, word, spot.place))?;
    room_for_one(tokens.as_slice(), spot.place)?;
    short_enough(spot, text, kind, word)?;
    tokens.push(Token {
        kind,
        text: word,
        place: spot.place,
    })?;
    Ok(())
}

/// The last token, if it is a plain decimal number.
fn last_decimal<'a>(tokens: &[Token<'a>]) -> Option<Token<'a>>
    ensures { lexeme_option result ≡ decimal_of (last_of (lexemes tokens.now)) }
{
    let last = last_of(tokens)?;
    match last.kind {
        TokenKind::Decimal => Some(last),
        TokenKind::Identifier => None,
        TokenKind::Keyword => None,
        TokenKind::System => None,
        TokenKind::Based => None,
        TokenKind::Quoted => None,
        TokenKind::Operator => None,
    }
}

/// The last token.
fn last_of<'a>(tokens: &[Token<'a>]) -> Option<Token<'a>>
    ensures { lexeme_option result ≡ last_of (lexemes tokens.now) }
{
    tokens.last().copied()
}

/// Where a bad number begins, if the token that follows these tokens makes one.
fn bad_number(tokens: &[Token<'_>], kind: TokenKind, text: &[u8], place: Place) -> Option<Place>
    ensures { result ≡ bad_number (lexemes tokens.now) kind text.now place }
{
    match kind {
        TokenKind::Decimal => unless(number_within(0xffff_ffff, text).is_some(), place),
        TokenKind::Based => bad_based(last_decimal(tokens), text, place),
        TokenKind::Identifier => None,
        TokenKind::Keyword => None,
        TokenKind::System => None,
        TokenKind::Quoted => None,
        TokenKind::Operator => None,
    }
}

/// Where a bad literal begins that ends with this based number, if it is bad.
fn bad_based(size: Option<Token<'_>>, text: &[u8], place: Place) -> Option<Place>
    ensures { result ≡ bad_based (lexeme_option size.entry) text.now place }
{
    match size {
        Some(size) => unless(is_size(size.text) && is_sound_based(true, text), size.place),
        None => unless(is_sound_based(false, text), place),
    }
}

/// The place, unless all is well.
fn unless(well: bool, place: Place) -> Option<Place>
    ensures { result ≡ unless well place }
{
    if well { None } else { Some(place) }
}

/// Whether the number of bits of a literal is from 1 to 128.
fn is_size(text: &[u8]) -> bool
    ensures { result ≡ is_size text.now }
{
    match number_within(128, text) {
        Some(size) => size != 0,
        None => false,
    }
}

/// There is no bad number.
fn sound_number(bad: Option<Place>) -> Result<(), LexFault>
    ensures ok { OnOk result (sound_number bad ≡ Ok tt) }
    ensures fault { IfErr result (IsFault (sound_number bad)) }
{
    match bad {
        Some(place) => Err(LexFault::at(LexKind::BadNumber, place)),
        None => Ok(()),
    }
}

/// There may be one token more.
fn room_for_one(tokens: &[Token<'_>], place: Place) -> Result<(), LexFault>
    ensures ok { OnOk result (room_for_one (lexemes tokens.now) place ≡ Ok tt) }
    ensures fault { IfErr result (IsFault (room_for_one (lexemes tokens.now) place)) }
{
    if tokens.len() == MOST_TOKENS {
        Err(LexFault::at(LexKind::TooManyTokens, place))
    } else {
        Ok(())
    }
}

/// The token with which the text begins is no identifier that is too long.
fn short_enough(spot: Spot, text: &[u8], kind: TokenKind, word: &[u8]) -> Result<(), LexFault>
    requires { IsInRange spot (length text.now) }
    ensures ok { OnOk result (short_enough spot text.now kind word.now ≡ Ok tt) }
    ensures fault { IfErr result (IsFault (short_enough spot text.now kind word.now)) }
{
    if is_too_long(kind, word) {
        let last = spot.after_all(front(text, LONGEST_IDENTIFIER));
        Err(LexFault::at(LexKind::BadByte, last.place))
    } else {
        Ok(())
    }
}

/// Whether the token is an identifier that is too long.
fn is_too_long(kind: TokenKind, text: &[u8]) -> bool
    ensures { result ≡ is_too_long kind text.now }
{
    kind == TokenKind::Identifier && text.len() > LONGEST_IDENTIFIER
}
