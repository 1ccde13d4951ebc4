ghost use Rattle.std.specs.Prelude.{◌≡◌, ℕ, [], Some, Ok, Err, IfOk, OnOk, IfErr, length, is_none};
ghost use Rattle.std.specs.Option.{option_map};
ghost use Rattle.verilog_lexer.specs.Answer.{IsFault};
ghost use Rattle.verilog_lexer.specs.Reading.{is_continuation};
ghost use Rattle.verilog_lexer.specs.Spot.{IsInRange};
ghost use Rattle.verilog_lexer.specs.PieceView.{piece_view};
ghost use Rattle.verilog_lexer.specs.declared.fault.LexFault.TheVariants as lex_fault;

use crate::condition::{Conditions, is_left_out, named, obey};
use crate::macros::Macros;
use crate::passage::Passage;
use crate::piece::{Piece, left_out_piece, read_piece};
use crate::run::{byte_at, front};
use crate::spot::Spot;
use crate::tokens::push_token;
use crate::{Defines, LexFault, LexKind, Token};
use cov_host::Name;
use std::alloc::Global;
use std::mem;

/// The most bytes that texts have together which are put in for uses of macros and for inclusions. Since each turn of the
/// reader ends a text or passes over a byte of one, this bounds the turns too.
const MOST_PUT_IN: usize = 134_217_728;

/// How many bytes more than it has a text counts that is put in.
const BYTES_OF_EACH: usize = 8;

/// What is to be read in the place of a directive or a macro.
#[derive(Clone, Copy)]
pub(crate) enum Entry<'a> {
    MacroText(&'a [u8]),
    File(&'a [u8]),
}

/// What has been read so far: the tokens, the macros, the open conditions of the file, and how many bytes may still be
/// put in for uses of macros and for inclusions.
#[derive(Drop)]
pub(crate) struct Reading<'a> {
    alloc: Global,
    tokens: Vec<Token<'a>>,
    macros: Macros<'a>,
    conditions: Conditions,
    room: usize,
}

impl<'a> Reading<'a> {
    ghost use Rattle.verilog_lexer.specs.Reading.{meaning, expanded, front_piece, beginning, ended, put_in, Step};
    ghost use Rattle.verilog_lexer.specs.ReadingView.{reading_view, entry_view, entry_option, passage_view};
    ghost use Rattle.verilog_lexer.specs.TokenView.{lexemes};

    /// Nothing yet, under the macros that are defined before.
    pub(crate) fn new(alloc: Global, defines: &'a Defines) -> Result<Self, LexFault>
        ensures ok { IfOk result (λ reading. reading_view reading ≡ beginning defines.now) }
        ensures fault { IfErr result (λ fault. fault ≡ LexFault.NoMemory) }
    {
        let mut macros = Macros::new(alloc);
        macros.define_all(defines)?;
        Ok(Reading {
            alloc,
            tokens: Vec::new(alloc),
            macros,
            conditions: Conditions::new(alloc),
            room: MOST_PUT_IN,
        })
    }

    /// The piece at the front of a text.
    pub(crate) fn front_piece(&self, passage: &mut Passage<'a>) -> Piece<'a>
        ensures value { piece_view result ≡ front_piece (is_none (passage_view passage.old).ending) (reading_view self.now).conditions passage.old.text.now }
        ensures same { passage_view passage.new ≡ passage_view passage.old }
    {
        let text = passage.text;
        if passage.is_macro_text() && is_continuation(text) {
            Piece::Blank { length: 2 }
        } else if is_left_out(&self.conditions) {
            left_out_piece(passage)
        } else {
            read_piece(text)
        }
    }

    /// Does what the piece at the front of a text means, and says what is to be read next.
    pub(crate) fn obey(
        &mut self,
        spot: Spot,
        text: &'a [u8],
        piece: Piece<'a>,
    ) -> Result<Option<Entry<'a>>, LexFault>
        requires { IsInRange spot (length text.now) }
        ensures ok { IfOk result (λ entry. meaning spot text.now (piece_view piece.entry) (reading_view self.old) ≡ Ok (record { reading = reading_view self.new; entry = entry_option entry })) }
        ensures fault { IfErr result (IsFault (meaning spot text.now (piece_view piece.entry) (reading_view self.old))) }
    {
        match piece {
            Piece::Blank { .. } => Ok(None),
            Piece::Token { kind, text: word } => {
                push_token(&mut self.tokens, spot, text, kind, word)?;
                Ok(None)
            }
            Piece::Define { name, text, .. } => {
                self.macros.define(name, text)?;
                Ok(None)
            }
            Piece::Undefine { name, .. } => {
                named(name, spot.place)?;
                self.macros.undefine(name);
                Ok(None)
            }
            Piece::Condition { test, .. } => {
                obey(&mut self.conditions, &self.macros, test, spot.place)?;
                Ok(None)
            }
            Piece::Inclusion { name, .. } => Ok(Some(Entry::File(name))),
            Piece::Expansion { name, .. } => self.expansion(spot, name),
            Piece::Fault { kind, before } => {
                let behind = spot.after_all(front(text, before));
                Err(LexFault::at(kind, behind.place))
            }
        }
    }

    /// Ends a text: where it is a file, all its conditions are closed, and those round it count again.
    pub(crate) fn end_text(
        &mut self,
        ending: Option<Conditions>,
        spot: Spot,
    ) -> Result<(), LexFault>
        ensures ok { OnOk result (ended (option_map (λ outer. outer.items) ending) spot (reading_view self.old) ≡ Ok (reading_view self.new)) }
        ensures fault { IfErr result (IsFault (ended (option_map (λ outer. outer.items) ending) spot (reading_view self.old))) }
    {
        match ending {
            Some(outer) => self.end_file(outer, spot),
            None => Ok(()),
        }
    }

    /// Ends a file.
    fn end_file(&mut self, outer: Conditions, spot: Spot) -> Result<(), LexFault>
        ensures ok { OnOk result (ended (Some outer.items) spot (reading_view self.old) ≡ Ok (reading_view self.new)) }
        ensures fault { IfErr result (IsFault (ended (Some outer.items) spot (reading_view self.old))) }
    {
        if self.conditions.is_empty() {
            self.conditions = outer;
            Ok(())
        } else {
            Err(LexFault::at(LexKind::OpenCondition, spot.place))
        }
    }

    /// Begins a file, which has no conditions of its own yet. Gives the conditions round it.
    pub(crate) fn begin_file(&mut self) -> Conditions
        ensures outer { result.items ≡ (reading_view self.old).conditions }
        ensures new { reading_view self.new ≡ record (reading_view self.old) { conditions = [] } }
    {
        let none = Conditions::new(self.alloc);
        mem::replace(&mut self.conditions, none)
    }

    /// The tokens that have been read.
    pub(crate) fn into_tokens(self) -> Vec<Token<'a>>
        ensures { lexemes result.items ≡ (reading_view self.entry).tokens }
    {
        let Reading {
            alloc: _,
            tokens,
            macros: _,
            conditions: _,
            room: _,
        } = self;
        tokens
    }

    /// Puts a text in for the use of a macro or an inclusion at a spot, where there is room for it.
    pub(crate) fn put_in(&mut self, spot: Spot, inside: &Passage<'_>) -> Result<(), LexFault>
        ensures ok { OnOk result (put_in spot (record { passage = passage_view inside.now; reading = reading_view self.old }) ≡ Ok (record { passage = passage_view inside.now; reading = reading_view self.new })) }
        ensures fault { IfErr result (IsFault (put_in spot (record { passage = passage_view inside.now; reading = reading_view self.old }))) }
    {
        let bytes = inside.text.len() + BYTES_OF_EACH;
        if self.room < bytes {
            return Err(LexFault::at(LexKind::ExpansionTooLong, spot.place));
        }
        self.room -= bytes;
        Ok(())
    }

    /// The text of the macro that is used.
    fn expansion(&self, spot: Spot, name: &[u8]) -> Result<Option<Entry<'a>>, LexFault>
        ensures ok { IfOk result (λ entry. expanded spot.place name.now ((reading_view self.now).macros name.now) (reading_view self.now) ≡ Ok (record { reading = reading_view self.now; entry = entry_option entry })) }
        ensures fault { IfErr result (IsFault (expanded spot.place name.now ((reading_view self.now).macros name.now) (reading_view self.now))) }
    {
        match self.macros.get(name) {
            Some(text) => Ok(Some(Entry::MacroText(text))),
            None => Err(named_fault(self.alloc, LexKind::UnknownMacro, spot, name)),
        }
    }
}

/// Whether a backslash before the end of a line is at the front.
fn is_continuation(text: &[u8]) -> bool
    ensures { result ≡ is_continuation text.now }
{
    byte_at(text, 0) == b'\\' && byte_at(text, 1) == b'\n'
}

/// A fault at a spot, with a name.
pub(crate) fn named_fault(alloc: Global, kind: LexKind, spot: Spot, name: &[u8]) -> LexFault
    ensures { IsFault {A = ℕ} (Err (lex_fault.At kind (Some spot.place) (Some name.now))) result }
{
    match name.to_vec(alloc) {
        Ok(bytes) => LexFault::At {
            kind,
            place: Some(spot.place),
            detail: Some(Name::from_vec(bytes)),
        },
        Err(_) => LexFault::NoMemory,
    }
}
