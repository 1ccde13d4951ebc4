//! The tokens that are left.

ghost use Rattle.std.specs.Prelude.{◌≡◌, ◌==◌, ◌≤◌, length, drop, [], ◌∷◌};
ghost use Rattle.verilog_lexer.specs.TokenView.{lexeme, lexemes};
ghost use Rattle.grammar_rules.specs.Rule.{next, take_one};
ghost use Rattle.verilog_grammar.specs.Language.{verilog};
ghost use Rattle.verilog_grammar.specs.Kind.{code, next_kind};
ghost use Rattle.verilog_expressions.specs.Cursor.{take_next, deep_fault};
ghost use Rattle.verilog_expressions.specs.Gives.{Gives};
ghost use Rattle.verilog_expressions.specs.declared.fault.ReadFault.TheVariants as read_fault;
ghost use Rattle.verilog_expressions.specs.declared.fault.Wrong.TheVariants as wrong;

use crate::fault::{Fault, ReadFault, Wrong};
use cov_host::Place;
use std::marker::Model;
use verilog_grammar::Kind;
use verilog_lexer::Token;

/// The tokens that are left, with the kind of the next one. Each token is classified once.
#[derive(Drop)]
pub struct Cursor<'t, 'a> {
    tokens: &'t [Token<'a>],
    at: usize,
    kind: Kind,
}

impl<'t, 'a> Model for Cursor<'t, 'a> {
    ghost use Rattle.std.specs.Prelude.{◌≡◌, ◌≤◌, List, drop, length};
    ghost use Rattle.verilog_lexer.specs.Tokens.{Lexeme};
    ghost use Rattle.verilog_lexer.specs.TokenView.{lexemes};
    ghost use Rattle.verilog_grammar.specs.Kind.{next_kind};

    ghost Value = { List Lexeme };

    ghost view = { λ c. lexemes (drop c.at c.tokens.now) };

    ghost invariant = { λ c. (c.at ≤ length c.tokens.now) × (c.kind ≡ next_kind (lexemes (drop c.at c.tokens.now))) };
}

/// The kind of the token at a place.
fn kind_at(tokens: &[Token<'_>], at: usize) -> Kind
    requires { at ≤ length tokens.now }
    ensures { result ≡ next_kind (lexemes (drop at tokens.now)) }
{
    match tokens.get(at) {
        None => Kind::Nothing,
        Some(token) => Kind::of(token),
    }
}

impl<'t, 'a> Cursor<'t, 'a> {
    /// Before all tokens.
    pub fn new(tokens: &'t [Token<'a>]) -> Self
        ensures { result ≡ lexemes tokens.now }
    {
        Cursor {
            tokens,
            at: 0,
            kind: kind_at(tokens, 0),
        }
    }

    /// How many tokens are left.
    pub fn left(&self) -> usize
        ensures { result ≡ length self.now }
    {
        self.tokens.len() - self.at
    }

    /// The kind of the next token.
    pub fn kind(&self) -> Kind
        ensures { result ≡ next_kind self.now }
    {
        self.kind
    }

    /// Whether a token of this kind is next.
    #[tactic(auto, using(crate::proofs::Taking::next_is_code))]
    pub fn sees(&self, kind: Kind) -> bool
        ensures { result ≡ (next verilog self.now == code kind) }
    {
        self.kind.code() == kind.code()
    }

    /// The next token is one with which no rule goes on.
    pub fn refuse(&self) -> ReadFault
        ensures { result ≡ read_fault.At (record { wrong = wrong.Unexpected; left = length self.now }) }
    {
        ReadFault::At(Fault {
            wrong: Wrong::Unexpected,
            left: self.left(),
        })
    }

    /// With the next token a part is known to nest too deep.
    pub fn too_deep(&self, place: Place) -> ReadFault
        ensures { result ≡ read_fault.At (record { wrong = wrong.TooDeep place; left = length self.now }) }
    {
        ReadFault::At(Fault {
            wrong: Wrong::TooDeep(place),
            left: self.left(),
        })
    }

    /// The part that begins with the next token nests too deep.
    pub fn deep(&self) -> ReadFault
        ensures { result ≡ deep_fault self.now }
    {
        match self.tokens.get(self.at) {
            None => self.refuse(),
            Some(token) => self.too_deep(token.place),
        }
    }

    /// Takes the next token, of whatever kind.
    pub fn take_next(&mut self) -> Result<Token<'a>, ReadFault>
        ensures { Gives lexeme (take_next self.old) result self.new }
    {
        match self.tokens.get(self.at) {
            None => Err(self.refuse()),
            Some(token) => {
                let token = *token;
                self.at += 1;
                self.kind = kind_at(self.tokens, self.at);
                Ok(token)
            }
        }
    }

    /// Takes a token of this kind.
    #[tactic(auto, unfolding(grammar_rules::specs::Rule::take_one))]
    pub fn take(&mut self, kind: Kind) -> Result<Token<'a>, ReadFault>
        ensures { Gives lexeme (take_one verilog (code kind ∷ []) self.old) result self.new }
    {
        if !self.sees(kind) {
            return Err(self.refuse());
        }
        self.take_next()
    }
}
