//! From sources to tokens: the preprocessor with its directives and macros, and the tokens of Verilog (IEEE 1364-2001
//! clauses 2 and 19).
//!
//! [`lex`] gives exactly the tokens of the sources under the defines, as `tokens_of` of `specs/Reading.antt` says, or
//! the first fault with its place. The functions of `laws` say what holds of all tokens: their places rise, each is
//! at its text or at the use of its macro, its text is a part of a source or a define, and names, keywords and
//! numbers are sound. An included file that is missing is a fault with its name, so that the caller can read the
//! file, add it and lex again. [`lex_counted`] says how many steps the reading takes at most, whatever the macros are.
//!
//! ```text
//! let mut sources = Sources::new(alloc);
//! sources.add_root("pads.v", bytes)?;
//! let defines = Defines::new(alloc);
//! let tokens = lex(alloc, &sources, &defines)?; // `module pads (..` gives a keyword, an identifier, an operator, ..
//! ```
#![tactic(auto)]

mod based;
mod condition;
mod define_text;
mod defines;
mod directive;
mod fault;
mod laws;
mod lexing;
mod macros;
mod number;
mod opened;
mod operator;
mod passage;
mod piece;
mod reader;
mod reading;
mod run;
mod sources;
mod spot;
mod token;
mod tokens;

pub use defines::Defines;
pub use fault::{LexFault, LexKind};
pub use laws::{places_rise, texts_are_parts, tokens_are_sound, tokens_stand};
pub use lexing::{lex, lex_counted};
pub use sources::Sources;
pub use token::{Token, TokenKind, Tokens};
