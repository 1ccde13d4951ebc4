//! Expressions and left sides of a source, read from its tokens.
//!
//! A `Cursor` goes through the tokens of a source. `expression` and `target` read what is at it as the grammar of
//! `verilog_grammar` does (IEEE 1364-2001 annex A.8): each gives the tree that the tokens spell and goes past them, or the
//! first fault that the grammar has there, with its token. `verilog_items` and `verilog_parser` read the rest of a module.
#![tactic(auto)]

mod cursor;
mod digits;
mod expr;
mod fault;
mod literal;
mod measured;
mod operator;
mod select;

pub use cursor::Cursor;
pub use expr::{begins_expression, expression, expressions, in_parentheses};
pub use fault::{Fault, ReadFault, Wrong};
pub use measured::Measured;
pub use select::{begins_target, target};
