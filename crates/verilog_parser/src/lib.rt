//! From tokens to the trees of the modules that they spell (IEEE 1364-2001 annex A, as far as the language has it).
//!
//! [`parse`] gives modules that the tokens spell by the grammar of `verilog_grammar`, nested at most 256 deep, and
//! where tokens spell modules, it gives these, want of memory aside. A fault is at the first token with which no
//! production goes on, at the end of the tokens, or at the first part that nests too deep. Each function reads one
//! production over a cursor that takes every token once. `verilog_expressions` reads expressions and left sides, and
//! `verilog_items` declarations, ports, parameters and instances; statements, processes and modules are here.
//!
//! ```text
//! let tokens = lex(alloc, &sources, &defines)?; // of `verilog_lexer`
//! let modules = parse(alloc, &tokens)?;         // one `Module` for each `module .. endmodule`, in order
//! ```
#![tactic(auto)]

mod answer;
mod fault;
mod left_out;
mod module;
mod process;
mod statement;

pub use answer::parse;
pub use fault::{ParseFault, ParseKind};
