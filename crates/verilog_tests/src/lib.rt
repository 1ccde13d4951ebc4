//! Tests of how sources are read: `verilog_lexer`, `verilog_parser` and its parts, and `verilog_tree`.
#![tactic(auto)]

#[cfg(test)]
mod lexer;
#[cfg(test)]
mod parser;
