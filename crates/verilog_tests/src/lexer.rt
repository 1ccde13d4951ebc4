//! Tests of `verilog_lexer`: short sources, and the tokens or the faults that they give.

mod cases;
mod expansions;
mod files;
mod left_out;
mod limits;
mod sources;
mod tokens;
