//! Tests of `verilog_parser`: texts, and the trees or the faults that they give. The kinds of tokens are those of
//! `verilog_grammar`; and the copies and depths of `verilog_tree`.

mod cases;
mod depth;
mod faults;
mod kinds;
mod modules;
mod show;
mod source;
mod trees;
