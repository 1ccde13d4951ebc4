//! Tests of the reader of dumps: `vcd_reader`.

mod bodies;
mod faults;
mod pieces;
