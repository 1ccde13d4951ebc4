//! Tests of the values: `four_state` and `known_state`.

mod definitions;
mod operators;
mod partly_known;
mod parts;
mod spelled;
