//! Worked examples of definitions: of the elaborated design (`design_model`), of a closing step (`settling`, `step_check`), of the
//! words of memories in it (`step_words`), of its state machines (`step_machines`), and of drawn arcs (`fsm_extract`). There is no
//! code: each function's contract states the facts of one example.
//!
//! `docs/DEFINITIONS.md` lists the examples, and says which definition each one shows.
#![tactic(auto)]

pub mod arcs;
pub mod designs;
pub mod machines;
pub mod steps;
pub mod words;
