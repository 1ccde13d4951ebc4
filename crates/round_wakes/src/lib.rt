//! The sets of the steps of a design, each by its last round, made from the design.
//!
//! [`wakes_by_rounds`] finds which event signals of the dump one block writes at most once in each evaluation, and makes
//! the sets with them: such a signal becomes single in the round after one in which its block cannot wake or is clean.
#![tactic(auto)]

mod made;

pub use made::wakes_by_rounds;
