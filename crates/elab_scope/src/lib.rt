//! What the names of an instance mean, and what was found in modules so far (IEEE 1364-2001 clause 12).
//!
//! [`Scope`] maps each name to its meaning, for targets and values and for constants. [`Tally`] keeps the first
//! fault, what the limits count and what is written, up to the first limit that is passed; each call is proved to add
//! what its name says, so the first fault of whole modules follows. [`NameMap`] and [`NameSet`] find names by a hash,
//! and the tests of names say what an expression mentions.
#![tactic(auto)]

mod fault;
mod name_map;
mod name_set;
mod names;
mod scope;
mod tally;
mod texts;

pub use fault::{FoundFault, is_before_or};
pub use name_map::NameMap;
pub use name_set::NameSet;
pub use names::{
    NameAt, base_name, is_memory_name, names_constants, names_faulty, names_no_constant,
    names_thing,
};
pub use scope::{Scope, range_or, span};
pub use tally::{Tally, Written};
