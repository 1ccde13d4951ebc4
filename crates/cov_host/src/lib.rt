//! The outside of the program as a trait, and the small types that all crates share.
//!
//! [`Host`] is the outside: files that are read and written one at a time, the standard output and the warning
//! output. Its clauses say what a call may change, and that a call answers `Failed` only where a count of failures
//! rose or is at its greatest value. The hosts are in crates of their own: `file_host` is the system, and `memory_hosts` keep
//! files in memory.
//!
//! [`Sequence`] is a list of items, [`Name`], [`Text`] and [`Words`] are texts, and [`Place`] is a place in a source.
//! [`read_decimal`] and the tests of identifiers are exact.
#![tactic(auto)]

mod count;
mod decimal;
mod fault;
mod host;
mod identifier;
mod place;
mod sequence;
mod words;

pub use count::raise;
pub use decimal::read_decimal;
pub use fault::{Failed, HostFault, NoMemory, OpenFault};
pub use host::Host;
pub use identifier::{
    KEYWORDS, begins_name, continues_name, has_name_form, is_identifier, is_keyword,
};
pub use place::Place;
pub use sequence::{Bytes, Calls, Name, Sequence, Text};
pub use words::Words;
