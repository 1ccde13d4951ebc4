//! The point of a database with a given address.
//!
//! [`find_point`] finds it without memory, in a time that grows as the logarithm of the number of points, and
//! [`is_address`] says whether a text is that of an address.
#![tactic(auto)]

mod fields;
mod key;
mod key_reader;
mod lookup;
mod matcher;
mod split;

pub use fields::is_plain;
pub use lookup::find_point;
pub use matcher::is_address;
pub use split::{behind, split_first};
