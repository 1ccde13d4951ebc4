//! An instance of a module, opened once for both phases of elaboration (IEEE 1364-2001 clauses 3 and 12).
//!
//! [`open_instance`] gives the parameters and declared names of an instance, and which of the names are signals of
//! its own; it reports the faults of its path, parameters and declarations. [`Opened::enter`] gives the scope of the
//! instance with the numbers of its signals and memories, and the `push` functions append its signals, memories,
//! constants and aliases to a design. Each is proved to give exactly those of the definition of the flat design.
#![tactic(auto)]

mod entries;
mod identifiers;
mod instantiation;
mod loop_names;
mod opening;
mod parts;
mod roles;
mod used;

pub use entries::Inside;
pub use instantiation::{Instantiation, Numbers, PortAlias};
pub use opening::{Opened, open_instance};
pub use parts::{push_aliases, push_constants, push_memories, push_signals};
pub use roles::{Links, Role};
pub use used::Uses;
