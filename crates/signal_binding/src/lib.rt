//! Binds the signals of a design to the variables of a dump's header, so that the changes of a code are those of the
//! signals that are bound to it.
//!
//! [`bind`] gives a [`Binding`], the code of each signal by its number, and is proved to give exactly that of
//! `specs/Binding.antt`: the variable of the signal's width under the first of its names that has one. It refuses
//! exactly where the instance is not in the dump. [`bound_by_header`] states that a
//! binding depends on the header alone.
#![tactic(auto)]

mod binding;
mod fault;
mod kind;
mod laws;
mod scope;
mod table;

pub use binding::{Binding, bind};
pub use fault::BindFault;
pub use laws::{bound_by_header, codes_by_number};
