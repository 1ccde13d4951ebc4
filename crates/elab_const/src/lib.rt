//! Constants, widths, signs and loops (IEEE 1364-2001 clauses 4.4, 4.5, 9.5 and 9.6).
//!
//! [`shape`] gives the width and sign of an expression alone, [`constant`] the value of an expression that must be
//! constant, [`case_shape`] the width and sign by which a case compares, and [`turns`] the values of the variable of
//! a `for` loop. Each is proved to give exactly what its definition says (`specs/Faults.antt`, `Cases.antt`,
//! `Loops.antt`), or the first fault in the text. What a name means is in a [`Scope`].
//! [`Operands`] and [`takes_context`] say which operands have the width and sign of the context.
#![tactic(auto)]

mod answer;
mod applied;
mod calls;
mod cases;
mod constancy;
mod context;
mod entry;
mod evaluate;
mod evaluated;
mod fault;
mod joined;
mod names;
mod scope;
mod selected;
mod turn;
mod weight;
mod width;

pub use calls::{constant, shape, turns};
pub use cases::case_shape;
pub use entry::Entry;
pub use fault::{ConstFault, ConstKind};
pub use scope::Scope;
pub use turn::Turns;
pub use width::{Operands, Shape, takes_context};
