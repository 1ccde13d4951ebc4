//! Which bits of a partly known vector change, as masks, and vectors of which some bits are taken from another one.
//!
//! [`differing`] and [`unsteady`] give the places at which two vectors surely differ, and at which they are not surely
//! the same; [`Toggles::between`] those that go from 0 to 1 or from 1 to 0. [`forgotten`] and [`merged`] take bits out of a
//! vector, and put the bits of another one in. Each is proved place by place (`specs/Changes.antt`), takes no memory and
//! makes no loop over the bits.
#![tactic(auto)]

mod compare;
mod mask;
mod replace;
mod toggles;

pub use compare::{differing, unsteady};
pub use replace::{forgotten, merged};
pub use toggles::Toggles;
