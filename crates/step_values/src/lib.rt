//! What is known and made of the signals in a closing step, before its Assigns and Combs run.
//!
//! First what is known of the signals that may move is set aside ([`StepValues::open`]). Once the Clocked processes have run, what is
//! known of the signals that they assign is what was made of them ([`StepValues::take_made`]). Then the bits that the other
//! processes may write are made unknown, and the dump's new values are put in ([`StepValues::settle`], by
//! [`StepValues::loosen`] and [`put_dump`]). After that the store and the vectors are those with which the definition of a
//! step lets its Assigns and Combs run (`specs/Starts.antt`). [`bound_law`] and [`still_law`] give what is asked of the
//! signals whose value does not change. Only [`StepValues::new`] takes memory; a step costs what may move, what the processes that
//! run may write and the signals whose value changes.
#![tactic(auto)]

mod dump;
mod forget;
mod laws;
mod room;
mod settle;
mod take;
mod values;

pub use dump::put_dump;
pub use forget::is_coded;
pub use laws::{bound_law, still_law};
pub use store_knowledge::{Piece, Store, keep_signal, known_signal};
pub use values::StepValues;
