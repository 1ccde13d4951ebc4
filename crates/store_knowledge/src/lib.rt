//! What a [`Store`] knows between the runs of blocks on settled values, as one relation to what is known of the cells of a
//! design (`specs/Knows.antt`), and the calls that keep it.
//!
//! [`known_signal`] gives what is known of a signal, [`keep_signal`] puts other bits in its place, and after [`forget_all`] nothing
//! is known. [`knows_law`] gives what the run of a block asks of a store and what a flush leaves; [`new_store_law`] that a new store
//! knows nothing.
#![tactic(auto)]

mod laws;
mod signals;

pub use body_store::Store;
pub use laws::{knows_law, new_store_law};
pub use open_tests::Piece;
pub use signals::{forget_all, keep_signal, known_signal};
