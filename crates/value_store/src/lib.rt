//! What the replay of a dump keeps of the signals of a design, of which some bits are known, and the queue of the
//! updates that nonblocking assignments make.
//!
//! [`Signals`] keeps a value for each signal, and what bodies read in its place where it is shown or veiled;
//! contracts see lists by the number of a signal, and each call says which of them it changes. [`writes_law`] states
//! that these lists are then what is known of the cells of the design. [`queue_room`] counts the updates that the
//! bodies of a design can queue, and a [`Queue`] has that room. Only the constructors take memory.
#![tactic(auto)]

mod laws;
mod logged;
mod offset;
mod part;
mod queue;
mod room;
mod signals;
mod slot;

pub use body_replay::{Memory, Range, Target, Term};
pub use laws::writes_law;
pub use logged::log_room;
pub use queue::Queue;
pub use room::queue_room;
pub use signals::Signals;
