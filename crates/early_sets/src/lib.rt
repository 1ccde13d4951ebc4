//! The sets of one step of a dump: which signals and memories may move, which processes that may wake, and what may
//! change before a clean block is evaluated.
//!
//! [`Wakes`] is made once for a design. In each step the inputs and event signals that change are noted,
//! [`Wakes::settle`] finds what may move, and [`Wakes::choose`] what is early for a block. The sets are proved to be the
//! least ones that the tables allow (`specs/Reached.antt`, `specs/Early.antt`).
//!
//! A signal is single where it is known to change at most once in the step, so that the change that the dump says is all
//! that it does. In round 0 the inputs are single; in each later round also a signal, such as a divided clock, that is
//! written at most once by a block that is evaluated at most once (`specs/Rounds.antt`). `settle` goes on until a round
//! changes nothing. Only [`Wakes::new`] takes memory. `wake_laws` states what the sets are for a lawful design.
#![tactic(auto)]

mod changes;
mod closure;
mod early;
mod edges;
mod habit;
mod rounds;
mod rule;
mod sets;
mod turns;
mod wakes;

pub use edges::Edges;
pub use habit::Habit;
pub use index_sets::Rows;
pub(crate) use rule::Rule;
pub use turns::{TurnCount, Turns, Uncounted};
pub use wakes::Wakes;
