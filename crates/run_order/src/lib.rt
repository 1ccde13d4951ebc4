//! The place of each process in the order of a step, and the processes of a step in that order.
//!
//! A [`RunOrder`] is made of an order of processes once. [`RunOrder::fill`] puts those that were woken in a step on a wake
//! list, and is proved to put exactly them there, in this order, each once. Only [`RunOrder::new`] takes memory.
#![tactic(auto)]

mod order;

pub use order::RunOrder;
