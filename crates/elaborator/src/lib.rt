//! From the modules of sources to one flat design (IEEE 1364-2001 clause 12).
//!
//! [`elaborate`] gives exactly the flat design of the modules and a top, as `answer` of `flat_design` says, or the
//! first fault in the text. It goes over the instances twice, from the top down: first for what is wrong and for the
//! number of signals, then for the design, in which memories are numbered after all signals.
//!
//! ```text
//! let modules = parse(alloc, &tokens)?;             // of `verilog_parser`
//! let design = elaborate(alloc, &modules, "pads")?; // its instances, signals, memories and processes, by number
//! ```
#![tactic(auto)]

mod elaboration;
mod entering;
mod ground;
mod inner;
mod instances;
mod items;
mod modules;
mod naming;
mod nets;
mod opening;
mod ports;
mod processes;
mod walk;

pub use elaboration::elaborate;
