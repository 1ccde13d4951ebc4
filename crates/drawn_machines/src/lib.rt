//! The states and arcs that the case statements of a design draw for two signals of a module, in each instance of it.
//!
//! [`draw`] adds them to the state machines of a design, or says which of the three names is at fault. It is proved to add exactly the states and
//! arcs of `fsm_extract`, by the digits of their values.
#![tactic(auto)]

mod drawing;
mod fault;
mod value;

pub use drawing::draw;
pub use fault::DrawFault;
pub use fsm_extract::MachinePart;
