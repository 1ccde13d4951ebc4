//! The statements and processes of the flat design (IEEE 1364-2001 clauses 6.1 and 9). They are built where no fault
//! was found, so only want of memory ends a call without an answer.
//!
//! [`statement`] builds a statement with its loops in their turns; [`continuous_process`], [`net_process`],
//! [`always_process`], [`joined_input_process`] and [`joined_output_process`] build processes. Each is proved to give
//! exactly that of the definition, with the numbers of its line points and counted nodes; the `pass` functions skip
//! the numbers of what is not built.
#![tactic(auto)]

mod forms;
mod nets;
mod numbers;
mod processes;
mod reads;
mod statements;
mod uncounted;

pub use nets::net_process;
pub use numbers::{pass_lines, pass_statement_nodes};
pub use processes::{
    always_process, continuous_process, joined_input_process, joined_output_process,
};
pub use statements::statement;
