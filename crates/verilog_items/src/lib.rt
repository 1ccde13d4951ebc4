//! Declarations, ports, parameters and instances of a module, read from the tokens of a source.
//!
//! Each function takes the `Cursor` of `verilog_expressions` where an item begins, and gives the trees that the tokens spell
//! by the grammar of `verilog_grammar` (IEEE 1364-2001 annex A.2 and A.4) or the first fault that the grammar has there.
//! `verilog_parser` puts the items together, with statements and processes, to modules.
#![tactic(auto)]

mod declaration;
mod instance;
mod parameter;
mod port;

pub use declaration::{integer_item, name, net_item, variable_item};
pub use instance::instance_item;
pub use parameter::{header_params, parameter_item};
pub use port::{Ports, begins_port, header_ports, port_item};
