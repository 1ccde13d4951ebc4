//! The files of a design: those that the words of a command name, and those that they include.
//!
//! [`read_roots`] reads the files of the words in order, and [`join_include`] reads and adds an included file, whose
//! path [`include_path`] gives. Each file is proved to join the sources with its content, within the limits of
//! `verilog_lexer`, or the first that does not join is reported with the reason. The functions of `laws` state that
//! the name of a missing file is printable, and that the files of the words have one list of sources.
#![tactic(auto)]

mod fault;
mod include;
mod join;
mod laws;
mod roots;

pub use fault::{JoinFault, RootFault};
pub use include::{include_path, join_include};
pub use laws::{missing_names_are_printable, one_list};
pub use roots::read_roots;
