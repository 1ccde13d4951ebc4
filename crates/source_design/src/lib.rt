//! From the files that the words of a command name to the design that they describe.
//!
//! [`read_design`] reads the files, lexes, parses and elaborates them; where the lexer finds an included file to be
//! missing, it reads and adds the file and lexes again. It is proved to give the design of the sources of
//! `specs/Accepted.antt` with the names of the sources, or the fault: of a file, a limit, the first one of the lexer,
//! the parser or elaboration with the name of its source. It only reads. [`SourceFault::warn`] warns of a fault by its
//! line.
#![tactic(auto)]

mod fault;
mod read;
mod stage;
mod words;

pub use fault::{SourceFault, SourceKind, SourceRefusal, SourceSpot};
pub use read::{ReadDesign, read_design};
pub use words::SourceWords;
