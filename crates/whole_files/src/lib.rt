//! Whole files over a host: [`read_file`] reads one to its end, and [`write_file`] writes one with a text.
//!
//! What was read is proved to be the content of the file; of a file that is longer than the caller allows, more bytes
//! than that are given, so that the caller can refuse it. What was written is the whole text; after a refusal the
//! file is as before or contains a first part of the text. A refusal names the call that gave nothing, and [`warn_file`]
//! warns of it by its line. [`warn_pieces`] warns by the pieces of a line, without memory, as all that warns does.
#![tactic(auto)]

mod call;
mod files;
mod files_message;
mod pieces;

pub use call::Call;
pub use files::{FileFault, read_file, write_file};
pub use files_message::warn_file;
pub use pieces::{warn_pieces, warn_texts};
