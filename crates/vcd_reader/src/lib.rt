//! Reads a value change dump (IEEE 1364-2001 clause 18) in pieces that may end anywhere.
//!
//! A [`Header`] is fed until it is done. It gives the variables and the [`Body`], which gives times and changes one
//! by one and takes no memory. Wherever the pieces end, what was given so far is proved to be what the text so far
//! means (`specs/Dump.antt`); a fault is the first one of the text, with its byte, or want of memory, and every later
//! call answers it again. Where the dump goes off a stretch of it ends, and where it goes on another begins; what is recorded
//! between them is read and dropped. The functions of `laws` state that a text means one thing, has one header and one first
//! fault, that times rise within a stretch, that none is below one before it, that the dump goes off and on in turn, and that it
//! has at most 1,024 stretches. An empty piece is the end of the input.
//!
//! ```text
//! let mut header = Header::new(alloc);
//! let Fed::Done { used } = header.feed(piece)? else { .. }; // More: read the next piece and feed it
//! let (vars, mut body) = header.split();                    // the scope, name, size and code of each variable
//! let step = body.next(rest)?;                              // a time, a change of a code, or: give the next piece
//! ```
#![tactic(auto)]

mod body;
mod body_reader;
mod check;
mod codes;
mod declarations;
mod digits;
mod element;
mod entry;
mod fault;
mod filter;
mod header;
mod header_reader;
mod item;
mod keyword;
mod laws;
mod letters;
mod masks;
mod past;
mod places;
mod progress;
mod reading;
mod says;
mod sections;
mod size;
mod spelling;
mod time_digits;
mod vars;
mod vector;
mod word;

pub use body::Body;
pub use entry::Entry;
pub use fault::{DumpFault, DumpKind};
pub use header::Header;
pub use item::{Fed, Heard, Item, Saying, Step};
pub use laws::{
    dump_goes_on, example_dump, one_header, one_reading, ordered_entries, rising_times,
};
pub use vars::{Var, Vars};
