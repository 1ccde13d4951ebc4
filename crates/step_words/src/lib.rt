//! Which memories have changed over a step: the words of the memories that continuous assignments and combinational blocks read,
//! as they were known at the start of the step.
//!
//! After the Clocked processes of a step [`StepWords::compare`] compares the words that they have written, and no others.
//! [`StepWords::has_changed`] and [`StepWords::is_still`] then say of a memory whether a word has surely changed, and whether
//! surely none has. After [`StepWords::forget`] nothing is known. Only [`StepWords::new`] takes memory; a step costs the words that
//! are written in it.
#![tactic(auto)]

mod followed;
mod known;
mod memory;
mod words;

pub use followed::followed_memories;
pub use known::known_word;
pub use words::StepWords;
pub use written_words::WrittenWords;
