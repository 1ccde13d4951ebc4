//! The coverage of a database as a tracefile of lcov, from which `genhtml` makes pages for a browser.
//!
//! [`tracefile`] gives the text, and is proved to give exactly that of `specs/Tracefile.antt`: a record for each
//! source, with the lines on which statements begin and the branches, which are the cases of counted nodes.
//! [`joined_hits`] states that a merge and a tracefile join verdicts alike.
#![tactic(auto)]

mod branch_line;
mod hit_lines;
mod laws;
mod line;
mod points;
mod record;
mod traced;
mod whole_tracefile;

pub use laws::joined_hits;
pub use whole_tracefile::tracefile;
