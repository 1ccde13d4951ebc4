//! The table of a score: the points of a design with the verdicts of a replay.
//!
//! [`score_table`] collects it, and is proved to give a table that lists each point of the design once, where a point marked hit is
//! hit and one marked missed is never hit in every run that shows the dump, and where each other one has its reason
//! (`specs/Scored.antt`). It has a window for each stretch of the dump that lists two times.
#![tactic(auto)]

mod table;

pub use table::score_table;
