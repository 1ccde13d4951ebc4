//! The report of a coverage database: how much is covered, module by module or instance by instance.
//!
//! [`report`] gives the text of the report under [`Options`], and is proved to give exactly that of
//! `specs/Report.antt`: a block for each module or instance with a line for each metric, the points and the sources
//! where they are asked for, and the sum of all blocks.
#![tactic(auto)]

mod block;
mod columns;
mod counted;
mod counts;
mod gather;
mod metric;
mod options;
mod point_line;
mod whole_report;

pub use metric::Metric;
pub use options::{Letters, Level, Options};
pub use whole_report::report;
