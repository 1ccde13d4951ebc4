//! The commands that read databases, over any host: [`run_merge`] joins databases of one design, [`run_report`] shows
//! one, [`run_lcov`] writes one as a tracefile of lcov, and [`run_rank`] prints the order in which the tests of several
//! are worth running.
//!
//! With `Ok` exactly the text of the definition was written to the output or printed. Each fault has its cause, and
//! one that comes before the output is opened leaves every file as it was. Good files without a failed call give `Ok`
//! or want of memory. No file except the output changes. [`any_order`] states that the tables of one design have one
//! merge, in whatever order. [`CommandFault::warn`] warns of a fault by its line.
#![tactic(auto)]

mod change;
mod exclusion;
mod fault;
mod files;
mod laws;
mod lcov;
mod merge;
mod points;
mod rank;
mod report;

pub use change::Change;
pub use fault::CommandFault;
pub use laws::any_order;
pub use lcov::run_lcov;
pub use merge::run_merge;
pub use points::{run_exclude, run_restore};
pub use rank::run_rank;
pub use report::run_report;
