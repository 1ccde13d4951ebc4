//! Tables of which some points are excluded from the totals, and their texts.
//!
//! [`read_excluded`] reads the text of a table with its excluded points, or the plain text of a table, of which no
//! point is excluded; [`write_excluded`] gives its text. [`Excluded::exclude`] and [`Excluded::restore`] exclude a point
//! and put it back, by its address as text; [`visible`] is the table of the points that are not excluded.
//! [`exclude_laws`] states that restoring a point after it was excluded gives the value before.
//!
//! ```text
//! let mut excluded = read_excluded(alloc, bytes)?;
//! excluded.exclude("t ff clk - 10")?;                 // the point no longer counts
//! let text = write_excluded(alloc, &excluded)?;       // `covered-ex 1`, `excluded 1`, the address, the table
//! let table = visible(alloc, &excluded)?;             // all other points
//! ```
#![tactic(auto)]

mod copies;
mod excluded;
mod fault;
mod head;
mod laws;
mod marking;
mod read;
mod visible_points;
mod write;

pub use excluded::Excluded;
pub use fault::ToolFault;
pub use laws::exclude_laws;
pub use read::read_excluded;
pub use visible_points::visible;
pub use write::write_excluded;
