//! The marks of a design's coverage points: the number of the point of a visit, and what is known of each point.
//!
//! [`Marks::point`] gives the number of the point of a visit in constant time, [`Marks::hit`] and [`Marks::doubt`]
//! mark a point, and [`Marks::verdict`] is proved to say how it came out: hit where it was marked so, else
//! undetermined by its first doubt, else missed. [`Marks::is_settled`] says whether a process has no line or node point
//! left that is not hit. Only [`Marks::new`] takes memory.
#![tactic(auto)]

mod index;
mod laws;
mod marks;
mod open;
mod owners;
mod slots;
mod tables;

pub use cover_points::Visit;
pub use laws::open_example;
pub use marks::Marks;
pub use point_marks::{Doubt, Verdict};
