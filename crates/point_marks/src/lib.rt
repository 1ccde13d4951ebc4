//! A verdict for each coverage point by its number: that it was hit, what left it open first, or nothing.
//!
//! [`PointMarks::hit`] and [`PointMarks::doubt`] mark a point, and [`PointMarks::verdict`] is proved to give hit
//! where it was marked so, else its first doubt, else missed. Only [`PointMarks::new`] takes memory.
#![tactic(auto)]

mod marks;
mod verdict;

pub use marks::PointMarks;
pub use verdict::{Doubt, Verdict};
