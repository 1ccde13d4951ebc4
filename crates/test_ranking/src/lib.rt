//! The order in which the tests of one design are worth running: each next one adds the most points that were not hit
//! before.
//!
//! [`HitSet::of`] gives the hit points of a table, [`rank`] the ranking of several, and [`ranking_text`] its text. A
//! ranking is proved to be exactly that of `specs/Ranking.antt`; [`ranking_laws`] states that tables have one
//! ranking, that each used table adds a point and is used once, and that together they hit what the merge of all
//! tables has hit.
#![tactic(auto)]

mod candidate;
mod hit_set;
mod laws;
mod next;
mod print;
mod rank_tables;
mod ranking;
mod skipped;
mod words;

pub use hit_set::HitSet;
pub use laws::ranking_laws;
pub use print::ranking_text;
pub use rank_tables::rank;
pub use ranking::{Ranking, Use};
