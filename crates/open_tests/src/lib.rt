//! The undecided tests of a body that are open while it runs, and how they end. No memory is taken.
#![tactic(auto)]

mod after_arm;
mod ways;

pub use after_arm::AfterArm;
pub use assignments::{
    Bodies, Notes, Piece, Progress, Spot, assign, at_width, cut, evaluate, locate, queue_pieces,
    total_width,
};
pub use ways::end_tests;
