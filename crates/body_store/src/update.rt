//! The updates that nonblocking assignments have queued (IEEE 1364-2001, clause 9.2.2).

use body_calls::Lvalue;
use known_state::Known;

/// One part of a nonblocking assignment that waits for the flush.
#[derive(Clone, Copy)]
pub struct Update {
    /// What it writes.
    pub to: Lvalue,
    /// The bits that it puts there.
    pub value: Known,
    /// Whether it is surely made.
    pub certain: bool,
}
