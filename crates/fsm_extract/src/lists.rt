//! The lists of arcs and states.

use cov_host::Sequence;

/// The arcs and states that are drawn. A value has no x or z, so it is a number below two to the power of the width.
#[derive(Drop)]
pub struct Arcs {
    /// The arcs, each from a value to a value: rising by the first and then by the second, each once.
    pub pairs: Sequence<(u128, u128)>,
    /// The states, rising, each once.
    pub states: Sequence<u128>,
}
