ghost use Rattle.std.specs.Prelude.{◌≡◌};

use crate::Bit;

/// A change of a bit that `posedge` or `negedge` waits for (IEEE 1364-2001, clause 9.7.2).
#[derive(Clone, Copy, PartialEq, Eq)]
pub enum Edge {
    /// From 0 to 1, x or z, or from x or z to 1.
    Pos,
    /// From 1 to 0, x or z, or from x or z to 0.
    Neg,
}

impl Edge {
    ghost use Rattle.four_state.specs.Edges.{edge_between};

    /// The edge from one value of a bit to the next, if there is one.
    pub fn between(old: Bit, new: Bit) -> Option<Edge>
        ensures { result ≡ edge_between old new }
    {
        match (old, new) {
            (Bit::Zero, Bit::Zero) | (Bit::One, Bit::One) => None,
            (Bit::Zero, _) | (_, Bit::One) => Some(Edge::Pos),
            (Bit::One, _) | (_, Bit::Zero) => Some(Edge::Neg),
            _ => None,
        }
    }
}
