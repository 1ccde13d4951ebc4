ghost use Rattle.std.specs.Prelude.{◌≡◌};
ghost use Rattle.early_sets.specs.Edges.{edges_between, may_be};

use four_state::{Bit, Edge};

/// Which edges the change of a signal in this step may be (IEEE 1364-2001, 9.7.2).
#[derive(Clone, Copy)]
pub struct Edges {
    /// It may be a posedge.
    pub rise: bool,
    /// It may be a negedge.
    pub fall: bool,
}

impl Edges {
    /// The change is no edge.
    pub(crate) const NONE: Self = Edges {
        rise: false,
        fall: false,
    };

    /// The change may be each edge.
    pub(crate) const ANY: Self = Edges {
        rise: true,
        fall: true,
    };

    /// The edge from one value of a bit to another, if there is one.
    pub(crate) fn between(old: Bit, new: Bit) -> Self
        ensures { result ≡ edges_between old new }
    {
        let edge = Edge::between(old, new);
        Edges {
            rise: matches!(edge, Some(Edge::Pos)),
            fall: matches!(edge, Some(Edge::Neg)),
        }
    }

    /// Whether the change may be this edge.
    pub(crate) fn may_be(self, edge: Edge) -> bool
        ensures { result ≡ may_be self edge }
    {
        match edge {
            Edge::Pos => self.rise,
            Edge::Neg => self.fall,
        }
    }
}
