ghost use Rattle.std.specs.Prelude.{◌≡◌, ◌<◌, ◌-◌, ◌^◌, max};
ghost use Rattle.verilog_tree.specs.Depth.{alone, none, deeper, under};

use cov_host::Place;

/// How deep an expression nests: that of a number or a name is 1, and that of any other is one more than the greatest
/// of the expressions directly in it. The place is where the first of the innermost ones begins.
#[derive(Clone, Copy, PartialEq, Eq)]
pub struct Depth {
    /// How deep the expression nests.
    pub height: u64,
    /// Where the first of the innermost expressions begins.
    pub place: Place,
}

impl Depth {
    /// Of a number or a name.
    pub fn alone(place: Place) -> Depth
        ensures { result ≡ alone place }
    {
        Depth { height: 1, place }
    }

    /// Of no expression.
    pub fn none(place: Place) -> Depth
        ensures none { result ≡ none place }
        ensures height { result.height ≡ 0 }
    {
        Depth { height: 0, place }
    }

    /// The deeper of two expressions, of which `other` comes later, and the first where they are equal.
    pub fn deeper(self, other: Depth) -> Depth
        ensures deeper { result ≡ deeper self other }
        ensures height { result.height ≡ max self.height other.height }
    {
        if other.height <= self.height {
            self
        } else {
            other
        }
    }

    /// Of an expression of which this is the deepest part.
    pub fn under(self) -> Depth
        requires { self.height < 2 ^ 64 - 1 }
        ensures { result ≡ under self }
    {
        Depth {
            height: self.height + 1,
            place: self.place,
        }
    }
}
