ghost use Rattle.std.specs.Prelude.{◌≡◌, ◌+◌, ◌∷◌, []};
ghost use Rattle.elab_scope.specs.View.{fault_view, name_view};
ghost use Rattle.flat_design.specs.Fault as spec;

use crate::names::NameAt;
use cov_host::Place;
use elab_const::ConstKind;
use flat_design::{DesignLimit, ElabKind};

/// What is wrong, and where, by a name of the modules.
#[derive(Clone, Copy, Drop)]
pub enum FoundFault<'a> {
    /// Of a constant, a width or a loop.
    Constant(ConstKind, Place),
    /// Of modules, with the name that it is reported with. For a top that no module has there is no place.
    Modules(ElabKind, Option<Place>, &'a [u8]),
}

impl<'a> FoundFault<'a> {
    /// A fault of this kind at a name.
    pub fn at(kind: ElabKind, name: NameAt<'a>) -> FoundFault<'a>
        ensures { fault_view result ≡ spec.fault_at kind (name_view name.entry) }
    {
        FoundFault::Modules(kind, Some(name.place), name.name)
    }

    /// A limit that is passed at this place.
    pub fn limit(limit: DesignLimit, place: Place) -> FoundFault<'a>
        ensures { fault_view result ≡ spec.limit_fault limit place }
    {
        FoundFault::Modules(ElabKind::Limit, Some(place), digit(limit))
    }

    /// Whether this fault is reported and not the other one: it comes first in the text, or at one place it alone is an
    /// undeclared name.
    pub fn goes_before(&self, other: &FoundFault) -> bool
        ensures { result ≡ spec.goes_before (fault_view self.now) (fault_view other.now) }
    {
        let first = self.is_undeclared() && !other.is_undeclared();
        match (self.place(), other.place()) {
            (None, _) => false,
            (Some(_), None) => true,
            (Some(place), Some(other)) => is_before_or(first, place, other),
        }
    }

    /// Whether a limit is passed.
    pub fn is_limit(&self) -> bool
        ensures { result ≡ spec.is_limit (fault_view self.now) }
    {
        matches!(self, FoundFault::Modules(ElabKind::Limit, _, _))
    }

    fn is_undeclared(&self) -> bool
        ensures { result ≡ spec.is_undeclared (fault_view self.now) }
    {
        matches!(self, FoundFault::Modules(ElabKind::Undeclared, _, _))
    }

    fn place(&self) -> Option<Place>
        ensures { result ≡ spec.place_of (fault_view self.now) }
    {
        match self {
            FoundFault::Constant(_, place) => Some(*place),
            FoundFault::Modules(_, place, _) => *place,
        }
    }
}

/// Whether p is before q in the text, or is the same place and the test holds.
pub fn is_before_or(same: bool, p: Place, q: Place) -> bool
    ensures { result ≡ spec.before_or same p q }
{
    p.source < q.source
        || p.source == q.source
            && (p.line < q.line
                || p.line == q.line && (p.column < q.column || p.column == q.column && same))
}

/// The number of a limit as a digit.
fn digit(limit: DesignLimit) -> &'static [u8]
    ensures { result.now ≡ (48 + spec.limit_number limit) ∷ [] }
{
    match limit {
        DesignLimit::Signals => b"1",
        DesignLimit::Processes => b"2",
        DesignLimit::MemoryWords => b"3",
        DesignLimit::Words => b"4",
        DesignLimit::Instances => b"5",
        DesignLimit::Path => b"6",
        DesignLimit::Statements => b"7",
        DesignLimit::Text => b"8",
    }
}
