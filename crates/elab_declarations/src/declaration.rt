ghost use Rattle.std.specs.Prelude.{◌≡◌, if◌then◌else◌};
ghost use Rattle.elab_declarations.specs.DeclarationView.{declaration_view, sort_view};
ghost use Rattle.elab_declarations.specs.ItemKind.{with_fault};
ghost use Rattle.flat_design.specs.Declarations as spec;

use cov_host::Place;
use design_model::Range;
use verilog_tree::Named;

/// What a declared name is.
#[derive(Clone, Copy, Drop)]
pub enum Sort {
    Net,
    Variable,
    /// With the range of its words.
    Memory(Range),
    Integer,
    Parameter,
    Instance,
    /// A net or a variable whose range has a fault.
    Faulty,
    /// A memory of which a range has a fault.
    FaultyMemory,
}

/// A declared name.
#[derive(Clone, Copy, Drop)]
pub struct Declaration<'a> {
    /// The name with its place.
    pub name: &'a Named,
    /// Of the first token of its item.
    pub item: Place,
    /// What is declared.
    pub sort: Sort,
    /// The range of its bits, if it has one.
    pub range: Option<Range>,
    /// Whether it is declared as signed.
    pub signed: bool,
    /// Of a port: true for an input.
    pub direction: Option<bool>,
    /// Whether it is a port that was declared once more.
    pub twice: bool,
}

impl Sort {
    /// A net or a variable, also one whose range has a fault.
    fn is_vector(self) -> bool
        ensures { result ≡ spec.is_vector (sort_view self) }
    {
        matches!(self, Sort::Net | Sort::Variable | Sort::Faulty)
    }

    /// A parameter.
    pub(crate) fn is_parameter(self) -> bool
        ensures { result ≡ spec.is_parameter (sort_view self) }
    {
        matches!(self, Sort::Parameter)
    }

    /// Whether its range has a fault.
    fn is_faulty(self) -> bool
        ensures { result ≡ spec.is_faulty (sort_view self) }
    {
        matches!(self, Sort::Faulty | Sort::FaultyMemory)
    }

    /// What it is where a range has a fault.
    pub(crate) fn with_fault(self) -> Sort
        ensures { result ≡ with_fault self }
    {
        match self {
            Sort::Memory(_) | Sort::FaultyMemory => Sort::FaultyMemory,
            _ => Sort::Faulty,
        }
    }

    /// The sort of two declarations of one port: faulty where one of them is, else a variable where one of them says
    /// so.
    fn completed(self, other: Sort) -> Sort
        ensures { sort_view result ≡ spec.completed_sort (sort_view self) (sort_view other) }
    {
        if self.is_faulty() || other.is_faulty() {
            Sort::Faulty
        } else if matches!(self, Sort::Variable) || matches!(other, Sort::Variable) {
            Sort::Variable
        } else {
            Sort::Net
        }
    }
}

impl<'a> Declaration<'a> {
    /// Whether the ranges of two declarations are equal, or one has a fault.
    fn fits_range(&self, other: &Declaration) -> bool
        ensures { result ≡ spec.fits_range (declaration_view self.now) (declaration_view other.now) }
    {
        self.sort.is_faulty() || other.sort.is_faulty() || is_same_range(self.range, other.range)
    }

    /// Whether a port is declared once more by wire or reg, with the same sign and range (IEEE 1364-2001 clause
    /// 12.3.3).
    pub(crate) fn completes(&self, other: &Declaration) -> bool
        ensures { result ≡ spec.completes (declaration_view self.now) (declaration_view other.now) }
    {
        !self.twice
            && self.direction.is_some() != other.direction.is_some()
            && self.sort.is_vector()
            && other.sort.is_vector()
            && self.fits_range(other)
            && self.signed == other.signed
    }

    /// Whether it is a port.
    pub(crate) fn has_direction(&self) -> bool
        ensures { result ≡ spec.has_direction (declaration_view self.now) }
    {
        self.direction.is_some()
    }

    /// The first declaration of a name, completed by a later one where that declares a port once more.
    pub(crate) fn with(&self, other: &Declaration) -> Declaration<'a>
        ensures { declaration_view result ≡ (if spec.completes (declaration_view self.now) (declaration_view other.now) then spec.completed (declaration_view self.now) (declaration_view other.now) else declaration_view self.now) }
    {
        if self.completes(other) {
            self.completed(other)
        } else {
            *self
        }
    }

    /// Two declarations of one port in one.
    fn completed(&self, other: &Declaration) -> Declaration<'a>
        ensures { declaration_view result ≡ spec.completed (declaration_view self.now) (declaration_view other.now) }
    {
        Declaration {
            sort: self.sort.completed(other.sort),
            direction: self.direction.or(other.direction),
            twice: true,
            ..*self
        }
    }
}

/// Equal ranges, or none on both sides.
pub fn is_same_range(a: Option<Range>, b: Option<Range>) -> bool
    ensures { result ≡ spec.same_range a b }
{
    match (a, b) {
        (None, None) => true,
        (Some(a), Some(b)) => a.high == b.high && a.low == b.low,
        _ => false,
    }
}
