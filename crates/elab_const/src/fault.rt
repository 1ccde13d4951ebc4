ghost use Rattle.std.specs.Prelude.{◌≡◌};
ghost use Rattle.elab_const.specs.Scope as scope;
ghost use Rattle.elab_const.specs.declared.fault.ConstFault.TheVariants as const_fault;
ghost use Rattle.elab_const.specs.Calls.{told};
ghost use Rattle.elab_const.specs.FaultText.{const_text};

use cov_host::{NoMemory, Place};
use std::alloc::{AllocError, AllocFailed};

/// What is wrong with a constant, a width or a loop.
#[derive(Clone, Copy)]
pub enum ConstKind {
    /// An expression that must be constant names something else, or has an x or z bit where a number is needed. The
    /// place is its first token.
    NotConstant = 1,
    /// A width over 128. The place is the `[` of the part, or the first token of the concatenation.
    TooWide = 2,
    /// A loop header uses another variable, or its condition has an x. The place is the `for`.
    LoopNotConstant = 3,
    /// A loop has over 1,024 turns. The place is the `for`.
    LoopTooLong = 4,
    /// A bound below 0 or above 1,048,575, or a repeat or part of less than one bit. The place is the `[` of the part,
    /// or the first token of the concatenation.
    BadRange = 5,
}

impl ConstKind {
    /// The stage, the number and the name, as messages have them.
    pub fn text(self) -> &'static str
        ensures { result.now ≡ const_text self }
    {
        match self {
            ConstKind::NotConstant => "const 1 NotConstant",
            ConstKind::TooWide => "const 2 TooWide",
            ConstKind::LoopNotConstant => "const 3 LoopNotConstant",
            ConstKind::LoopTooLong => "const 4 LoopTooLong",
            ConstKind::BadRange => "const 5 BadRange",
        }
    }
}

/// What is wrong, and where.
#[derive(Clone, Copy)]
pub(crate) struct Fault {
    pub(crate) kind: ConstKind,
    pub(crate) place: Place,
}

impl Fault {
    /// A fault of this kind at this place.
    pub(crate) fn at(kind: ConstKind, place: Place) -> Fault
        ensures { result ≡ scope.fault_at kind place }
    {
        Fault { kind, place }
    }

    /// Of two faults the one that is first in the text; at one place the first of both.
    pub(crate) fn first(self, other: Fault) -> Fault
        ensures { result ≡ scope.first_of self other }
    {
        if is_before(other.place, self.place) {
            other
        } else {
            self
        }
    }
}

/// Whether p is before q in the text.
fn is_before(p: Place, q: Place) -> bool
    ensures { result ≡ scope.is_before p q }
{
    p.source < q.source
        || p.source == q.source && (p.line < q.line || p.line == q.line && p.column < q.column)
}

/// Two answers, or the fault of both that is first in the text.
pub(crate) fn both<A: Drop, B: Drop>(
    a: Result<A, Fault>,
    b: Result<B, Fault>,
) -> Result<(A, B), Fault>
    ensures { result ≡ scope.both a b }
{
    match (a, b) {
        (Ok(a), Ok(b)) => Ok((a, b)),
        (Ok(_), Err(fault)) | (Err(fault), Ok(_)) => Err(fault),
        (Err(fault), Err(other)) => Err(fault.first(other)),
    }
}

/// Why there is no constant, no shape or no turns.
#[derive(Drop)]
pub enum ConstFault {
    /// Memory ran out.
    NoMemory,
    /// This is wrong at this place.
    At { kind: ConstKind, place: Place },
}

impl ConstFault {
    /// This fault.
    pub(crate) fn of(fault: Fault) -> Self
        ensures { result ≡ const_fault.At fault.kind fault.place }
    {
        ConstFault::At {
            kind: fault.kind,
            place: fault.place,
        }
    }
}

impl From<AllocError> for ConstFault {
    ghost from_gives = { λ _ fault. fault ≡ const_fault.NoMemory };

    fn from(_: AllocError) -> Self {
        ConstFault::NoMemory
    }
}

impl<T: Drop> From<AllocFailed<T>> for ConstFault {
    ghost from_gives = { λ _ fault. fault ≡ const_fault.NoMemory };

    fn from(_: AllocFailed<T>) -> Self {
        ConstFault::NoMemory
    }
}

impl From<NoMemory> for ConstFault {
    ghost from_gives = { λ _ fault. fault ≡ const_fault.NoMemory };

    fn from(_: NoMemory) -> Self {
        ConstFault::NoMemory
    }
}

/// An answer, with its fault as callers see it.
pub(crate) fn tell<T: Drop>(answer: Result<T, Fault>) -> Result<T, ConstFault>
    ensures { result ≡ told answer }
{
    match answer {
        Ok(value) => Ok(value),
        Err(fault) => Err(ConstFault::of(fault)),
    }
}
