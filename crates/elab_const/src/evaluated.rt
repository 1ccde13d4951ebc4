ghost use Rattle.std.specs.Prelude.{◌≡◌, IfOk, IfSome};
ghost use Rattle.elab_const.specs.Faults.{shape_in, value_in};
ghost use Rattle.elab_const.specs.Meaning.{IsShape, bits_within};

use crate::Shape;
use crate::context::{context_of, in_context};
use crate::fault::Fault;
use four_state::Four;

/// The width and sign of an expression alone, and its value in a context.
#[derive(Clone, Copy)]
pub(crate) struct Evaluated {
    pub(crate) shape: Shape,
    pub(crate) value: Four,
}

impl Evaluated {
    /// Bits of this shape, in their context.
    pub(crate) fn of(shape: Shape, bits: &Four, around: Option<Shape>) -> Evaluated
        requires shape { IsShape shape }
        requires around { IfSome around IsShape }
        ensures { result ≡ bits_within shape bits.now.bits around }
    {
        Evaluated {
            shape,
            value: in_context(bits, context_of(around, shape)),
        }
    }
}

/// The shape in an answer.
pub(crate) fn shape_in(found: &Result<Evaluated, Fault>) -> Result<Shape, Fault>
    requires { IfOk found.now (λ e. IsShape e.shape) }
    ensures value { result ≡ shape_in found.now }
    ensures within { IfOk result IsShape }
{
    match found {
        Ok(found) => Ok(found.shape),
        Err(fault) => Err(*fault),
    }
}

/// The value in an answer.
pub(crate) fn value_in(found: Result<Evaluated, Fault>) -> Result<Four, Fault>
    ensures { result ≡ value_in found }
{
    match found {
        Ok(found) => Ok(found.value),
        Err(fault) => Err(fault),
    }
}
