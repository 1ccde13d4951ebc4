ghost use Rattle.std.specs.Prelude.{◌≡◌, IfOk, IfSome};
ghost use Rattle.elab_const.specs.Faults as spec;
ghost use Rattle.elab_const.specs.Meaning as of;
ghost use Rattle.elab_const.specs.Meaning.{IsShape, vector_as};

use crate::Shape;
use crate::fault::Fault;
use crate::width::takes_context;
use four_state::{Four, Unary};

/// A value in a context of this width and sign: extended by that sign, or cut.
pub(crate) fn in_context(value: &Four, context: Shape) -> Four
    requires { IsShape context }
    ensures { result ≡ vector_as context value.now.bits }
{
    value
        .extend(value.width(), context.signed)
        .extend(context.width, context.signed)
}

/// The context of an expression of this shape: its own, or the one that it is in.
pub(crate) fn context_of(around: Option<Shape>, shape: Shape) -> Shape
    requires shape { IsShape shape }
    requires around { IfSome around IsShape }
    ensures value { result ≡ of.context_of around shape }
    ensures within { IsShape result }
{
    match around {
        None => shape,
        Some(around) => around.common(shape),
    }
}

/// The context of the operand of an operator.
pub(crate) fn around_operand(op: Unary, around: Option<Shape>) -> Option<Shape>
    requires { IfSome around IsShape }
    ensures value { result ≡ of.around_operand op around }
    ensures within { IfSome result IsShape }
{
    if takes_context(op) { around } else { None }
}

/// The context of an operand, with the other operand, if that one has no fault.
pub(crate) fn beside(around: Option<Shape>, other: Result<Shape, Fault>) -> Option<Shape>
    requires around { IfSome around IsShape }
    requires other { IfOk other IsShape }
    ensures value { result ≡ spec.beside around other }
    ensures within { IfSome result IsShape }
{
    match other {
        Ok(other) => Some(context_of(around, other)),
        Err(_) => around,
    }
}
