//! The shape and the value of an expression in its context, by the answers for the expressions in it.

ghost use Rattle.std.specs.Prelude.{◌≡◌, ◌≤◌, ◌*◌, [], ◌∷◌, length, IfOk, IfSome, false, Ok};
ghost use Rattle.std.specs.Bool.{OnTrue};
ghost use Rattle.std.specs.Option.{option_copied};
ghost use Rattle.four_state.specs.Operators as operator;
ghost use Rattle.four_state.specs.Operators.{takes_same_shape, SameShape};
ghost use Rattle.four_state.specs.Vector.{truth};
ghost use Rattle.four_state.specs.declared.bit.Bit.TheVariants.{X};
ghost use Rattle.design_model.specs.Value.{copies};
ghost use Rattle.elab_const.specs.Meaning as of;
ghost use Rattle.elab_const.specs.Meaning.{IsShape, IsJoined, bits_before, bits_within};
ghost use Rattle.elab_const.specs.Faults.{is_unknown, is_no_number, size_fault};
ghost use Rattle.elab_const.specs.Scope.{IsEntry, NotConstant, fault_if, on_ok, unless};

use crate::answer::{named_shape, repeated_shape, side_by_side};
use crate::evaluated::Evaluated;
use crate::fault::{ConstKind, Fault};
use crate::joined::Joined;
use crate::{Entry, Shape};
use cov_host::Place;
use four_state::{Binary, Bit, Four, Index, Unary};

/// Of a name at this place.
pub(crate) fn named(
    place: Place,
    entry: Option<&Entry>,
    around: Option<Shape>,
) -> Result<Evaluated, Fault>
    requires entry { IfSome entry (λ e. IsEntry e.now) }
    requires around { IfSome around IsShape }
    ensures value { result ≡ unless (fault_if (is_unknown (option_copied entry.entry)) NotConstant place) (bits_within (of.entry_shape (option_copied entry.entry)) (of.entry_bits (option_copied entry.entry)) around) }
    ensures within { IfOk result (λ e. IsShape e.shape) }
{
    let shape = named_shape(place, entry)?;
    Ok(Evaluated::of(shape, &bits_of(entry), around))
}

/// The bits of a constant; a bit that there is not reads x.
fn bits_of(entry: Option<&Entry>) -> Four
    ensures { result.bits ≡ of.entry_bits (option_copied entry.entry) }
{
    match entry {
        Some(Entry::Constant(value)) => *value,
        Some(Entry::Turn(value)) => *value,
        _ => Four::fill(1, false, Bit::X),
    }
}

/// Of a select with this shape, of which no constant is made.
pub(crate) fn unread(shape: Result<Shape, Fault>, around: Option<Shape>) -> Result<Evaluated, Fault>
    requires shape { IfOk shape IsShape }
    requires around { IfSome around IsShape }
    ensures value { result ≡ on_ok shape (λ s. Ok (bits_within s (X ∷ []) around)) }
    ensures within { IfOk result (λ e. IsShape e.shape) }
{
    let shape = shape?;
    Ok(Evaluated::of(shape, &Four::fill(1, false, Bit::X), around))
}

/// Of an operator with one operand.
pub(crate) fn unary(
    op: Unary,
    operand: Result<Evaluated, Fault>,
    around: Option<Shape>,
) -> Result<Evaluated, Fault>
    requires operand { IfOk operand (λ a. IsShape a.shape) }
    requires around { IfSome around IsShape }
    ensures value { result ≡ on_ok operand (λ a. Ok (bits_within (of.unary_shape op a.shape) (operator.unary_value op a.value.bits) around)) }
    ensures within { IfOk result (λ e. IsShape e.shape) }
{
    let a = operand?;
    let bits = Four::unary(op, &a.value);
    Ok(Evaluated::of(a.shape.unary(op), &bits, around))
}

/// Of an operator with two operands.
pub(crate) fn binary(
    op: Binary,
    operands: Result<(Evaluated, Evaluated), Fault>,
    around: Option<Shape>,
) -> Result<Evaluated, Fault>
    requires shapes { IfOk operands (λ p. IsShape p.0.shape × IsShape p.1.shape) }
    requires around { IfSome around IsShape }
    requires fit { IfOk operands (λ p. OnTrue (takes_same_shape op) (SameShape p.0.value p.1.value)) }
    ensures value { result ≡ on_ok operands (λ p. Ok (bits_within (of.binary_shape op p.0.shape p.1.shape) (of.pair_bits op (p.0.value, p.1.value)) around)) }
    ensures within { IfOk result (λ e. IsShape e.shape) }
{
    let (a, b) = operands?;
    let bits = Four::binary(op, &a.value, &b.value);
    Ok(Evaluated::of(a.shape.binary(op, b.shape), &bits, around))
}

/// Of `test ? yes : no`.
pub(crate) fn choice(
    operands: Result<(Evaluated, (Evaluated, Evaluated)), Fault>,
    around: Option<Shape>,
) -> Result<Evaluated, Fault>
    requires shapes { IfOk operands (λ p. IsShape p.1.0.shape × IsShape p.1.1.shape) }
    requires around { IfSome around IsShape }
    requires fit { IfOk operands (λ p. SameShape p.1.0.value p.1.1.value) }
    ensures value { result ≡ on_ok operands (λ p. Ok (bits_within (of.common_shape p.1.0.shape p.1.1.shape) (operator.choice_value (truth p.0.value.bits) p.1.0.value.bits p.1.1.value.bits) around)) }
    ensures within { IfOk result (λ e. IsShape e.shape) }
{
    let (test, (yes, no)) = operands?;
    let bits = Four::choose(test.value.truth(), &yes.value, &no.value);
    Ok(Evaluated::of(yes.shape.common(no.shape), &bits, around))
}

/// Of `$signed`, or where the flag is false `$unsigned`.
pub(crate) fn sign(
    signed: bool,
    operand: Result<Evaluated, Fault>,
    around: Option<Shape>,
) -> Result<Evaluated, Fault>
    requires operand { IfOk operand (λ a. IsShape a.shape) }
    requires around { IfSome around IsShape }
    ensures value { result ≡ on_ok operand (λ a. Ok (bits_within (of.shape_as a.shape.width signed) a.value.bits around)) }
    ensures within { IfOk result (λ e. IsShape e.shape) }
{
    let a = operand?;
    let shape = Shape {
        width: a.shape.width,
        signed,
    };
    Ok(Evaluated::of(shape, &a.value, around))
}

/// Of a concatenation that begins here, by its parts side by side.
pub(crate) fn concat(
    place: Place,
    parts: Result<Joined, Fault>,
    around: Option<Shape>,
) -> Result<Evaluated, Fault>
    requires parts { IfOk parts IsJoined }
    requires around { IfSome around IsShape }
    ensures value { result ≡ on_ok parts (λ j. unless (size_fault j.width place) (bits_within (of.shape_as j.width false) (bits_before j.value) around)) }
    ensures within { IfOk result (λ e. IsShape e.shape) }
{
    let parts = parts?;
    let shape = side_by_side(place, parts.width)?;
    match parts.value {
        Some(value) => Ok(Evaluated::of(shape, &value, around)),
        None => unreachable!(),
    }
}

/// Of a repeat that begins here, by its count and its parts side by side.
pub(crate) fn repeat(
    place: Place,
    parts: Result<(u128, Joined), Fault>,
    around: Option<Shape>,
) -> Result<Evaluated, Fault>
    requires parts { IfOk parts (λ p. IsJoined p.1) }
    requires around { IfSome around IsShape }
    ensures value { result ≡ on_ok parts (λ p. unless (size_fault (p.0 * p.1.width) place) (bits_within (of.shape_as (p.0 * p.1.width) false) (copies p.0 (bits_before p.1.value)) around)) }
    ensures within { IfOk result (λ e. IsShape e.shape) }
{
    let (times, parts) = parts?;
    let shape = repeated_shape(place, Ok((times, parts.width)))?;
    match parts.value {
        Some(value) => Ok(Evaluated::of(shape, &repeated(times, &value), around)),
        None => unreachable!(),
    }
}

/// `count` copies side by side, at least one.
fn repeated(times: u128, part: &Four) -> Four
    requires some { 1 ≤ times }
    requires within { times * length part.now.bits ≤ 128 }
    ensures { result.bits ≡ copies times part.now.bits }
{
    let mut value = *part;
    for _ in 1..times {
        value = Four::append(&value, part);
    }
    value
}

/// The number that a value says, which has no x or z bit; a fault of it is at this place.
pub(crate) fn number_in(place: Place, value: Result<Four, Fault>) -> Result<Index, Fault>
    ensures { result ≡ on_ok value (λ v. unless (fault_if (is_no_number (of.number_in v)) NotConstant place) (of.number_in v)) }
{
    match value?.index() {
        Index::Strange => Err(Fault::at(ConstKind::NotConstant, place)),
        number => Ok(number),
    }
}
