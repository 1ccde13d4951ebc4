//! The shape of an expression by the answers for the expressions in it.

ghost use Rattle.std.specs.Prelude.{◌≡◌, ◌*◌, IfOk, IfSome, Ok, false};
ghost use Rattle.std.specs.Option.{option_copied};
ghost use Rattle.elab_const.specs.Meaning as of;
ghost use Rattle.elab_const.specs.Meaning.{IsShape};
ghost use Rattle.elab_const.specs.Faults.{is_unknown, bound_from, size_from, count_from, size_fault};
ghost use Rattle.elab_const.specs.Scope.{IsEntry, IsWidth, NotConstant, fault_if, on_ok, unless};

use crate::fault::Fault;
use crate::{ConstKind, Entry, Shape};
use cov_host::Place;
use four_state::{Binary, Index, Unary};

/// Of a name at this place.
pub(crate) fn named_shape(place: Place, entry: Option<&Entry>) -> Result<Shape, Fault>
    requires { IfSome entry (λ e. IsEntry e.now) }
    ensures value { result ≡ unless (fault_if (is_unknown (option_copied entry.entry)) NotConstant place) (of.entry_shape (option_copied entry.entry)) }
    ensures within { IfOk result IsShape }
{
    match entry {
        None => Err(Fault::at(ConstKind::NotConstant, place)),
        Some(Entry::Constant(value)) => Ok(Shape::of_number(value)),
        Some(Entry::Turn(value)) => Ok(Shape::of_number(value)),
        Some(Entry::Signal { width, signed, .. }) => Ok(Shape {
            width: *width,
            signed: *signed,
        }),
        Some(Entry::Memory { width, signed, .. }) => Ok(Shape {
            width: *width,
            signed: *signed,
        }),
    }
}

/// Of a bit or a word, by its shape.
pub(crate) fn bit_shape(shape: Shape, parts: Result<(Shape, Shape), Fault>) -> Result<Shape, Fault>
    requires { IsShape shape }
    ensures value { result ≡ on_ok parts (λ _. Ok shape) }
    ensures within { IfOk result IsShape }
{
    let _ = parts?;
    Ok(shape)
}

/// Of an operator with one operand.
pub(crate) fn operand_shape(op: Unary, a: Result<Shape, Fault>) -> Result<Shape, Fault>
    requires { IfOk a IsShape }
    ensures value { result ≡ on_ok a (λ a. Ok (of.unary_shape op a)) }
    ensures within { IfOk result IsShape }
{
    let a = a?;
    Ok(a.unary(op))
}

/// Of an operator with two operands.
pub(crate) fn joint_shape(
    op: Binary,
    operands: Result<(Shape, Shape), Fault>,
) -> Result<Shape, Fault>
    requires { IfOk operands (λ both. IsShape both.0 × IsShape both.1) }
    ensures value { result ≡ on_ok operands (λ both. Ok (of.binary_shape op both.0 both.1)) }
    ensures within { IfOk result IsShape }
{
    let (a, b) = operands?;
    Ok(a.binary(op, b))
}

/// Of `test ? yes : no`.
pub(crate) fn choice_shape(operands: Result<(Shape, (Shape, Shape)), Fault>) -> Result<Shape, Fault>
    requires { IfOk operands (λ all. IsShape all.1.0 × IsShape all.1.1) }
    ensures value { result ≡ on_ok operands (λ all. Ok (of.common_shape all.1.0 all.1.1)) }
    ensures within { IfOk result IsShape }
{
    let (_, (yes, no)) = operands?;
    Ok(yes.common(no))
}

/// Of `$signed`, or where the flag is false `$unsigned`.
pub(crate) fn signed_shape(signed: bool, a: Result<Shape, Fault>) -> Result<Shape, Fault>
    requires { IfOk a IsShape }
    ensures value { result ≡ on_ok a (λ a. Ok (of.shape_as a.width signed)) }
    ensures within { IfOk result IsShape }
{
    let a = a?;
    Ok(Shape {
        width: a.width,
        signed,
    })
}

/// Of this number of bits side by side, whose fault is at this place.
pub(crate) fn side_by_side(place: Place, width: u128) -> Result<Shape, Fault>
    ensures value { result ≡ unless (size_fault width place) (of.shape_as width false) }
    ensures within { IfOk result IsShape }
{
    if width < 1 {
        return Err(Fault::at(ConstKind::BadRange, place));
    }
    if width > 128 {
        return Err(Fault::at(ConstKind::TooWide, place));
    }
    Ok(Shape {
        width: width as u8,
        signed: false,
    })
}

/// Of a concatenation that begins here, by the widths of its parts together.
pub(crate) fn total_shape(place: Place, width: Result<u128, Fault>) -> Result<Shape, Fault>
    ensures value { result ≡ on_ok width (λ w. unless (size_fault w place) (of.shape_as w false)) }
    ensures within { IfOk result IsShape }
{
    let width = width?;
    side_by_side(place, width)
}

/// Of a repeat that begins here, by its count and the widths of its parts together.
pub(crate) fn repeated_shape(
    place: Place,
    parts: Result<(u128, u128), Fault>,
) -> Result<Shape, Fault>
    ensures value { result ≡ on_ok parts (λ p. unless (size_fault (p.0 * p.1) place) (of.shape_as (p.0 * p.1) false)) }
    ensures within { IfOk result IsShape }
{
    let (count, width) = parts?;
    match count.checked_mul(width) {
        Some(width) => side_by_side(place, width),
        None => Err(Fault::at(ConstKind::TooWide, place)),
    }
}

/// Of a part with this bracket, by its bounds. Indexes fall or rise from left to right.
pub(crate) fn part_shape(
    bracket: Place,
    falling: bool,
    parts: Result<(Shape, (u32, u32)), Fault>,
) -> Result<Shape, Fault>
    ensures value { result ≡ on_ok parts (λ p. unless (size_fault (of.part_width falling p.1.0 p.1.1) bracket) (of.shape_as (of.part_width falling p.1.0 p.1.1) false)) }
    ensures within { IfOk result IsShape }
{
    let (_, (high, low)) = parts?;
    let (high, low) = (u128::from(high), u128::from(low));
    if falling {
        side_by_side(bracket, (high + 1).saturating_sub(low))
    } else {
        side_by_side(bracket, (low + 1).saturating_sub(high))
    }
}

/// Of an indexed part, by its width.
pub(crate) fn slide_shape(parts: Result<(Shape, (Shape, u8)), Fault>) -> Result<Shape, Fault>
    requires { IfOk parts (λ p. IsWidth p.1.1) }
    ensures value { result ≡ on_ok parts (λ p. Ok (of.shape_as p.1.1 false)) }
    ensures within { IfOk result IsShape }
{
    let (_, (_, width)) = parts?;
    Ok(Shape {
        width,
        signed: false,
    })
}

/// A bound of the part with this bracket: from 0 to 1,048,575.
pub(crate) fn bound_in(bracket: Place, number: Result<Index, Fault>) -> Result<u32, Fault>
    ensures { result ≡ on_ok number (bound_from bracket) }
{
    match number? {
        Index::At(bound) if bound <= 1_048_575 => Ok(bound as u32),
        _ => Err(Fault::at(ConstKind::BadRange, bracket)),
    }
}

/// The width of the part with this bracket: from 1 to 128.
pub(crate) fn size_in(bracket: Place, number: Result<Index, Fault>) -> Result<u8, Fault>
    ensures value { result ≡ on_ok number (size_from bracket) }
    ensures within { IfOk result IsWidth }
{
    match number? {
        Index::At(width) if width > 128 => Err(Fault::at(ConstKind::TooWide, bracket)),
        Index::At(width) if width > 0 => Ok(width as u8),
        _ => Err(Fault::at(ConstKind::BadRange, bracket)),
    }
}

/// The count of a repeat that begins here: at least 1.
pub(crate) fn count_in(place: Place, number: Result<Index, Fault>) -> Result<u128, Fault>
    ensures { result ≡ on_ok number (count_from place) }
{
    match number? {
        Index::At(count) if count > 0 => Ok(count),
        _ => Err(Fault::at(ConstKind::BadRange, place)),
    }
}
