//! How far the bits that a select names are above the lowest bit (IEEE 1364-2001 clause 4.2.1).

ghost use Rattle.std.specs.Prelude.{◌≡◌, ◌≤◌, pos, Some, true, false};
ghost use Rattle.design_model.specs.Value.{offset as spec_offset, slide_offset as spec_slide_offset};
ghost use Rattle.elab_checks.specs.Selected as inside;
ghost use Rattle.elab_checks.specs.Writings.{IsWithinWord, bits_view};
ghost use Rattle.elab_const.specs.Faults.{is_bad_bound};
ghost use Rattle.elab_const.specs.Meaning.{number_of};
ghost use Rattle.elab_const.specs.Scope.{IsWidth};
ghost use Rattle.elab_scope.specs.Entries.{IsRange, IsVectorRange};
ghost use Rattle.flat_design.specs.Expressions.{faults, is_inside, some_offset};
ghost use Rattle.flat_design.specs.Fault.{none};
ghost use Rattle.flat_design.specs.Identifiers.{base_name};
ghost use Rattle.flat_design.specs.Scope as of;
ghost use Rattle.flat_design.specs.Scope.{binding_of, look_up, names, natural_number, whole_number};
ghost use Rattle.flat_design.specs.Scope.{range_or as spec_range_or};
ghost use Rattle.flat_design.specs.Targets as spec;
ghost use Rattle.flat_design.specs.declared.entry.Entry.TheVariants.{Signal};
ghost use Rattle.four_state.specs.declared.index.Index.TheVariants.{At};
ghost use Rattle.verilog_tree.specs.View.{expr_view};

use crate::values::{bound, number, shape, size};
use design_model::Range;
use elab_scope::{Scope, names_constants, range_or, span};
use flat_design::SignalEntry;
use four_state::Index;
use verilog_tree::{Expr, ExprForm};

/// Some bits side by side.
#[derive(Clone, Copy)]
pub(crate) struct Bits {
    /// How far the lowest of them is above the lowest bit of all.
    pub low: u32,
    /// How many they are.
    pub count: u32,
}

impl Bits {
    /// No bits.
    const NONE: Bits = Bits { low: 0, count: 0 };

    /// The lowest bit.
    pub(crate) const ONE: Bits = Bits { low: 0, count: 1 };
}

/// The bits of a signal that an expression names, which is its name or a select without a fault. An index that is not
/// constant names any of them.
pub(crate) fn bits_of(scope: &Scope, signal: SignalEntry, expr: &Expr) -> Bits
    requires range { IsVectorRange signal.range }
    requires base { look_up (binding_of scope.now) (base_name (expr_view expr.now)).name ≡ Some (Signal signal) }
    requires sound { none (faults (binding_of scope.now) (expr_view expr.now)) ≡ true }
    requires known { of.names_faulty (binding_of scope.now) (expr_view expr.now) ≡ false }
    ensures value { bits_view result ≡ spec.offsets (binding_of scope.now) (Some (Signal signal)) (expr_view expr.now) }
    ensures within { IsWithinWord result }
{
    match &*expr.form {
        ExprForm::Bit { index, .. } => bit(scope, signal, index),
        ExprForm::Part { low, .. } => part(scope, signal, low, shape(scope, expr).width),
        ExprForm::Slide {
            base,
            width,
            up,
            ..
        } => slide(scope, signal, base, width, *up),
        _ => all(signal),
    }
}

/// All bits of a signal.
fn all(signal: SignalEntry) -> Bits
    requires { IsVectorRange signal.range }
    ensures value { bits_view result ≡ spec.all_offsets signal }
    ensures within { IsWithinWord result }
{
    Bits {
        low: 0,
        count: span(range_or(signal.range)),
    }
}

/// The bit of a signal with this index, which is of its range where it is constant.
fn bit(scope: &Scope, signal: SignalEntry, index: &Expr) -> Bits
    requires range { IsVectorRange signal.range }
    requires sound { none (faults (binding_of scope.now) (expr_view index.now)) ≡ true }
    requires inside { of.names_constants (binding_of scope.now) (expr_view index.now) ≡ true → is_inside (spec_range_or signal.range) (some_offset (spec_range_or signal.range) (whole_number (binding_of scope.now) (expr_view index.now))) 1 ≡ true }
    ensures value { bits_view result ≡ spec.offsets_if (of.names_constants (binding_of scope.now) (expr_view index.now)) signal 1 (some_offset (spec_range_or signal.range) (whole_number (binding_of scope.now) (expr_view index.now))) }
    ensures within { IsWithinWord result }
{
    if !names_constants(scope, index) {
        return all(signal);
    }
    match number(scope, index) {
        Index::At(number) => Bits {
            low: offset(range_or(signal.range), number),
            count: 1,
        },
        _ => Bits::NONE,
    }
}

/// `width` bits of a signal from the bit with the index `low` up.
fn part(scope: &Scope, signal: SignalEntry, low: &Expr, width: u8) -> Bits
    requires range { IsVectorRange signal.range }
    requires constant { of.names_constants (binding_of scope.now) (expr_view low.now) ≡ true }
    requires sound { none (faults (binding_of scope.now) (expr_view low.now)) ≡ true }
    requires number { is_bad_bound (number_of (names (binding_of scope.now)) (expr_view low.now)) ≡ false }
    requires first { inside.contains (spec_range_or signal.range) (natural_number (binding_of scope.now) (expr_view low.now)) ≡ true }
    requires inside { is_inside (spec_range_or signal.range) (Some (spec_offset (spec_range_or signal.range) (pos (natural_number (binding_of scope.now) (expr_view low.now))))) width ≡ true }
    ensures value { bits_view result ≡ spec.offsets_if true signal width (some_offset (spec_range_or signal.range) (whole_number (binding_of scope.now) (expr_view low.now))) }
    ensures within { IsWithinWord result }
{
    Bits {
        low: offset(range_or(signal.range), u128::from(bound(scope, low))),
        count: u32::from(width),
    }
}

/// The bits of a signal from a base on, up or down, which are of its range where the base is constant.
fn slide(scope: &Scope, signal: SignalEntry, base: &Expr, width: &Expr, up: bool) -> Bits
    requires range { IsVectorRange signal.range }
    requires base { none (faults (binding_of scope.now) (expr_view base.now)) ≡ true }
    requires constant { of.names_constants (binding_of scope.now) (expr_view width.now) ≡ true }
    requires width { none (faults (binding_of scope.now) (expr_view width.now)) ≡ true }
    requires some { IsWidth (natural_number (binding_of scope.now) (expr_view width.now)) }
    requires inside { of.names_constants (binding_of scope.now) (expr_view base.now) ≡ true → is_inside (spec_range_or signal.range) (spec_slide_offset (spec_range_or signal.range) up (natural_number (binding_of scope.now) (expr_view width.now)) (whole_number (binding_of scope.now) (expr_view base.now))) (natural_number (binding_of scope.now) (expr_view width.now)) ≡ true }
    ensures value { bits_view result ≡ spec.offsets_if (of.names_constants (binding_of scope.now) (expr_view base.now)) signal (natural_number (binding_of scope.now) (expr_view width.now)) (spec_slide_offset (spec_range_or signal.range) up (natural_number (binding_of scope.now) (expr_view width.now)) (whole_number (binding_of scope.now) (expr_view base.now))) }
    ensures within { IsWithinWord result }
{
    if !names_constants(scope, base) {
        return all(signal);
    }
    let width = size(scope, width);
    match number(scope, base) {
        Index::At(number) => Bits {
            low: slide_offset(range_or(signal.range), up, width, number),
            count: u32::from(width),
        },
        _ => Bits::NONE,
    }
}

/// How far the bit with this index is above the lowest bit of the range.
fn offset(range: Range, index: u128) -> u32
    requires range { IsRange range }
    requires within { inside.contains range index ≡ true }
    ensures { pos result ≡ spec_offset range (pos index) }
{
    (index as u32).abs_diff(range.low)
}

/// How far the lowest of `width` bits from a base on, up or down, is above the lowest bit of the range.
fn slide_offset(range: Range, up: bool, width: u8, base: u128) -> u32
    requires range { IsRange range }
    requires some { 1 ≤ width }
    requires within { inside.has_slide range up width (At base) ≡ true }
    ensures { Some (pos result) ≡ spec_slide_offset range up width (Some (pos base)) }
{
    let more = u128::from(width - 1);
    let falls = range.low <= range.high;
    if falls == up {
        offset(range, base)
    } else if up {
        offset(range, base + more)
    } else {
        offset(range, base - more)
    }
}
