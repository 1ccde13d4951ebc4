//! The values of parameters.

ghost use Rattle.std.specs.Prelude.{◌≡◌, None, true, false};
ghost use Rattle.elab_scope.specs.Entries.{IsVectorRange};
ghost use Rattle.elab_scope.specs.Tally.{after_faults};
ghost use Rattle.elab_declarations.specs.Typed as spec;
ghost use Rattle.flat_design.specs.Declarations as of;
ghost use Rattle.flat_design.specs.Expressions.{constant_faults, faults};
ghost use Rattle.flat_design.specs.Fault.{none};
ghost use Rattle.flat_design.specs.Scope.{binding_of, names_faulty as spec_names_faulty};
ghost use Rattle.verilog_tree.specs.View.{expr_view, param_view, range_option_view};

use crate::range::{constant_value, vector_range};
use design_model::Range;
use elab_checks::check_constant;
use elab_scope::{Scope, Tally, names_faulty, span};
use flat_design::Entry;
use four_state::Four;
use std::alloc::Global;
use verilog_tree::Param;

/// What a parameter means, with the value that an override gives, and the faults of its range and its value.
pub(crate) fn param_entry<'a>(
    alloc: Global,
    scope: &Scope,
    given: Option<Four>,
    param: &'a Param,
    tally: &mut Tally<'a>,
) -> Entry
    ensures met { tally.new ≡ after_faults tally.old (of.param_faults (binding_of scope.now) (param_view param.now)) }
    ensures value { result ≡ spec.entry_given (binding_of scope.now) given (param_view param.now) }
{
    let vector = vector_range(alloc, scope, &param.range, tally);
    let sound = check_constant(scope, &param.value, tally);
    if vector.sound && sound && !names_faulty(scope, &param.value) {
        sound_entry(alloc, scope, given, param, vector.range)
    } else {
        Entry::Faulty
    }
}

/// What a parameter without a fault means, with the value that an override gives.
fn sound_entry(
    alloc: Global,
    scope: &Scope,
    given: Option<Four>,
    param: &Param,
    range: Option<Range>,
) -> Entry
    requires within { IsVectorRange range }
    requires range { range ≡ of.range_value (binding_of scope.now) (range_option_view param.now.range) }
    requires vector { of.is_sound_vector (binding_of scope.now) (range_option_view param.now.range) ≡ true }
    requires value { none (constant_faults (binding_of scope.now) (expr_view param.now.value) (faults (binding_of scope.now) (expr_view param.now.value))) ≡ true }
    requires known { spec_names_faulty (binding_of scope.now) (expr_view param.now.value) ≡ false }
    ensures { result ≡ spec.entry_given (binding_of scope.now) given (param_view param.now) }
{
    let value = match given {
        Some(value) => value,
        None => constant_value(alloc, scope, &param.value),
    };
    Entry::Constant(typed_value(param, range, &value))
}

/// The type of a parameter, with its range, applied to its value: an integer, of the range, signed, or as the value is
/// (IEEE 1364-2001 clause 3.11).
fn typed_value(param: &Param, range: Option<Range>, value: &Four) -> Four
    requires { IsVectorRange range }
    ensures { result ≡ spec.typed_as param.now.integer range param.now.signed value.now }
{
    if param.integer {
        return value.extend(32, true);
    }
    match range {
        None => with_sign(value, param.signed),
        Some(range) => value.extend(span(range) as u8, param.signed),
    }
}

/// A value that also has this sign.
fn with_sign(value: &Four, signed: bool) -> Four
    ensures { result ≡ spec.ranged_as None signed value.now }
{
    value.extend(value.width(), value.is_signed() | signed)
}
