//! Whether the bits that selects name by constants are there.

ghost use Rattle.std.specs.Prelude.{◌≡◌, ◌++◌, ◌&&◌, if◌then◌else◌, [], true};
ghost use Rattle.elab_const.specs.Scope.{IsWidth};
ghost use Rattle.elab_checks.specs.Selected.{selected_view};
ghost use Rattle.elab_scope.specs.Tally.{after_faults};
ghost use Rattle.flat_design.specs.Expressions as spec;
ghost use Rattle.flat_design.specs.Expressions.{faults};
ghost use Rattle.flat_design.specs.Fault.{none};
ghost use Rattle.flat_design.specs.Scope.{binding_of, names_constants, natural_number};
ghost use Rattle.verilog_tree.specs.View.{expr_view};

use crate::selected::Selected;
use crate::values::{bound, number, size};
use cov_host::Place;
use elab_scope::{Scope, Tally, names_constants};
use verilog_tree::Expr;

/// Reports an index of such bits that is constant and not of their range, where it is known that the index has no
/// fault. Says whether there is no fault.
pub(crate) fn check_index<'a>(
    scope: &Scope,
    bits: Selected<'a>,
    index: &Expr,
    known: bool,
    tally: &mut Tally<'a>,
) -> bool
    requires { known ≡ none (faults (binding_of scope.now) (expr_view index.now)) }
    ensures met { tally.new ≡ after_faults tally.old (spec.index_faults (binding_of scope.now) (selected_view bits.entry) (expr_view index.now) (faults (binding_of scope.now) (expr_view index.now))) }
    ensures sound { result ≡ none (spec.index_faults (binding_of scope.now) (selected_view bits.entry) (expr_view index.now) (faults (binding_of scope.now) (expr_view index.now))) }
{
    if !known || !names_constants(scope, index) {
        return true;
    }
    bits.check_bit(number(scope, index), tally)
}

/// Reports the faults of a part of such bits with this bracket, where it is known that its bounds have no fault.
/// Whether there is no fault.
pub(crate) fn check_bounds<'a>(
    scope: &Scope,
    bits: Selected<'a>,
    bracket: Place,
    high: &Expr,
    low: &Expr,
    known: bool,
    tally: &mut Tally<'a>,
) -> bool
    requires { known ≡ none (spec.bound_faults (binding_of scope.now) bracket (expr_view high.now) (faults (binding_of scope.now) (expr_view high.now)) ++ spec.bound_faults (binding_of scope.now) bracket (expr_view low.now) (faults (binding_of scope.now) (expr_view low.now))) }
    ensures met { tally.new ≡ after_faults tally.old (if names_constants (binding_of scope.now) (expr_view high.now) && names_constants (binding_of scope.now) (expr_view low.now) && none (spec.bound_faults (binding_of scope.now) bracket (expr_view high.now) (faults (binding_of scope.now) (expr_view high.now)) ++ spec.bound_faults (binding_of scope.now) bracket (expr_view low.now) (faults (binding_of scope.now) (expr_view low.now))) then spec.part_range_faults (selected_view bits.entry) bracket (natural_number (binding_of scope.now) (expr_view high.now)) (natural_number (binding_of scope.now) (expr_view low.now)) else []) }
    ensures sound { result ≡ none (if names_constants (binding_of scope.now) (expr_view high.now) && names_constants (binding_of scope.now) (expr_view low.now) && none (spec.bound_faults (binding_of scope.now) bracket (expr_view high.now) (faults (binding_of scope.now) (expr_view high.now)) ++ spec.bound_faults (binding_of scope.now) bracket (expr_view low.now) (faults (binding_of scope.now) (expr_view low.now))) then spec.part_range_faults (selected_view bits.entry) bracket (natural_number (binding_of scope.now) (expr_view high.now)) (natural_number (binding_of scope.now) (expr_view low.now)) else []) }
{
    if !known || !names_constants(scope, high) || !names_constants(scope, low) {
        return true;
    }
    bits.check_part(bracket, bound(scope, high), bound(scope, low), tally)
}

/// Reports an indexed part of such bits whose base is constant and that is not inside of their range. Whether there is
/// no fault.
pub(crate) fn check_slid<'a>(
    scope: &Scope,
    bits: Selected<'a>,
    base: &Expr,
    width: &Expr,
    up: bool,
    tally: &mut Tally<'a>,
) -> bool
    requires base { none (faults (binding_of scope.now) (expr_view base.now)) ≡ true }
    requires constant { names_constants (binding_of scope.now) (expr_view width.now) ≡ true }
    requires width { none (faults (binding_of scope.now) (expr_view width.now)) ≡ true }
    requires within { IsWidth (natural_number (binding_of scope.now) (expr_view width.now)) }
    ensures met { tally.new ≡ after_faults tally.old (if names_constants (binding_of scope.now) (expr_view base.now) then spec.slide_faults (binding_of scope.now) (selected_view bits.entry) (expr_view base.now) (natural_number (binding_of scope.now) (expr_view width.now)) up else []) }
    ensures sound { result ≡ none (if names_constants (binding_of scope.now) (expr_view base.now) then spec.slide_faults (binding_of scope.now) (selected_view bits.entry) (expr_view base.now) (natural_number (binding_of scope.now) (expr_view width.now)) up else []) }
{
    if !names_constants(scope, base) {
        return true;
    }
    bits.check_slide(number(scope, base), size(scope, width), up, tally)
}
