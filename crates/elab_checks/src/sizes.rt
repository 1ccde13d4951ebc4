//! Widths from 1 to 128 bits.

ghost use Rattle.std.specs.Prelude.{◌≡◌, ◌*◌};
ghost use Rattle.elab_scope.specs.Tally.{after_faults};
ghost use Rattle.flat_design.specs.Expressions as spec;
ghost use Rattle.elab_const.specs.Calls.{told};
ghost use Rattle.elab_const.specs.Faults.{bound_from, is_no_number, size_from};
ghost use Rattle.elab_const.specs.declared.fault.ConstKind.TheVariants.{NotConstant};
ghost use Rattle.flat_design.specs.Fault.{answer_faults, fault_if, none, of_constant};

use cov_host::Place;
use elab_const::ConstKind;
use elab_scope::{FoundFault, Tally};
use four_state::Index;

/// Reports a width of less than one bit, or of more than 128, and says whether it is neither.
pub(crate) fn check_size(width: u128, place: Place, tally: &mut Tally) -> bool
    ensures met { tally.new ≡ after_faults tally.old (spec.size_faults width place) }
    ensures sound { result ≡ none (spec.size_faults width place) }
{
    if width < 1 {
        tally.fault(FoundFault::Constant(ConstKind::BadRange, place));
        return false;
    }
    if width > 128 {
        tally.fault(FoundFault::Constant(ConstKind::TooWide, place));
        return false;
    }
    true
}

/// Reports the width of `count` copies where it is less than one bit or more than 128, and says whether it is neither.
pub(crate) fn check_copies(count: u128, width: u128, place: Place, tally: &mut Tally) -> bool
    ensures met { tally.new ≡ after_faults tally.old (spec.size_faults (count * width) place) }
    ensures sound { result ≡ none (spec.size_faults (count * width) place) }
{
    match count.checked_mul(width) {
        Some(width) => check_size(width, place, tally),
        None => check_size(u128::MAX, place, tally),
    }
}

/// Reports a number with an x or z bit, whose expression begins here, and says whether it has no such bit.
pub(crate) fn check_known(place: Place, number: Index, tally: &mut Tally) -> bool
    ensures met { tally.new ≡ after_faults tally.old (fault_if (is_no_number number) (of_constant NotConstant place)) }
    ensures sound { result ≡ none (fault_if (is_no_number number) (of_constant NotConstant place)) }
{
    if matches!(number, Index::Strange) {
        tally.fault(FoundFault::Constant(ConstKind::NotConstant, place));
        return false;
    }
    true
}

/// Reports a bound below 0 or above 1,048,575, and says whether it is neither.
pub(crate) fn check_bound_number(bracket: Place, number: Index, tally: &mut Tally) -> bool
    ensures met { tally.new ≡ after_faults tally.old (answer_faults (told (bound_from bracket number))) }
    ensures sound { result ≡ none (answer_faults (told (bound_from bracket number))) }
{
    match number {
        Index::At(bound) if bound <= 1_048_575 => true,
        _ => {
            tally.fault(FoundFault::Constant(ConstKind::BadRange, bracket));
            false
        }
    }
}

/// Reports a number that is no width of a part, and says whether it is one.
pub(crate) fn check_width_number(bracket: Place, number: Index, tally: &mut Tally) -> bool
    ensures met { tally.new ≡ after_faults tally.old (answer_faults (told (size_from bracket number))) }
    ensures sound { result ≡ none (answer_faults (told (size_from bracket number))) }
{
    match number {
        Index::At(width) => check_size(width, bracket, tally),
        _ => check_size(0, bracket, tally),
    }
}
