//! The numbers that labels match and that assignments give.

ghost use Rattle.std.specs.Prelude.{◌≡◌, ◌≤◌, length};
ghost use Rattle.fsm_extract.specs.Walked as spec;

use four_state::{CaseKind, Four};

/// The number of `width` bits, if there is one, that as a selector the label matches. The label has the width and the sign to
/// which the selector is extended.
pub(crate) fn number_matched(width: u8, label: &Four) -> Option<u128>
    requires at_least { 1 ≤ width }
    requires at_most { width ≤ 128 }
    ensures { result ≡ spec.number_matched width label.now }
{
    let cut = label.extend(width, label.is_signed());
    let selector = cut.extend(label.width(), label.is_signed());
    if label.is_known() && Four::label(CaseKind::Exact, &selector, label) {
        Some(cut.known_ones())
    } else {
        None
    }
}

/// The number of `width` bits, if there is one, that an assignment of the right side gives.
pub(crate) fn number_given(width: u8, right: &Four) -> Option<u128>
    requires at_least { 1 ≤ width }
    requires at_most { width ≤ 128 }
    ensures { result ≡ spec.number_given width right.now }
{
    let given = right.extend(width, right.is_signed());
    if given.is_known() {
        Some(given.known_ones())
    } else {
        None
    }
}
