//! The shift operators (IEEE 1364-2001, clause 4.1.12).

ghost use Rattle.std.specs.Prelude.{◌≡◌};
ghost use Rattle.four_state.specs.Vector.{with_bits};
ghost use Rattle.four_state.specs.Arithmetic.{shift_left, shift_right};

use crate::mask::{low_mask, lowered, raised};
use crate::{Bit, Four};

/// `a << amount` and `a <<< amount`
pub(crate) fn left(a: &Four, amount: &Four) -> Four
    ensures { result ≡ with_bits a.now (shift_left a.now.bits amount.now.bits) }
{
    if !amount.is_known() {
        return Four::fill(a.width(), a.is_signed(), Bit::X);
    }
    let places = amount.known_ones();
    let inside = raised(low_mask(a.width()), places);
    let filled = Four::fill(a.width(), a.is_signed(), Bit::Zero);
    filled.overlaid(
        inside,
        raised(a.ones(), places),
        raised(a.strange(), places),
    )
}

/// `a >> amount` with the vacated places filled by a bit
pub(crate) fn right(filler: Bit, a: &Four, amount: &Four) -> Four
    ensures { result ≡ with_bits a.now (shift_right filler a.now.bits amount.now.bits) }
{
    if !amount.is_known() {
        return Four::fill(a.width(), a.is_signed(), Bit::X);
    }
    let places = amount.known_ones();
    let inside = lowered(low_mask(a.width()), places);
    let filled = Four::fill(a.width(), a.is_signed(), filler);
    filled.overlaid(
        inside,
        lowered(a.ones(), places),
        lowered(a.strange(), places),
    )
}
