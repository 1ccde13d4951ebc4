//! Where a part of a vector begins, from its evaluated index (IEEE 1364-2001, clause 4.2.1).

ghost use Rattle.std.specs.Prelude.{◌≡◌, ◌^◌, ◌<◌, ◌≤◌};
ghost use Rattle.four_state.specs.Parts.{index as index_value};
ghost use Rattle.design_model.specs.Value.{offset_option, slide_offset as slide_offset_of};
ghost use Rattle.term_replay.specs.Near.{near_option};

use design_model::Range;
use four_state::{Four, Index};

/// A part of 128 bits that begins as far from 0 as this does not reach any declared range.
const FAR: u128 = 1_099_511_627_776;

/// The whole number of an index, if no bit of it is x or z. One that is farther from 0 than `FAR` is cut.
fn near(index: &Four) -> Option<i64>
    ensures { result ≡ near_option (index_value index.now.signed index.now.bits) }
{
    match index.index() {
        Index::Strange => None,
        Index::Below => Some(-1 - index.known_zeros().min(FAR) as i64),
        Index::At(number) => Some(number.min(FAR) as i64),
    }
}

/// How far above the lowest bit of a range the bit with this index is, if no bit of the index is x or z.
pub(crate) fn bit_offset(range: Range, index: &Four) -> Option<i64>
    ensures low { range.low < 2 ^ 32 }
    ensures value { result ≡ offset_option range (near_option (index_value index.now.signed index.now.bits)) }
{
    let low = i64::from(range.low);
    match near(index) {
        Some(index) if range.low <= range.high => Some(index - low),
        Some(index) => Some(low - index),
        None => None,
    }
}

/// How far above the lowest bit of a range the lowest of `width` bits is, which go from the base up, or down.
pub(crate) fn slide_offset(range: Range, up: bool, width: u8, base: &Four) -> Option<i64>
    requires { 1 ≤ width }
    ensures low { range.low < 2 ^ 32 }
    ensures value { result ≡ slide_offset_of range up width (near_option (index_value base.now.signed base.now.bits)) }
{
    let low = i64::from(range.low);
    let others = i64::from(width) - 1;
    let base = near(base)?;
    if range.low <= range.high {
        if up {
            Some(base - low)
        } else {
            Some(base - others - low)
        }
    } else if up {
        Some(low - (base + others))
    } else {
        Some(low - base)
    }
}
