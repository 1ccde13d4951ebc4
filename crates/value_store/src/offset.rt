//! Where a part of a signal begins, from its evaluated index.

ghost use Rattle.std.specs.Prelude.{◌≡◌, ◌≤◌, List, Option, length};
ghost use Rattle.four_state.specs.declared.bit.Bit.{Bit};
ghost use Rattle.four_state.specs.Parts.{index as index_value};
ghost use Rattle.design_model.specs.Value.{offset_option};
ghost use Rattle.value_store.specs.Near.{near_option};
ghost use Rattle.value_store.specs.Parts.{placed_bits};

use design_model::Range;
use four_state::{Four, Index};

/// An index that is as far from 0 is in no range, and a part of 128 bits from there does not reach one.
const FAR: u128 = 1_099_511_627_776;

/// The number of an index, if no bit of it is x or z; one that is farther from 0 than `FAR` is cut.
fn near_index(index: &Four) -> Option<i64>
    ensures { result ≡ near_option (index_value index.now.signed index.now.bits) }
{
    match index.index() {
        Index::Strange => None,
        Index::Below => Some(-1 - index.known_zeros().min(FAR) as i64),
        Index::At(number) => Some(number.min(FAR) as i64),
    }
}

/// How far above the lowest bit of a range the bit with this index is, if no bit of the index is x or z
/// (IEEE 1364-2001, clause 4.2.1). An index that is farther from 0 than `FAR` is cut.
fn offset_in(range: Range, index: &Four) -> Option<i64>
    ensures { result ≡ offset_option range (near_option (index_value index.now.signed index.now.bits)) }
{
    let low = i64::from(range.low);
    match near_index(index) {
        Some(index) if range.low <= range.high => Some(index - low),
        Some(index) => Some(low - index),
        None => None,
    }
}

/// How far above the lowest bit of a range the bit with this index is, if no bit of the index is x or z. One that is
/// too far from 0 for a part of 128 bits to reach the range is cut.
pub(crate) fn part_offset(range: Range, index: &Four) -> Option<i64>
    ensures { (qs ps : List (Option Bit)) → length qs ≤ 128 → length ps ≤ 128 → placed_bits qs ps result ≡ placed_bits qs ps (offset_option range (index_value index.now.signed index.now.bits)) }
{
    let low = range.low;
    prove!(low <= u32::MAX);
    offset_in(range, index)
}
