//! The places of the parts of targets.

ghost use Rattle.std.specs.Prelude.{◌≡◌, ◌≤◌, ℕ, nat_lt, true, None, Some};
ghost use Rattle.four_state.specs.Masks.{is_set};
ghost use Rattle.four_state.specs.Parts.{index as index_value};
ghost use Rattle.design_model.specs.Design.{cell, signal_at};
ghost use Rattle.design_model.specs.Lawful.{IsLawfulDesign};
ghost use Rattle.design_model.specs.Mentions.{may_write};
ghost use Rattle.design_model.specs.Tree.{bits_of};
ghost use Rattle.design_model.specs.Value.{offset_option};
ghost use Rattle.design_model.specs.View.{design_view, term_view};
ghost use Rattle.design_model.specs.WellFormed.{are_among};
ghost use Rattle.design_targets.specs.Leaves.{leaf_view};
ghost use Rattle.process_targets.specs.Targets.{IsRightLeaf, is_sized, leaf_has, range_in, whole_option};

use crate::places::places_from;
use design_model::{Design, Signal, Term};
use design_targets::{Leaf, constant_value};
use four_state::{Four, Index};

/// The places of the bits of a signal that a part of a target may write.
pub(crate) fn leaf_places(design: &Design, leaf: &Leaf) -> u128
    requires lawful { IsLawfulDesign (design_view design.now) }
    requires right { IsRightLeaf (design_view design.now) (leaf_view leaf.now) }
    ensures { (i : ℕ) → is_set result i ≡ leaf_has (design_view design.now) (leaf_view leaf.now) (cell leaf.now.thing i) }
{
    match leaf.part {
        Some((low, width)) => part_places(design, leaf.thing, low, width),
        None => all_places(design, leaf.thing),
    }
}

/// The places of all bits of a signal. A memory has no places.
pub fn all_places(design: &Design, thing: u32) -> u128
    requires { IsLawfulDesign (design_view design.now) }
    ensures { (i : ℕ) → is_set result i ≡ nat_lt i (signal_at (design_view design.now) thing).width }
{
    match design.signals.get(thing as usize) {
        Some(signal) => places_from(0, signal.width),
        None => 0,
    }
}

/// The places of a part of a signal, by the index of its lowest bit and its number of bits. By an index that is not
/// constant it may be any of the signal's, and by one with an x or z there is no place (IEEE 1364-2001, 4.2.1).
fn part_places(design: &Design, thing: u32, low: &Term, width: u8) -> u128
    requires lawful { IsLawfulDesign (design_view design.now) }
    requires right { IsRightLeaf (design_view design.now) (thing, Some (term_view low.now, width)) }
    ensures { (i : ℕ) → is_set result i ≡ may_write (design_view design.now) (bits_of thing (term_view low.now) width) (cell thing i) }
{
    let Some(signal) = design.signals.get(thing as usize) else {
        return 0;
    };
    match constant_value(low) {
        Some(index) => match first_place(signal, &index, width) {
            Some(first) => places_from(first, width),
            None => 0,
        },
        None => places_from(0, signal.width),
    }
}

/// How far the bit with this index is above the lowest bit of a signal, where a part of so many bits from there is inside
/// of the signal. An index with an x or z is that of no bit.
fn first_place(signal: &Signal, index: &Four, width: u8) -> Option<u8>
    requires sized { is_sized signal.now ≡ true }
    requires some { 1 ≤ width }
    requires inside { are_among signal.now.width width (offset_option (range_in signal.now) (index_value index.now.signed index.now.bits)) ≡ true }
    ensures { whole_option result ≡ offset_option (range_in signal.now) (index_value index.now.signed index.now.bits) }
{
    match index.index() {
        Index::At(number) => Some(number.abs_diff(u128::from(signal.low)) as u8),
        Index::Below | Index::Strange => None,
    }
}
