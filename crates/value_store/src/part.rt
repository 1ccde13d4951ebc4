//! What a write leaves of a signal.

ghost use Rattle.std.specs.Prelude.{◌≡◌, ◌<◌, ◌≤◌, ◌^◌, length, replicate};
ghost use Rattle.body_replay.specs.known_state.Partly.{with_blame};
ghost use Rattle.value_store.specs.Parts.{common_bits, part_written, updated};

use crate::offset::part_offset;
use body_replay::Known;
use design_model::Range;
use four_state::{CaseKind, Four};

/// The vector with this thing to blame for what is not sure.
pub(crate) fn blamed(value: &Known, thing: u32) -> Known
    ensures { result ≡ with_blame value.now.bits value.now.signed thing }
{
    value.join(value, thing)
}

/// A vector of which each bit is what all bits of a part have in common.
fn spread(part: &Known, width: u8) -> Known
    requires at_least { 1 ≤ width }
    requires at_most { width ≤ 128 }
    ensures { result.bits ≡ replicate width (common_bits part.now.bits) }
{
    let value = part.value();
    let first = value.bit(0);
    let all_equal = Four::label(
        CaseKind::Exact,
        &value,
        &Four::fill(part.width(), false, first),
    );
    if part.is_whole() && all_equal {
        Known::whole(Four::fill(width, false, first))
    } else {
        Known::unknown(width, false, 0)
    }
}

/// What a write of a part leaves of a signal of this range, from the bit with this index up. By an index that is not whole
/// any bit of the part can come to each bit, and the index is to blame; else the part is, if it is not whole.
pub(crate) fn with_part(old: &Known, range: Range, index: &Known, part: &Known) -> Known
    ensures { result ≡ part_written range index.now part.now old.now }
{
    let (width, part_width) = (old.width(), part.width());
    if !index.is_whole() {
        return old.join(&spread(part, width), index.blame());
    }
    // So a part whose index is far from 0 reaches no bit.
    prove!(width <= 128 && part_width <= 128);
    let blame = if part.is_whole() {
        old.blame()
    } else {
        part.blame()
    };
    match part_offset(range, &index.value()) {
        Some(low) => blamed(&old.place(low, part), blame),
        None => blamed(old, blame),
    }
}

/// What an update leaves of the signal with this number: the new value, or, where it is not certain, what this has in
/// common with the old one. The signal is to blame for what is not sure.
pub(crate) fn with_update(new: &Known, old: &Known, certain: bool, signal: u32) -> Known
    requires { length new.now.bits ≡ length old.now.bits }
    ensures { result ≡ updated certain signal new.now old.now }
{
    if certain {
        blamed(new, signal)
    } else {
        old.join(new, signal)
    }
}
