//! Bits and parts of a value by their indexes (IEEE 1364-2001, clause 4.2.1).

ghost use Rattle.std.specs.Prelude.{◌≡◌, ◌≤◌, ℕ, Option, false, length, true};
ghost use Rattle.four_state.specs.Arithmetic.{natural};
ghost use Rattle.four_state.specs.declared.bit.Bit.TheVariants as bits;
ghost use Rattle.known_state.specs.Partly.{filled, is_whole};
ghost use Rattle.design_model.specs.Tree as t;
ghost use Rattle.design_model.specs.Value.{part_width, range_of as range_of_term};
ghost use Rattle.design_model.specs.View.{term_view};
ghost use Rattle.body_replay.specs.KnownBits.{select_option};
ghost use Rattle.term_replay.specs.Stands.{Fitted, IsHead, IsInContext, Scene, Stands, first_after, head_of, slid};

use crate::fit::{blank, fitted};
use crate::offset::{bit_offset, slide_offset};
use crate::{Reads, TermHead};
use design_model::{Form, Range, Term};
use four_state::{Bit, Four};
use known_state::Known;

/// `width` bits from this offset up, all x without an offset.
fn selected(of: &Known, offset: Option<i64>, width: u8) -> Known
    requires at_least { 1 ≤ width }
    requires at_most { width ≤ 128 }
    ensures bits { result.bits ≡ select_option of.now.bits offset width }
    ensures blame { is_whole result ≡ false → result.blame ≡ of.now.blame }
    ensures long { length of.now.bits ≤ 128 }
{
    prove!(of.width() <= 128);
    match offset {
        None => Known::whole(Four::fill(width, false, Bit::X)),
        Some(low) if of.is_whole() => Known::whole(of.value().select(low, width)),
        Some(low) => of.select(low, width),
    }
}

/// The value of `of[index]`, where `of` has this range. By an index that is not whole nothing is known.
pub fn bit(range: Range, index: &Known, of: &Known, head: TermHead) -> Known
    requires { IsHead head }
    ensures { (v : Scene) (first : Option ℕ) (x i : t.Term) → range_of_term v.design x ≡ range → Stands v first i index.now → Stands v (first_after v first i) x of.now → Stands v first (t.bit (head_of head) x i) result }
{
    if index.is_whole() {
        let offset = bit_offset(range, &index.value());
        return fitted(&selected(of, offset, 1), head);
    }
    Known::unknown(head.width, head.signed, index.blame())
}

/// The value of `of[high:low]`, where `of` has this range.
pub fn part(range: Range, high: &Known, low: &Known, of: &Known, head: TermHead) -> Known
    requires head { IsHead head }
    requires high { is_whole high.now ≡ true }
    requires low { is_whole low.now ≡ true }
    requires count { part_width (filled bits.Zero high.now.bits) (filled bits.Zero low.now.bits) ≤ 128 }
    ensures { (v : Scene) (first : Option ℕ) (x i j : t.Term) → range_of_term v.design x ≡ range → Stands v first i high.now → Stands v (first_after v first i) j low.now → Stands v (first_after v (first_after v first i) j) x of.now → Stands v first (t.part (head_of head) x i j) result }
{
    let top = high.value();
    let end = low.value();
    let count = bits_between(&top, &end);
    let offset = bit_offset(range, &end);
    fitted(&selected(of, offset, count), head)
}

/// How many bits there are from one index to another.
fn bits_between(high: &Four, low: &Four) -> u8
    requires { part_width high.now.bits low.now.bits ≤ 128 }
    ensures value { result ≡ part_width high.now.bits low.now.bits }
    ensures most { result ≤ 128 }
{
    let (high, low) = (high.known_ones(), low.known_ones());
    (high.max(low) - high.min(low) + 1) as u8
}

/// The value of `of[base +: count]`, or where `up` is false of `of[base -: count]`, where `of` has this range. By a
/// base that is not whole nothing is known.
pub fn slide(
    range: Range,
    base: &Known,
    count: &Known,
    up: bool,
    of: &Known,
    head: TermHead,
) -> Known
    requires head { IsHead head }
    requires whole { is_whole count.now ≡ true }
    requires count { natural (filled bits.Zero count.now.bits) ≤ 128 }
    ensures { (v : Scene) (first : Option ℕ) (x b w : t.Term) → range_of_term v.design x ≡ range → Stands v first b base.now → Stands v (first_after v first b) w count.now → Stands v (first_after v (first_after v first b) w) x of.now → Stands v first (t.slide (head_of head) x b w up) result }
{
    if base.is_whole() {
        return whole_slide(range, &base.value(), &count.value(), up, of, head);
    }
    Known::unknown(head.width, head.signed, base.blame())
}

/// The value of an indexed part by a base and a count of which all bits are sure: 0 where the count is 0.
fn whole_slide(
    range: Range,
    base: &Four,
    count: &Four,
    up: bool,
    of: &Known,
    head: TermHead,
) -> Known
    requires head { IsHead head }
    requires count { natural count.now.bits ≤ 128 }
    ensures { Fitted head (slid range up base.now count.now of.now) result }
{
    let count = count.known_ones() as u8;
    if count == 0 {
        return blank(head);
    }
    let offset = slide_offset(range, up, count, base);
    fitted(&selected(of, offset, count), head)
}

/// The declared range of what a select is taken of.
pub fn range_of<R: Reads>(reads: &R, of: &Term) -> Range
    requires { IsInContext (R.scene reads.now).design (term_view of.now) }
    ensures { result ≡ range_of_term (R.scene reads.now).design (term_view of.now) }
{
    match &*of.form {
        Form::Signal(signal) => reads.signal_range(*signal),
        Form::Word { memory, .. } => reads.word_range(*memory),
        _ => Range {
            high: u32::from(of.width).saturating_sub(1),
            low: 0,
        },
    }
}
