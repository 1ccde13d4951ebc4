//! A value at the width and with the sign of its term, and the terms that are a number, a signal, `$signed` or `$unsigned`.

ghost use Rattle.std.specs.Prelude.{◌≡◌, ℕ, Bool, [], Option, false};
ghost use Rattle.known_state.specs.Partly.{is_whole, whole_of};
ghost use Rattle.design_model.specs.Tree as t;
ghost use Rattle.body_replay.specs.Replay.{note};
ghost use Rattle.term_replay.specs.Stands.{Scene, Fitted, IsRead, IsHead, Stands, head_of, whole_at};

use crate::TermHead;
use four_state::{Bit, Four};
use known_state::Known;

/// The value at another width, extended by this sign and not by its own, and with this sign from then on.
pub fn fitted(value: &Known, head: TermHead) -> Known
    requires { IsHead head }
    ensures { Fitted head value.now result }
{
    if value.width() == head.width && value.is_signed() == head.signed {
        return *value;
    }
    if value.is_whole() {
        return whole_fitted(&value.value(), head);
    }
    let value = value.extend(value.width(), head.signed);
    value.extend(head.width, head.signed)
}

/// The value of which all bits are sure at another width, extended by the sign of its term.
fn whole_fitted(value: &Four, head: TermHead) -> Known
    requires { IsHead head }
    ensures { result ≡ whole_at head value.now.bits }
{
    let own = value.extend(value.width(), head.signed);
    Known::whole(own.extend(head.width, head.signed))
}

/// The value of no bits: 0.
pub(crate) fn blank(head: TermHead) -> Known
    requires { IsHead head }
    ensures { result ≡ whole_at head [] }
{
    Known::whole(Four::fill(head.width, head.signed, Bit::Zero))
}

/// A value with its bits, and with this thing to blame where not all of them are sure.
pub(crate) fn blamed(value: &Known, thing: u32) -> Known
    ensures bits { result.bits ≡ value.now.bits }
    ensures blame { is_whole result ≡ false → result.blame ≡ thing }
{
    if value.is_whole() {
        return *value;
    }
    value.join(value, thing)
}

/// The first read of a run that was not wholly sure, after this read.
pub(crate) fn noted(first: Option<u32>, value: &Known) -> Option<u32>
    ensures { result ≡ note (is_whole value.now) value.now.blame first }
{
    if value.is_whole() || first.is_some() {
        first
    } else {
        Some(value.blame())
    }
}

/// The value of a number.
pub fn number(value: &Four, head: TermHead) -> Known
    requires { IsHead head }
    ensures { (v : Scene) (first : Option ℕ) → Stands v first (t.number (head_of head) value.now) result }
{
    fitted(&Known::whole(*value), head)
}

/// The value of a signal of which this was read.
pub fn signal(read: &Known, head: TermHead) -> Known
    requires { IsHead head }
    ensures { (v : Scene) (first : Option ℕ) (s : ℕ) → IsRead v s read.now → Stands v first (t.signal (head_of head) s) result }
{
    fitted(read, head)
}

/// The value of `$signed` or `$unsigned` of an operand.
pub fn sign(operand: &Known, head: TermHead) -> Known
    requires { IsHead head }
    ensures { (v : Scene) (first : Option ℕ) (x : t.Term) (s : Bool) → Stands v first x operand.now → Stands v first (t.sign (head_of head) s x) result }
{
    fitted(operand, head)
}
