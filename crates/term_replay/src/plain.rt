//! Values of at most 64 bits of which each is sure to be 0 or 1, as numbers. Any other value is put into a place, so that
//! numbers are handed on without a copy of a vector.

ghost use Rattle.std.specs.Prelude.{◌≡◌, ◌^◌, ◌<◌, IfSome, length};
ghost use Rattle.known_state.specs.Partly.{whole_of};
ghost use Rattle.term_replay.specs.Plain.{IsSmall, head_in, held as held_value, number_at};
ghost use Rattle.term_replay.specs.Stands.{Fitted, IsHead};

use crate::TermHead;
use crate::fit::fitted;
use design_model::Term;
use four_state::{Bit, Four};
use known_state::Known;

/// How many bits a number has at most.
const NARROW: u8 = 64;

/// A place for a value.
pub(crate) fn empty() -> Known {
    Known::whole(Four::fill(1, false, Bit::Zero))
}

/// The vector of a number at the width and with the sign of its term.
pub(crate) fn vector(number: u64, term: &Term) -> Four
    requires head { IsHead (head_in term.now) }
    requires small { IsSmall (head_in term.now) number }
    ensures { result ≡ number_at (head_in term.now) number }
{
    Four::make(term.width, term.signed, u128::from(number), 0)
}

/// The value of a term: its number, or else what is in the place.
pub(crate) fn held(number: Option<u64>, term: &Term, place: &Known) -> Known
    requires head { IsHead (head_in term.now) }
    requires small { IfSome number (IsSmall (head_in term.now)) }
    ensures { result ≡ held_value (head_in term.now) number place.now }
{
    match number {
        Some(number) => Known::whole(vector(number, term)),
        None => *place,
    }
}

/// The number of a value that has the width and the sign of its term, or None where the value is put into the place.
pub(crate) fn keep(value: &Known, term: &Term, place: &mut Known) -> Option<u64>
    requires width { length value.now.bits ≡ term.now.width }
    requires sign { value.now.signed ≡ term.now.signed }
    ensures value { held_value (head_in term.now) result place.new ≡ value.now }
    ensures small { IfSome result (IsSmall (head_in term.now)) }
{
    if value.width() <= NARROW && value.is_whole() {
        let vector = value.value();
        if vector.is_known() {
            return Some(vector.known_ones() as u64);
        }
    }
    *place = *value;
    None
}

/// The same of a value at the width of its term, extended by the sign of its term.
pub(crate) fn settle(value: &Known, term: &Term, place: &mut Known) -> Option<u64>
    requires { IsHead (head_in term.now) }
    ensures value { Fitted (head_in term.now) value.now (held_value (head_in term.now) result place.new) }
    ensures small { IfSome result (IsSmall (head_in term.now)) }
{
    if value.width() == term.width && value.is_signed() == term.signed {
        return keep(value, term, place);
    }
    settle_extended(value, term, place)
}

/// The same of a value that may have another width or another sign.
#[inline(never)]
fn settle_extended(value: &Known, term: &Term, place: &mut Known) -> Option<u64>
    requires { IsHead (head_in term.now) }
    ensures value { Fitted (head_in term.now) value.now (held_value (head_in term.now) result place.new) }
    ensures small { IfSome result (IsSmall (head_in term.now)) }
{
    keep(&fitted(value, TermHead::of(term)), term, place)
}

/// The same of a vector of which all bits are sure.
pub(crate) fn settle_vector(value: &Four, term: &Term, place: &mut Known) -> Option<u64>
    requires { IsHead (head_in term.now) }
    ensures value { Fitted (head_in term.now) (whole_of value.now) (held_value (head_in term.now) result place.new) }
    ensures small { IfSome result (IsSmall (head_in term.now)) }
{
    if value.width() == term.width
        && value.is_signed() == term.signed
        && term.width <= NARROW
        && value.is_known()
    {
        return Some(value.known_ones() as u64);
    }
    settle_whole(value, term, place)
}

/// The same of a vector that may have another width or another sign, or bits that are x or z.
#[inline(never)]
fn settle_whole(value: &Four, term: &Term, place: &mut Known) -> Option<u64>
    requires { IsHead (head_in term.now) }
    ensures value { Fitted (head_in term.now) (whole_of value.now) (held_value (head_in term.now) result place.new) }
    ensures small { IfSome result (IsSmall (head_in term.now)) }
{
    settle_extended(&Known::whole(*value), term, place)
}
