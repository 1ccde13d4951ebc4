//! Concatenations (IEEE 1364-2001, clause 4.1.14).

ghost use Rattle.std.specs.Prelude.{◌≡◌, ◌+◌, ◌*◌, ◌++◌, ◌≤◌, false, length};
ghost use Rattle.known_state.specs.Join.{first_blame};
ghost use Rattle.known_state.specs.Partly.{is_whole};
ghost use Rattle.body_replay.specs.KnownBits.{copies_partly};
ghost use Rattle.term_replay.specs.Stands.{Fitted, IsHead, copied, so_far};

use crate::TermHead;
use crate::fit::{blank, fitted};
use four_state::Four;
use known_state::Known;

/// The bits of a value below those so far, if there are any. More than 128 bits, which only a concatenation that is
/// repeated 0 times can have, are left out.
pub fn followed_by(high: Option<Known>, low: &Known) -> Known
    ensures bits { length (so_far high).bits + length low.now.bits ≤ 128 → result.bits ≡ low.now.bits ++ (so_far high).bits }
    ensures blame { length (so_far high).bits + length low.now.bits ≤ 128 → is_whole result ≡ false → result.blame ≡ first_blame (so_far high) low.now }
{
    match high {
        None => *low,
        Some(high) if high.width() <= 128 - low.width() => appended(&high, low),
        Some(high) => high,
    }
}

/// Two values side by side.
fn appended(high: &Known, low: &Known) -> Known
    requires { length high.now.bits + length low.now.bits ≤ 128 }
    ensures bits { result.bits ≡ low.now.bits ++ high.now.bits }
    ensures blame { is_whole result ≡ false → result.blame ≡ first_blame high.now low.now }
{
    if high.is_whole() && low.is_whole() {
        return Known::whole(Four::append(&high.value(), &low.value()));
    }
    Known::append(high, low)
}

/// `count` copies of a value side by side.
pub fn copies(value: &Known, count: u8) -> Known
    requires some { 1 ≤ count }
    requires room { length value.now.bits * count ≤ 128 }
    ensures bits { result.bits ≡ copies_partly count value.now.bits }
    ensures blame { is_whole result ≡ false → result.blame ≡ value.now.blame }
{
    let mut all = *value;
    for made in 1..count {
        prove!(made < count);
        all = appended(&all, value);
    }
    all
}

/// `count` copies of the joined values of a concatenation, at the shape of its term: 0 where there are no bits.
pub fn concat(all: Option<Known>, count: u8, head: TermHead) -> Known
    requires head { IsHead head }
    requires room { length (so_far all).bits * count ≤ 128 }
    ensures { Fitted head (copied count (so_far all)) result }
{
    if count == 0 {
        return blank(head);
    }
    match all {
        Some(all) => fitted(&copies(&all, count), head),
        None => blank(head),
    }
}
