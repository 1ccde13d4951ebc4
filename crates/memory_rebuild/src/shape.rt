ghost use Rattle.std.specs.Prelude.{◌≡◌, ◌+◌, ◌<◌, ◌≤◌, ℕ, None, Some, MatchOption, false, map, min, max, replicate};
ghost use Rattle.four_state.specs.Vector.{fill};
ghost use Rattle.known_state.specs.Partly.{whole_of};
ghost use Rattle.memory_rebuild.specs.Words.{least as least_index, count as word_count, named_by, may_be};

use four_state::{Bit, Four, Index};
use known_state::Known;

/// The range of the words of a memory and what each word is.
#[derive(Clone, Copy)]
pub struct Shape {
    /// The left bound of the range of the words as declared.
    pub first: u32,
    /// The right bound of the range of the words as declared.
    pub last: u32,
    /// The number of bits of a word, from 1 to 128.
    pub width: u8,
    /// Whether a word is a number in two's complement.
    pub signed: bool,
    /// The thing to blame for what is not known of a word: the memory.
    pub blame: u32,
}

impl Shape {
    /// The least index of a word.
    fn least(&self) -> u32
        ensures value { result ≡ least_index self.now }
        ensures first { result ≤ self.now.first }
        ensures last { result ≤ self.now.last }
    {
        self.first.min(self.last)
    }

    /// How many words there are.
    pub(crate) fn count(&self) -> usize
        ensures value { result ≡ word_count self.now }
        ensures some { 1 ≤ result }
        ensures at_most { result ≤ 4294967296 }
    {
        (self.first.max(self.last) - self.least()) as usize + 1
    }

    /// The place of the word that an index names, counted from the least one.
    pub(crate) fn place_named(&self, index: &Four) -> Option<usize>
        ensures { MatchOption result (named_by self.now index.now.signed index.now.bits ≡ None) (λ place. (place < word_count self.now) × (named_by self.now index.now.signed index.now.bits ≡ Some (least_index self.now + place))) }
    {
        let least = self.least() as u128;
        match index.index() {
            Index::At(number) if least <= number && number - least < self.count() as u128 => {
                Some((number - least) as usize)
            }
            _ => None,
        }
    }

    /// Whether some value that an index may have names the word at this place: only the number of that word can, as
    /// a vector of the index's width.
    pub(crate) fn may_name(&self, index: &Known, place: usize) -> bool
        requires { place < word_count self.now }
        ensures { result ≡ may_be self.now index.now (least_index self.now + place) }
    {
        let number = self.least() as u128 + place as u128;
        let number = Four::make(128, false, number, 0).extend(index.width(), index.is_signed());
        if index.differs(&number) {
            return false;
        }
        match self.place_named(&number) {
            Some(named) => named == place,
            None => false,
        }
    }

    /// The place at which a search for the words that an index may name goes on after a word that it cannot name. It
    /// passes over all words whose numbers have the wrong bit at the same place. Where no bit of the number is wrong,
    /// the number has too many bits or is that of a negative index, and so have the later ones.
    pub(crate) fn place_after(&self, index: &Known, place: usize) -> usize
        requires place { place < word_count self.now }
        requires not_named { may_be self.now index.now (least_index self.now + place) ≡ false }
        ensures later { place < result }
        ensures within { result ≤ word_count self.now }
        ensures none { (q : ℕ) → place ≤ q → q < result → may_be self.now index.now (least_index self.now + q) ≡ false }
    {
        let value = index.value();
        let number = self.least() as u128 + place as u128;
        let wrong = (number ^ value.ones()) & index.sure();
        if wrong == 0 || !value.is_known() {
            return self.count();
        }
        let unit = 1u128 << wrong.ilog2();
        let next = (number / unit + 1) * unit - self.least() as u128;
        next.min(self.count() as u128) as usize
    }

    /// A word of which no bit is sure.
    pub(crate) fn unknown(&self) -> Known
        requires at_least { 1 ≤ self.now.width }
        requires at_most { self.now.width ≤ 128 }
        ensures { result ≡ record { bits = replicate self.now.width None; signed = self.now.signed; blame = self.now.blame } }
    {
        Known::unknown(self.width, self.signed, self.blame)
    }

    /// What an index reads that names no word (IEEE 1364-2001, clause 4.2.2).
    pub(crate) fn strange(&self) -> Known
        requires at_least { 1 ≤ self.now.width }
        requires at_most { self.now.width ≤ 128 }
        ensures { result ≡ whole_of (record { bits = fill self.now.width Bit.X; signed = self.now.signed }) }
    {
        Known::whole(Four::fill(self.width, self.signed, Bit::X))
    }
}
