//! A memory as a plain list of what is known of each word. What an index reads and writes is found by trying each value
//! that the index may have.
ghost use Rattle.std.specs.Prelude.{◌≤◌};

use four_state::{Bit, Four, Index};
use known_state::Known;
use std::alloc::{AllocError, Global};

/// How many values are tried: all of an index of up to three bits.
const TRIED: u64 = 64;

#[derive(Drop)]
pub(crate) struct Plain {
    least: u128,
    blame: u32,
    strange: Known,
    words: Vec<Known>,
}

/// What two vectors have in common.
pub(crate) fn common(a: &Known, b: &Known, blame: u32) -> Known {
    if a.width() == b.width() {
        a.join(b, blame)
    } else {
        *a
    }
}

/// The value with this number, if the index may have it.
fn candidate(index: &Known, code: u64) -> Option<Four> {
    let strange = code >> (index.width() % 64);
    let value = Four::make(128, false, code as u128, strange as u128).extend(
        index.width(),
        index.is_signed(),
    );
    if value.width() != index.width() || index.differs(&value) {
        None
    } else {
        Some(value)
    }
}

impl Plain {
    pub(crate) fn new(
        alloc: Global,
        least: u32,
        count: usize,
        width: u8,
        signed: bool,
        blame: u32,
    ) -> Result<Plain, AllocError>
        requires at_least { 1 ≤ width }
        requires at_most { width ≤ 128 }
    {
        let words = vec![in alloc; Known::unknown(width, signed, blame); count]?;
        Ok(Plain {
            least: least as u128,
            blame,
            strange: Known::whole(Four::fill(width, signed, Bit::X)),
            words,
        })
    }

    /// The place of the word that a value names.
    fn named(&self, value: &Four) -> Option<usize> {
        match value.index() {
            Index::At(number) if number >= self.least => {
                let place = number - self.least;
                if place < self.words.len() as u128 {
                    Some(place as usize)
                } else {
                    None
                }
            }
            _ => None,
        }
    }

    /// What a value reads.
    fn word(&self, value: &Four) -> Known {
        match self.named(value) {
            Some(place) => self.words.get(place).copied().unwrap_or(self.strange),
            None => self.strange,
        }
    }

    /// What all values read that the index may have.
    pub(crate) fn read(&self, index: &Known) -> Known {
        let blame = if index.is_whole() {
            self.blame
        } else {
            index.blame()
        };
        let mut read: Option<Known> = None;
        for code in 0..TRIED {
            if let Some(value) = candidate(index, code) {
                let word = self.word(&value);
                read = Some(common(&read.unwrap_or(word), &word, blame));
            }
        }
        read.unwrap_or(self.strange)
    }

    /// Whether some and whether all values that the index may have name the word at a place.
    fn names(&self, index: &Known, place: usize) -> (bool, bool) {
        let mut some = false;
        let mut all = true;
        for code in 0..TRIED {
            if let Some(value) = candidate(index, code) {
                let named = self.named(&value) == Some(place);
                some = some || named;
                all = all && named;
            }
        }
        (some, all)
    }

    pub(crate) fn write(&mut self, index: &Known, value: &Known, certain: bool) {
        for place in 0..self.words.len() {
            let (some, all) = self.names(index, place);
            let blame = self.blame;
            if let Some(word) = self.words.get_mut(place) {
                if some {
                    let old = if all && certain { *value } else { *word };
                    *word = common(&old, value, blame);
                }
            }
        }
    }

    pub(crate) fn smudge(&mut self) {
        for place in 0..self.words.len() {
            let blame = self.blame;
            if let Some(word) = self.words.get_mut(place) {
                *word = Known::unknown(word.width(), word.is_signed(), blame);
            }
        }
    }
}
