ghost use Rattle.std.specs.Prelude.{◌≡◌, ◌+◌, ◌<◌, ◌≤◌, ◌++◌, ◌∷◌, [], ℕ, All, Contains, length, slice_index_or, vec_capacity, vec_len};
ghost use Rattle.known_state.specs.Partly.{with_blame};
ghost use Rattle.memory_rebuild.specs.Words.{bits_left, count, least, may_be};
ghost use Rattle.memory_rebuild.specs.Epochs.{Fits, weakened};

use crate::Shape;
use known_state::Known;

/// A word of a memory, with the number of the epoch in which it was written. The epochs of a memory are numbered from
/// 1, so a word with the number 0 was never written.
#[derive(Clone, Copy)]
pub(crate) struct Word {
    pub(crate) value: Known,
    pub(crate) epoch: u64,
}

impl Word {
    /// The word after a value was written into it. The thing is to blame for the bits that are not sure then.
    pub(crate) fn after(&self, value: &Known, certain: bool, blame: u32) -> Word
        requires width { length self.now.value.bits ≡ length value.now.bits }
        requires sign { self.now.value.signed ≡ value.now.signed }
        ensures value { result.value ≡ with_blame (bits_left certain value.now.bits self.now.value.bits) value.now.signed blame }
        ensures epoch { result.epoch ≡ self.now.epoch }
    {
        if certain {
            return Word {
                value: value.join(value, blame),
                epoch: self.epoch,
            };
        }
        Word {
            value: self.value.join(value, blame),
            epoch: self.epoch,
        }
    }
}

/// The number of the next epoch, which no word has. After the greatest number all words are made unknown, and the
/// numbers begin again.
pub(crate) fn next_epoch(shape: &Shape, words: &mut [Word], epoch: u64) -> u64
    requires at_least { 1 ≤ shape.now.width }
    requires at_most { shape.now.width ≤ 128 }
    requires fit { All (Fits shape.now) words.old }
    requires older { All (λ word. word.epoch ≤ epoch) words.old }
    ensures size { length words.new ≡ length words.old }
    ensures fit { All (Fits shape.now) words.new }
    ensures older { All (λ word. word.epoch < result) words.new }
{
    if epoch < u64::MAX {
        return epoch + 1;
    }
    words.fill(Word {
        value: shape.unknown(),
        epoch: 0,
    });
    1
}

/// Adds a place to a list that has room.
pub(crate) fn list(written: &mut Vec<usize>, place: usize)
    requires { vec_len written.old < vec_capacity written.old }
    ensures items { written.new.items ≡ written.old.items ++ place ∷ [] }
    ensures room { vec_capacity written.old ≤ vec_capacity written.new }
{
    if written.push(place).is_err() {
        unreachable!()
    }
}

/// Joins a value into each of the listed words that an index may name.
pub(crate) fn weaken(
    shape: &Shape,
    words: &mut [Word],
    written: &[usize],
    index: &Known,
    value: &Known,
)
    requires size { length words.old ≡ count shape.now }
    requires inside { All (λ place. place < length words.old) written.now }
    requires fit { All (Fits shape.now) words.old }
    requires width { length value.now.bits ≡ shape.now.width }
    requires sign { value.now.signed ≡ shape.now.signed }
    ensures size { length words.new ≡ length words.old }
    ensures fit { All (Fits shape.now) words.new }
    ensures epochs { (q : ℕ) (d : Word) → q < length words.old → (slice_index_or words.new q d).epoch ≡ (slice_index_or words.old q d).epoch }
    ensures listed { (q : ℕ) (d : Word) → q < length words.old → Contains written.now q → (slice_index_or words.new q d).value.bits ≡ weakened (may_be shape.now index.now (least shape.now + q)) value.now.bits (slice_index_or words.old q d).value.bits }
{
    for place in written {
        if shape.may_name(index, *place) {
            let old = words[*place];
            words[*place] = old.after(value, false, shape.blame);
        }
    }
}
