//! Words of memories by their evaluated indexes (IEEE 1364-2001, clause 4.2.2).

ghost use Rattle.std.specs.Prelude.{◌≡◌, ◌-◌, ◌^◌, ◌≤◌, ◌∷◌, [], if◌then◌else◌, false, true, max, min};
ghost use Rattle.four_state.specs.Parts.{index as index_value};
ghost use Rattle.known_state.specs.Partly.{is_whole};
ghost use Rattle.design_model.specs.declared.design.Memory.{Memory};
ghost use Rattle.design_model.specs.Design.{is_memory};
ghost use Rattle.design_model.specs.Value.{named_word};
ghost use Rattle.body_replay.specs.Store.{may_name as may_name_word, read_word, words as words_of};
ghost use Rattle.body_replay.specs.Replay.{doubted, named_mark, perhaps_marks, word_blame};
ghost use Rattle.term_replay.specs.Noted.{Adds, access_spot, in_this};
ghost use Rattle.term_replay.specs.Words.{IsOf, is_index_at, marks_of_words};

use crate::fit::blamed;
use crate::{Access, Notes, Reads};
use design_model::Range;
use four_state::{Four, Index};
use known_state::Known;

/// What is read of a memory by an index, with its blame: the first read of the run that was not wholly sure where the run
/// has written the memory, else the index where it is not whole, else the memory.
pub fn word<R: Reads>(reads: &R, memory: u32, index: &Known, first: Option<u32>) -> Known
    requires { is_memory (R.scene reads.now).design memory ≡ true }
    ensures bits { result.bits ≡ read_word (R.scene reads.now).design (R.scene reads.now).kept memory index.now.signed index.now.bits }
    ensures blame { is_whole result ≡ false → result.blame ≡ word_blame (R.scene reads.now).blames memory (is_whole index.now) index.now.blame first }
{
    let thing = thing_to_blame(reads, memory, index, first);
    blamed(&reads.word(memory, index), thing)
}

/// What a word that is read by an index is blamed on.
fn thing_to_blame<R: Reads>(reads: &R, memory: u32, index: &Known, first: Option<u32>) -> u32
    requires { is_memory (R.scene reads.now).design memory ≡ true }
    ensures { result ≡ word_blame (R.scene reads.now).blames memory (is_whole index.now) index.now.blame first }
{
    let own = reads.blame(memory);
    if reads.wrote(memory) {
        return match first {
            Some(thing) => thing,
            None => own,
        };
    }
    if index.is_whole() { own } else { index.blame() }
}

/// The mask of the lowest `width` places.
pub(crate) fn low_mask(width: u8) -> u128
    requires low { 1 ≤ width }
    requires high { width ≤ 128 }
    ensures { result ≡ 2 ^ width - 1 }
{
    u128::MAX >> (128 - width)
}

/// Whether an index may name the word of a memory with this number, which is one of its words. It is one test: only the
/// number itself, written with as many bits, can.
pub fn may_name(index: &Known, word: u32) -> bool
    ensures { (m : Memory) → min m.first m.last ≤ word → word ≤ max m.first m.last → result ≡ may_name_word m index.now.signed index.now.bits word }
{
    let number = u128::from(word);
    let mask = low_mask(index.width());
    let bits = Four::make(index.width(), index.is_signed(), number & mask, 0);
    if index.differs(&bits) {
        return false;
    }
    is_number(bits.index(), number)
}

/// Whether an index is this number.
fn is_number(index: Index, number: u128) -> bool
    ensures { result ≡ is_index_at index number }
{
    match index {
        Index::At(own) => own == number,
        Index::Strange | Index::Below => false,
    }
}

/// The word of a memory that a whole index names, if there is one.
fn named(words: Range, index: &Four) -> Option<u32>
    ensures { (m : Memory) → IsOf words m → result ≡ named_word m (index_value index.now.signed index.now.bits) }
{
    let (low, high) = (words.high.min(words.low), words.high.max(words.low));
    match index.index() {
        Index::At(number) if u128::from(low) <= number && number <= u128::from(high) => {
            Some(number as u32)
        }
        _ => None,
    }
}

/// Notes the word that an index names, or a doubt of each word that it may name, for which the index is to blame.
pub fn note_words<N: Notes>(
    access: Access,
    memory: u32,
    words: Range,
    index: &Known,
    mode: Option<u32>,
    notes: &mut N,
)
    ensures { (m : Memory) → IsOf words m → Adds N.noted notes.old (in_this mode (marks_of_words m (access_spot access memory) index.now.signed index.now.bits index.now.blame)) notes.new }
{
    if index.is_whole() {
        return note_named(access, memory, named(words, &index.value()), mode, notes);
    }
    let thing = mode.unwrap_or(index.blame());
    note_each(access, memory, words, index, thing, notes);
}

/// Notes the word that is named, if there is one.
fn note_named<N: Notes>(
    access: Access,
    memory: u32,
    word: Option<u32>,
    mode: Option<u32>,
    notes: &mut N,
)
    ensures { Adds N.noted notes.old (in_this mode (named_mark (access_spot access memory) word)) notes.new }
{
    if let Some(word) = word {
        notes.note(access.spot(memory, word), mode);
    }
}

/// Notes a doubt of each word that an index may name.
fn note_each<N: Notes>(
    access: Access,
    memory: u32,
    words: Range,
    index: &Known,
    thing: u32,
    notes: &mut N,
)
    ensures { (m : Memory) → IsOf words m → Adds N.noted notes.old (perhaps_marks (access_spot access memory) (may_name_word m index.now.signed index.now.bits) (words_of m) thing) notes.new }
{
    let low = words.high.min(words.low);
    let high = words.high.max(words.low);
    for word in u64::from(low)..u64::from(high) + 1 {
        note_if_named(access, memory, index, word as u32, thing, notes);
    }
}

/// Notes a doubt of the word of a memory with this number, if an index may name it.
fn note_if_named<N: Notes>(
    access: Access,
    memory: u32,
    index: &Known,
    word: u32,
    thing: u32,
    notes: &mut N,
)
    ensures { (m : Memory) → min m.first m.last ≤ word → word ≤ max m.first m.last → Adds N.noted notes.old (if may_name_word m index.now.signed index.now.bits word then doubted (access_spot access memory word) thing ∷ [] else []) notes.new }
{
    if may_name(index, word) {
        notes.note(access.spot(memory, word), Some(thing));
    }
}
