ghost use Rattle.std.specs.Prelude.{◌≡◌, ◌+◌, ◌<◌, ◌==◌, ◌≤◌, ℕ, List, All, Contains, IfOk, MatchOption, None, Some, false, true, if◌then◌else◌, length};
ghost use Rattle.four_state.specs.declared.bit.Bit.{Bit};
ghost use Rattle.known_state.specs.Partly.{is_whole as is_whole_value, with_blame};
ghost use Rattle.body_replay.specs.design_model.Design.{Design, memory_at};
ghost use Rattle.body_replay.specs.KnownBits.{AllAllow, unknown, whole_bits};
ghost use Rattle.body_replay.specs.Store.{Kept, keep_all, read_word};
ghost use Rattle.memory_rebuild.specs.Words.{AllowsWords, HaveWidth, IsForgotten, IsIndex, StandsFor, bits_left, cell_writes, least, count, may_be, named_by, option_word, read_of, true_word, true_words, unwritten, word_after, word_at};

use crate::Shape;
use crate::word::{Word, list, next_epoch, weaken};
use cov_host::NoMemory;
use known_state::Known;
use std::alloc::Global;
use std::marker::Model;

/// The words of a memory that are partly known. The words are kept by epochs: one that was not written in the current
/// epoch is unknown, so that all words are made unknown by one addition.
pub struct Rebuilt {
    shape: Shape,
    words: Vec<Word>,
    /// The number of the current epoch, from 1.
    epoch: u64,
    /// The places of the words that were written in the current epoch.
    written: Vec<usize>,
}

// Written out so that a crate which lets one go does not prove again how each of its parts is let go.
impl Drop for Rebuilt {
    fn drop(self) {
        let Rebuilt {
            shape: _,
            words: _,
            epoch: _,
            written: _,
        } = self;
    }
}

impl Model for Rebuilt {
    ghost use Rattle.std.specs.Prelude.{map, vec_capacity};
    ghost use Rattle.memory_rebuild.specs.Words.{KnownWords};
    ghost use Rattle.memory_rebuild.specs.Epochs.{AreKept, bits_now};

    ghost Value = { KnownWords };

    ghost view = { λ r. record { shape = r.shape; words = map (bits_now r.shape.width r.epoch) r.words.items } };

    ghost invariant = { λ r. AreKept r.shape r.epoch r.words.items r.written.items (vec_capacity r.written) };
}

impl Rebuilt {
    /// A memory with the words from `first` to `last` or from `last` to `first`, none of which is known, and the thing
    /// to blame for that. All room that is ever needed is taken here.
    pub fn new(
        alloc: Global,
        first: u32,
        last: u32,
        width: u8,
        signed: bool,
        blame: u32,
    ) -> Result<Rebuilt, NoMemory>
        requires at_least { 1 ≤ width }
        requires at_most { width ≤ 128 }
        ensures value { IfOk result (λ r. r ≡ unwritten (record { first = first; last = last; width = width; signed = signed; blame = blame })) }
        ensures stands { IfOk result (λ r. (d : Design) (b : Kept) (m : ℕ) → first ≡ (memory_at d m).first → last ≡ (memory_at d m).last → width ≡ (memory_at d m).width → IsForgotten b m → StandsFor d b m r) }
    {
        let shape = Shape {
            first,
            last,
            width,
            signed,
            blame,
        };
        let never = Word {
            value: shape.unknown(),
            epoch: 0,
        };
        let words = vec![in alloc; never; shape.count()]?;
        let written = Vec::with_capacity(alloc, shape.count())?;
        Ok(Rebuilt {
            shape,
            words,
            epoch: 1,
            written,
        })
    }

    /// The range of the words, and what each word is.
    pub fn shape(&self) -> Shape
        ensures value { result ≡ self.now.shape }
        ensures at_least { 1 ≤ self.now.shape.width }
        ensures at_most { self.now.shape.width ≤ 128 }
        ensures widths { HaveWidth self.now }
        ensures size { length self.now.words ≡ count self.now.shape }
    {
        self.shape
    }

    /// How many words there are.
    pub fn len(&self) -> usize
        ensures { result ≡ count self.now.shape }
    {
        self.shape.count()
    }

    /// What an index reads (IEEE 1364-2001, clause 4.2.2): the word that it names, x where it names none, and where it
    /// is not sure the join of x and all words that it may name. A read that is not wholly sure is blamed on the
    /// index where that is not wholly sure, and else on the memory. It takes no memory.
    ///
    /// By a sure index the word is looked up. By one that is not sure the words that it may name are joined in turn,
    /// until no bit of the join is sure. So the loop ends at the latest with the first of them that was not written
    /// since the last `smudge`. From one word to the next that may be named the search takes at most two steps for
    /// each bit of the index.
    pub fn read(&self, index: &Known) -> Known
        ensures value { result ≡ read_of self.now index.now }
        ensures width { length result.bits ≡ self.now.shape.width }
        ensures sound { (v : ℕ → List Bit) (is : List Bit) → AllowsWords self.now v → AllAllow index.now.bits is → AllAllow result.bits (true_word self.now.shape v (named_by self.now.shape index.now.signed is)) }
        ensures sure_index { (is : List Bit) → whole_bits index.now.bits ≡ Some is → result.bits ≡ option_word self.now (named_by self.now.shape index.now.signed is) }
        ensures blame { is_whole_value result ≡ false → result.blame ≡ (if is_whole_value index.now then self.now.shape.blame else index.now.blame) }
        ensures stands { (d : Design) (k : Kept) (m : ℕ) → StandsFor d k m self.now → result.bits ≡ read_word d k m index.now.signed index.now.bits }
    {
        self.looked_up(index)
    }

    /// Writes a value of the words' width and sign into the word that an index names; where it names none nothing is
    /// written. A write that is not certain leaves the word what it has in common with the value, and so does each
    /// write of each word that an index that is not sure may name. It takes no memory.
    ///
    /// By a sure index the word is looked up. By one that is not sure the loop is over the words that were written since
    /// the last `smudge`. The others stay unknown.
    pub fn write(&mut self, index: &Known, value: &Known, certain: bool)
        requires width { length value.now.bits ≡ self.old.shape.width }
        requires sign { value.now.signed ≡ self.old.shape.signed }
        ensures shape { self.new.shape ≡ self.old.shape }
        ensures size_before { length self.old.words ≡ count self.old.shape }
        ensures size { length self.new.words ≡ count self.old.shape }
        ensures widths_before { HaveWidth self.old }
        ensures words { (i : ℕ) → IsIndex self.old.shape i → word_at self.new i ≡ word_after self.old index.now value.now.bits certain i }
        ensures sound { (v : ℕ → List Bit) (is bs : List Bit) → AllowsWords self.old v → AllAllow index.now.bits is → AllAllow value.now.bits bs → AllowsWords self.new (true_words v (named_by self.old.shape index.now.signed is) bs) }
        ensures not_certain { certain ≡ false → (v : ℕ → List Bit) → AllowsWords self.old v → AllowsWords self.new v }
        ensures sure_index { (is : List Bit) (i : ℕ) → whole_bits index.now.bits ≡ Some is → named_by self.old.shape index.now.signed is ≡ Some i → word_at self.new i ≡ bits_left certain value.now.bits (word_at self.old i) }
        ensures others { (i : ℕ) → IsIndex self.old.shape i → may_be self.old.shape index.now i ≡ false → word_at self.new i ≡ word_at self.old i }
        ensures stands { (d : Design) (k : Kept) (m : ℕ) → StandsFor d k m self.old → StandsFor d (keep_all k (cell_writes d m index.now value.now.bits certain)) m self.new }
    {
        self.put(index, value, certain);
    }

    /// Makes all words unknown. It takes no memory.
    ///
    /// One number is changed, and the list of the written words is emptied. Only after the greatest number of an epoch
    /// all words are changed.
    pub fn smudge(&mut self)
        ensures value { self.new ≡ unwritten self.old.shape }
        ensures stands { (d : Design) (k b : Kept) (m : ℕ) → StandsFor d k m self.old → IsForgotten b m → StandsFor d b m self.new }
    {
        self.epoch = next_epoch(&self.shape, self.words.as_mut_slice(), self.epoch);
        self.written.clear();
    }

    /// The place of the word that an index names, counted from the least one.
    pub fn place_of(&self, index: &Known) -> Option<usize>
        requires { is_whole_value index.now ≡ true }
        ensures { (bits : List Bit) → whole_bits index.now.bits ≡ Some bits → MatchOption result (named_by self.now.shape index.now.signed bits ≡ None) (λ place. (place < count self.now.shape) × (named_by self.now.shape index.now.signed bits ≡ Some (least self.now.shape + place))) }
    {
        self.shape.place_named(&index.value())
    }

    /// Whether some value that an index may have names the word at a place.
    pub fn may_name(&self, index: &Known, place: usize) -> bool
        requires { place < count self.now.shape }
        ensures { result ≡ may_be self.now.shape index.now (least self.now.shape + place) }
    {
        self.shape.may_name(index, place)
    }

    /// The places of the words that were written since the last `smudge`. All others are unknown, so a write by an index
    /// that is not sure leaves them.
    pub fn written_places(&self) -> &[usize]
        ensures inside { All (λ place. place < count self.now.shape) result.now }
        ensures others { (place : ℕ) → place < count self.now.shape → (Contains result.now place → ⊥) → word_at self.now (least self.now.shape + place) ≡ unknown self.now.shape.width }
        ensures few { length result.now ≤ count self.now.shape }
    {
        self.written.as_slice()
    }

    /// Puts a value of the words' width and sign into the word at a place. It takes no memory.
    pub fn set_word(&mut self, place: usize, value: &Known)
        requires place { place < count self.old.shape }
        requires width { length value.now.bits ≡ self.old.shape.width }
        requires sign { value.now.signed ≡ self.old.shape.signed }
        ensures shape { self.new.shape ≡ self.old.shape }
        ensures words { (q : ℕ) → q < count self.old.shape → word_at self.new (least self.old.shape + q) ≡ (if place == q then value.now.bits else word_at self.old (least self.old.shape + q)) }
        ensures size_before { length self.old.words ≡ count self.old.shape }
        ensures size { length self.new.words ≡ count self.old.shape }
    {
        self.put_at(place, value, true);
    }

    /// What an index reads.
    fn looked_up(&self, index: &Known) -> Known
        ensures value { result ≡ read_of self.now index.now }
        ensures widths { HaveWidth self.now }
    {
        let shape = self.shape();
        if !index.is_whole() {
            return self.joined(index);
        }
        match shape.place_named(&index.value()) {
            Some(place) => self.word(place),
            None => shape.strange(),
        }
    }

    /// Writes a value into the word that an index names, or perhaps into each that it may name.
    fn put(&mut self, index: &Known, value: &Known, certain: bool)
        requires width { length value.now.bits ≡ self.old.shape.width }
        requires sign { value.now.signed ≡ self.old.shape.signed }
        ensures shape { self.new.shape ≡ self.old.shape }
        ensures widths { HaveWidth self.old }
        ensures size_before { length self.old.words ≡ count self.old.shape }
        ensures size { length self.new.words ≡ count self.old.shape }
        ensures words { (q : ℕ) → q < count self.old.shape → word_at self.new (least self.old.shape + q) ≡ word_after self.old index.now value.now.bits certain (least self.old.shape + q) }
    {
        let shape = self.shape();
        if !index.is_whole() {
            self.put_anywhere(index, value);
        } else if let Some(place) = shape.place_named(&index.value()) {
            self.put_at(place, value, certain);
        }
    }

    /// The word at a place.
    pub fn word(&self, place: usize) -> Known
        requires { place < count self.now.shape }
        ensures value { result ≡ with_blame (word_at self.now (least self.now.shape + place)) self.now.shape.signed self.now.shape.blame }
        ensures width { length result.bits ≡ self.now.shape.width }
    {
        let word = self.words[place];
        if word.epoch == self.epoch {
            word.value
        } else {
            self.shape.unknown()
        }
    }

    /// What x and the words that an index may name have in common, for an index that is not sure.
    fn joined(&self, index: &Known) -> Known
        requires { is_whole_value index.now ≡ false }
        ensures { result ≡ read_of self.now index.now }
    {
        let shape = self.shape();
        let mut joined = shape.strange();
        let mut place = 0;
        while place < shape.count() {
            if shape.may_name(index, place) {
                joined = joined.join(&self.word(place), index.blame());
                if joined.sure() == 0 {
                    return joined;
                }
                place += 1;
            } else {
                place = shape.place_after(index, place);
            }
        }
        joined
    }

    /// Writes the word at a place.
    fn put_at(&mut self, place: usize, value: &Known, certain: bool)
        requires place { place < count self.old.shape }
        requires width { length value.now.bits ≡ self.old.shape.width }
        requires sign { value.now.signed ≡ self.old.shape.signed }
        ensures shape { self.new.shape ≡ self.old.shape }
        ensures word { word_at self.new (least self.old.shape + place) ≡ bits_left certain value.now.bits (word_at self.old (least self.old.shape + place)) }
        ensures others { (q : ℕ) → q < count self.old.shape → (q ≡ place → ⊥) → word_at self.new (least self.old.shape + q) ≡ word_at self.old (least self.old.shape + q) }
        ensures size_before { length self.old.words ≡ count self.old.shape }
        ensures size { length self.new.words ≡ count self.old.shape }
    {
        let word = self.words[place];
        if word.epoch == self.epoch {
            self.words[place] = word.after(value, certain, self.shape.blame);
        } else if certain {
            list(&mut self.written, place);
            self.words[place] = Word {
                value: value.join(value, self.shape.blame),
                epoch: self.epoch,
            };
        }
    }

    /// Joins a value into each word that an index may name, for an index that is not sure.
    fn put_anywhere(&mut self, index: &Known, value: &Known)
        requires width { length value.now.bits ≡ self.old.shape.width }
        requires sign { value.now.signed ≡ self.old.shape.signed }
        requires index { is_whole_value index.now ≡ false }
        ensures shape { self.new.shape ≡ self.old.shape }
        ensures words { (q : ℕ) → q < count self.old.shape → word_at self.new (least self.old.shape + q) ≡ word_after self.old index.now value.now.bits false (least self.old.shape + q) }
        ensures size { length self.new.words ≡ count self.old.shape }
    {
        weaken(
            &self.shape,
            self.words.as_mut_slice(),
            self.written.as_slice(),
            index,
            value,
        );
    }
}
