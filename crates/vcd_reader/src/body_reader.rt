ghost use Rattle.std.specs.Prelude.{◌≡◌, ◌<◌, ◌≤◌, ◌++◌, ◌∷◌, ◌+◌, [], ℕ, Ok, true, false, List, None, Some, take, length, OnOk, IfOk, IfErr, IfSome};
ghost use Rattle.std.specs.List.{position};
ghost use Rattle.vcd_reader.specs.Words.{is_white_space as is_space, IsBlack};
ghost use Rattle.vcd_reader.specs.declared.word.Word.TheVariants as word_row;
ghost use Rattle.vcd_reader.specs.Reading.{Body as SpecBody, body};
ghost use Rattle.vcd_reader.specs.Body.{start_body};
ghost use Rattle.vcd_reader.specs.Text.{Stands, EndsWithFault, is_alone, is_lone, is_one_digit};
ghost use Rattle.vcd_reader.specs.Holding.{IsWord, IsSpelling};
ghost use Rattle.vcd_reader.specs.Vectors.{IsVectorFront};
ghost use Rattle.vcd_reader.specs.declared.reading.Begun.TheVariants as begun_row;
ghost use Rattle.vcd_reader.specs.Wanted.{item_by};
ghost use Rattle.vcd_reader.specs.Hearing.{said_by};
ghost use Rattle.vcd_reader.specs.Passing.{Passing};
ghost use Rattle.vcd_reader.specs.declared.item.Saying.{Saying};
ghost use Rattle.vcd_reader.specs.declared.fault.DumpFault.TheVariants as dump_fault;

use crate::codes::Codes;
use crate::element::{read_kept, read_lanes, read_whole};
use crate::filter::Filter;
use crate::letters::{is_digit, is_white_space, length_of_word};
use crate::past::Past;
use crate::reading::{Begun, Change, Reading};
use crate::says::Says;
use crate::spelling::Spelling;
use crate::vector::{VectorFront, vector_front};
use crate::word::Word;
use crate::{DumpFault, DumpKind, Heard, Item, Saying, Step};

/// The longest dump, in bytes.
const LONGEST: u64 = 1_099_511_627_776;

/// What the front of a piece says, and how many bytes of the piece were used for it.
#[derive(Clone, Copy)]
pub(crate) struct Front {
    pub(crate) says: Says,
    pub(crate) used: usize,
}

/// Reads the bytes of a body.
#[derive(Drop)]
pub(crate) struct BodyReader {
    pub(crate) codes: Codes,
    /// How many bytes of the dump were read.
    pub(crate) at: u64,
    pub(crate) reading: Reading,
    /// The word that may go on.
    pub(crate) word: Word,
    /// The byte at which that word begins.
    pub(crate) word_at: u64,
    /// Whether the input has ended.
    pub(crate) is_at_end: bool,
    ghost within: { at ≤ 1099511627776 },
}

impl BodyReader {
    ghost use Rattle.vcd_reader.specs.BodyStanding.{BodyStands, BodyEnded, SaysNext, HasStepped, EndsSaying, StepsOn, IsBehind, IsBehindAt};

    /// The body after a header of `at` bytes.
    pub(crate) fn new(codes: Codes, at: u64, is_at_end: bool) -> Self
        requires { at ≤ 67108865 }
        ensures at_end { result.is_at_end ≡ is_at_end }
        ensures stands { (text : List ℕ) (b : SpecBody) → Stands text (body b) [] → at ≡ length text → codes ≡ b.codes → b.reading ≡ start_body → is_at_end ≡ false → BodyStands result text b }
    {
        BodyReader {
            codes,
            at,
            reading: Reading {
                past: Past {
                    last: None,
                    is_on: true,
                    stretches: 1,
                },
                begun: Begun::Nothing,
                change: Change::none(),
            },
            word: Word::None,
            word_at: at,
            is_at_end,
        }
    }

    /// What the dump says next that is heard.
    pub(crate) fn step(&mut self, piece: &[u8], filter: Filter<'_>) -> Result<Heard, DumpFault>
        ensures ok { IfOk result (λ heard. (text : List ℕ) (b : SpecBody) → BodyStands self.old text b → Passing filter.entry b (StepsOn (item_by heard.saying self.new.reading.change.value) heard.used self.new text piece.now)) }
        ensures fault { IfErr result (λ fault. (text : List ℕ) (b : SpecBody) → BodyStands self.old text b → Passing filter.entry b (λ m. IsBehindAt text piece.now m fault)) }
        ensures ended { (text : List ℕ) (b : SpecBody) → BodyEnded self.old text b → (result ≡ Ok (record { saying = Saying.End; used = length piece.now })) × BodyEnded self.new text b }
    {
        if self.is_at_end {
            Ok(Heard {
                saying: Saying::End,
                used: piece.len(),
            })
        } else if piece.is_empty() {
            let says = self.end(filter)?;
            self.is_at_end = true;
            Ok(Heard {
                saying: says.at_end(self.reading.change.code),
                used: 0,
            })
        } else {
            self.read(piece, filter)
        }
    }

    /// What the dump says next, with the value that is kept.
    pub(crate) fn as_step(&self, heard: Heard) -> Step
        ensures { result ≡ record { item = item_by heard.saying self.now.reading.change.value; used = heard.used } }
    {
        let item = match heard.saying {
            Saying::Time(time) => Item::Time(time),
            Saying::Change(code) => Item::Value {
                code,
                value: self.reading.change.value,
            },
            Saying::Off => Item::Off,
            Saying::On(time) => Item::On(time),
            Saying::More => Item::More,
            Saying::End => Item::End,
        };
        Step {
            item,
            used: heard.used,
        }
    }

    /// Reads a piece that is not empty up to what it says next.
    fn read(&mut self, piece: &[u8], filter: Filter<'_>) -> Result<Heard, DumpFault>
        requires { 0 < length piece.now }
        ensures ok { IfOk result (λ heard. (text : List ℕ) (b : SpecBody) → BodyStands self.old text b → Passing filter.entry b (HasStepped (item_by heard.saying self.new.reading.change.value) heard.used self.new text piece.now)) }
        ensures fault { IfErr result (λ fault. (text : List ℕ) (b : SpecBody) → BodyStands self.old text b → Passing filter.entry b (λ m. IsBehind (text ++ piece.now) m fault)) }
    {
        let mut used = 0;
        while used < piece.len() {
            let (_, rest) = piece.split_at(used);
            let front = self.read_front(rest, filter)?;
            used += front.used;
            match front.says {
                Says::Nothing => {}
                Says::Time(time) => {
                    return Ok(Heard {
                        saying: Saying::Time(time),
                        used,
                    });
                }
                Says::Change => {
                    return Ok(Heard {
                        saying: Saying::Change(self.reading.change.code),
                        used,
                    });
                }
                Says::Off => {
                    return Ok(Heard {
                        saying: Saying::Off,
                        used,
                    });
                }
                Says::On(time) => {
                    return Ok(Heard {
                        saying: Saying::On(time),
                        used,
                    });
                }
            }
        }
        Ok(Heard {
            saying: Saying::More,
            used,
        })
    }

    /// Reads what a piece begins with that is not empty: a whole change of a vector, or else a word or a byte.
    #[inline(always)]
    fn read_front(&mut self, piece: &[u8], filter: Filter<'_>) -> Result<Front, DumpFault>
        requires { 0 < length piece.now }
        ensures some { IfOk result (λ front. 1 ≤ front.used) }
        ensures within { IfOk result (λ front. front.used ≤ length piece.now) }
        ensures ok { IfOk result (λ front. (text : List ℕ) (b : SpecBody) → BodyStands self.old text b → Passing filter.entry b (SaysNext (said_by front.says self.new.reading) self.new (text ++ take front.used piece.now))) }
        ensures fault { IfErr result (λ fault. (text : List ℕ) (b : SpecBody) → BodyStands self.old text b → IsBehind (text ++ piece.now) b fault) }
    {
        match self.whole_vector(piece) {
            Some(front) => self.read_vector(piece, front, filter),
            None => self.read_word_or_byte(piece, filter),
        }
    }

    /// The change of a vector that the piece begins with, where nothing of it was read before, nothing has begun, and there
    /// is room for it.
    #[inline(always)]
    fn whole_vector(&self, piece: &[u8]) -> Option<VectorFront>
        ensures none { IfSome result (λ front. self.now.word ≡ word_row.None) }
        ensures rest { IfSome result (λ front. self.now.reading.begun ≡ begun_row.Nothing) }
        ensures front { IfSome result (IsVectorFront piece.now) }
        ensures room { IfSome result (λ front. self.now.at + front.digits + front.code + 3 ≤ 1099511627776) }
    {
        if !matches!(self.word, Word::None) || !matches!(self.reading.begun, Begun::Nothing) {
            return None;
        }
        let front = vector_front(piece)?;
        if piece.len() as u64 <= LONGEST - self.at {
            Some(front)
        } else {
            None
        }
    }

    /// Reads a whole change of a vector and the white space after it.
    #[inline(always)]
    fn read_vector(
        &mut self,
        piece: &[u8],
        front: VectorFront,
        filter: Filter<'_>,
    ) -> Result<Front, DumpFault>
        requires front { IsVectorFront piece.now front }
        requires room { self.old.at + front.digits + front.code + 3 ≤ 1099511627776 }
        ensures some { IfOk result (λ read. 1 ≤ read.used) }
        ensures within { IfOk result (λ read. read.used ≤ length piece.now) }
        ensures ok { IfOk result (λ read. (text : List ℕ) (b : SpecBody) → self.old.word ≡ word_row.None → self.old.reading.begun ≡ begun_row.Nothing → BodyStands self.old text b → Passing filter.entry b (SaysNext (said_by read.says self.new.reading) self.new (text ++ take read.used piece.now))) }
        ensures fault { IfErr result (λ fault. (text : List ℕ) (b : SpecBody) → self.old.word ≡ word_row.None → self.old.reading.begun ≡ begun_row.Nothing → BodyStands self.old text b → IsBehind (text ++ piece.now) b fault) }
    {
        let VectorFront { digits, code } = front;
        let (_, after_letter) = piece.split_at(1);
        let (_, words) = piece.split_at(digits + 2);
        let (code, _) = words.split_at(code);
        let first = self.at;
        let at = first + digits as u64 + 2;
        let is_heard = read_lanes(
            &self.codes,
            filter,
            &mut self.reading.change,
            after_letter,
            digits,
            first,
            code,
            at,
        )?;
        self.at = at + code.len() as u64 + 1;
        Ok(Front {
            says: Says::change(self.reading.past.is_on, is_heard),
            used: digits + code.len() + 3,
        })
    }

    /// Reads what a piece begins with that is not empty: a whole word and the white space after it, or one byte of a
    /// word of which a part was read before or is not in the piece.
    #[inline(always)]
    fn read_word_or_byte(&mut self, piece: &[u8], filter: Filter<'_>) -> Result<Front, DumpFault>
        requires { 0 < length piece.now }
        ensures some { IfOk result (λ front. 1 ≤ front.used) }
        ensures within { IfOk result (λ front. front.used ≤ length piece.now) }
        ensures ok { IfOk result (λ front. (text : List ℕ) (b : SpecBody) → BodyStands self.old text b → Passing filter.entry b (SaysNext (said_by front.says self.new.reading) self.new (text ++ take front.used piece.now))) }
        ensures fault { IfErr result (λ fault. (text : List ℕ) (b : SpecBody) → BodyStands self.old text b → IsBehind (text ++ piece.now) b fault) }
    {
        match self.whole_word(piece) {
            Some(length) => {
                let (word, _) = piece.split_at(length);
                let says = self.read_word(word, filter)?;
                Ok(Front {
                    says,
                    used: length + 1,
                })
            }
            None => {
                let says = self.read_byte(piece[0], filter)?;
                Ok(Front { says, used: 1 })
            }
        }
    }

    /// The length of the word that the piece begins with, where nothing of it was read before, white space comes after
    /// it in the piece, and there is room for both.
    fn whole_word(&self, piece: &[u8]) -> Option<usize>
        ensures none { IfSome result (λ length. self.now.word ≡ word_row.None) }
        ensures end { IfSome result (λ length. position is_space piece.now ≡ Some length) }
        ensures room { IfSome result (λ length. self.now.at + length < 1099511627776) }
    {
        if !matches!(self.word, Word::None) {
            return None;
        }
        let length = length_of_word(piece)?;
        if (length as u64) < LONGEST - self.at {
            Some(length)
        } else {
            None
        }
    }

    /// Reads a whole word, or none, and a byte of white space, and gives what the word says.
    #[inline(always)]
    fn read_word(&mut self, word: &[u8], filter: Filter<'_>) -> Result<Says, DumpFault>
        requires { self.old.at + length word.now < 1099511627776 }
        ensures ok { IfOk result (λ says. (text : List ℕ) (space : ℕ) (b : SpecBody) → self.old.word ≡ word_row.None → IsBlack word.now → is_space space ≡ true → BodyStands self.old text b → Passing filter.entry b (SaysNext (said_by says self.new.reading) self.new (text ++ (word.now ++ space ∷ [])))) }
        ensures fault { IfErr result (λ fault. (text : List ℕ) (space : ℕ) (b : SpecBody) → self.old.word ≡ word_row.None → IsBlack word.now → is_space space ≡ true → BodyStands self.old text b → IsBehind (text ++ (word.now ++ space ∷ [])) b fault) }
    {
        let says = read_whole(&self.codes, filter, &mut self.reading, word, self.at)?;
        self.at += word.len() as u64 + 1;
        Ok(says)
    }

    /// Reads a byte, and gives what the word says that ends before it.
    #[cold]
    fn read_byte(&mut self, byte: u8, filter: Filter<'_>) -> Result<Says, DumpFault>
        ensures ok { IfOk result (λ says. (text : List ℕ) (b : SpecBody) → BodyStands self.old text b → Passing filter.entry b (SaysNext (said_by says self.new.reading) self.new (text ++ byte ∷ []))) }
        ensures fault { IfErr result (λ fault. (text : List ℕ) (b : SpecBody) → BodyStands self.old text b → IsBehind (text ++ byte ∷ []) b fault) }
    {
        if is_white_space(byte) {
            self.read_space(filter)
        } else {
            self.push(byte)?;
            Ok(Says::Nothing)
        }
    }

    /// Reads a byte of white space, and gives what the word says that ends before it.
    fn read_space(&mut self, filter: Filter<'_>) -> Result<Says, DumpFault>
        ensures ok { IfOk result (λ says. (text : List ℕ) (space : ℕ) (b : SpecBody) → is_space space ≡ true → BodyStands self.old text b → Passing filter.entry b (SaysNext (said_by says self.new.reading) self.new (text ++ space ∷ []))) }
        ensures fault { IfErr result (λ fault. (text : List ℕ) (space : ℕ) (b : SpecBody) → is_space space ≡ true → BodyStands self.old text b → IsBehind (text ++ space ∷ []) b fault) }
    {
        let says = read_kept(
            &self.codes,
            filter,
            &mut self.reading,
            &self.word,
            self.word_at,
        )?;
        check_room(self.at)?;
        self.word = Word::None;
        self.at += 1;
        Ok(says)
    }

    /// Reads a byte of a word.
    fn push(&mut self, byte: u8) -> Result<(), DumpFault>
        ensures ok { OnOk result ((text : List ℕ) (b : SpecBody) → is_space byte ≡ false → BodyStands self.old text b → BodyStands self.new (text ++ byte ∷ []) b) }
        ensures fault { IfErr result (λ fault. (text : List ℕ) (b : SpecBody) → is_space byte ≡ false → BodyStands self.old text b → IsBehind (text ++ byte ∷ []) b fault) }
    {
        check_room(self.at)?;
        let start = self.word.start(self.word_at, self.at);
        let has_begun = self.reading.has_begun();
        self.word.push(byte, has_begun);
        self.word_at = start;
        self.at += 1;
        Ok(())
    }

    /// Ends the input, and gives what the last word says.
    fn end(&mut self, filter: Filter<'_>) -> Result<Says, DumpFault>
        ensures ok { IfOk result (λ says. (text : List ℕ) (b : SpecBody) → BodyStands self.old text b → Passing filter.entry b (EndsSaying (said_by says self.new.reading) text)) }
        ensures fault { IfErr result (λ fault. (text : List ℕ) (b : SpecBody) → BodyStands self.old text b → EndsWithFault text fault) }
    {
        if self.is_alone() {
            return Err(DumpFault::at(DumpKind::Truncated, self.at));
        }
        let says = read_kept(
            &self.codes,
            filter,
            &mut self.reading,
            &self.word,
            self.word_at,
        )?;
        if self.reading.has_begun() {
            return Err(DumpFault::at(DumpKind::Truncated, self.at));
        }
        Ok(says)
    }

    /// Whether the word that may go on is the first character of a time or a change, and no more.
    fn is_alone(&self) -> bool
        ensures { (text : List ℕ) (b : SpecBody) (stands : BodyStands self.now text b) → result ≡ is_alone (body b) stands.word }
    {
        !self.reading.has_begun() && is_lone(&self.word)
    }
}

/// A body has room for a byte more.
fn check_room(at: u64) -> Result<(), DumpFault>
    ensures room { OnOk result (at < 1099511627776) }
    ensures fault { IfErr result (λ fault. fault ≡ dump_fault.At DumpKind.DumpTooLong 1099511627776) }
    ensures no_room { IfErr result (λ fault. 1099511627776 ≤ at) }
{
    if at < LONGEST {
        Ok(())
    } else {
        Err(DumpFault::at(DumpKind::DumpTooLong, LONGEST))
    }
}

/// Whether the word is the first character of a time or a change, and no more.
fn is_lone(word: &Word) -> bool
    ensures { (bytes : List ℕ) → IsWord word.now false bytes → result ≡ is_lone bytes }
{
    match word {
        Word::None => false,
        Word::Time(digits) => !digits.is_some,
        Word::Digits(digits) => digits.count == 0,
        Word::Other(spelling) => is_one_digit(spelling),
    }
}

/// Whether the word is a digit of a value, and no more.
fn is_one_digit(word: &Spelling) -> bool
    ensures { (bytes : List ℕ) → IsSpelling word.now bytes → result ≡ is_one_digit bytes }
{
    match word.bytes() {
        Some([digit]) => is_digit(*digit),
        _ => false,
    }
}
