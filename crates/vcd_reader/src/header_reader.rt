ghost use Rattle.std.specs.Prelude.{◌≡◌, ◌<◌, ◌≤◌, ◌^◌, ◌++◌, ◌∷◌, [], ℕ, true, false, List, Ok, nat_le, not, ◌&&◌, if◌then◌else◌, length, take, IfOk, IfErr, OnOk};
ghost use Rattle.vcd_reader.specs.Answer.{IsFault};
ghost use Rattle.vcd_reader.specs.declared.fault.DumpFault.TheVariants as dump_fault;
ghost use Rattle.vcd_reader.specs.Words.{is_white_space as is_space};
ghost use Rattle.vcd_reader.specs.Reading.{last_word};
ghost use Rattle.vcd_reader.specs.Views.{reading_of};
ghost use Rattle.vcd_reader.specs.Progress.{counted_codes, is_at_end, is_going, longest_of};

use crate::letters::is_white_space;
use crate::progress::Progress;
use crate::sections::Sections;
use crate::{DumpFault, DumpKind, Fed};
use std::alloc::Global;

/// The longest header, in bytes.
const LONGEST: u64 = 67_108_864;

/// Reads the bytes of a header.
#[derive(Drop)]
pub(crate) struct HeaderReader {
    pub(crate) sections: Sections,
    /// The bytes of the word that may go on.
    pub(crate) word: Vec<u8>,
    /// How many bytes were read.
    pub(crate) at: u64,
    pub(crate) progress: Progress,
    ghost long: { length word.items ≤ at },
    ghost within: { at ≤ longest_of progress },
    ghost few: { counted_codes progress (length sections.declared.codes) ≤ at },
}

impl HeaderReader {
    ghost use Rattle.vcd_reader.specs.Standing.{HeaderStands, HasFed, IsFoundFault, IsFaultAtEnd, IsFaultOf};

    /// Nothing was read.
    pub(crate) fn new(alloc: Global) -> Self
        ensures { HeaderStands result [] }
    {
        let sections = Sections::new(alloc);
        HeaderReader {
            sections,
            word: Vec::new(alloc),
            at: 0,
            progress: Progress::Going,
        }
    }

    /// Reads the next piece; an empty one is the end of the input.
    pub(crate) fn feed(&mut self, piece: &[u8]) -> Result<Fed, DumpFault>
        requires { is_going self.old.progress ≡ true }
        ensures ok { IfOk result (λ fed. (text : List ℕ) → HeaderStands self.old text → HasFed fed self.new text piece.now) }
        ensures fault { IfErr result (λ fault. (text : List ℕ) → HeaderStands self.old text → IsFaultOf text piece.now fault) }
    {
        if piece.is_empty() {
            self.end()?;
            Ok(Fed::Done { used: 0 })
        } else {
            self.read(piece)
        }
    }

    /// Reads a piece that is not empty.
    fn read(&mut self, piece: &[u8]) -> Result<Fed, DumpFault>
        requires going { is_going self.old.progress ≡ true }
        requires some { 0 < length piece.now }
        ensures ok { IfOk result (λ fed. (text : List ℕ) → HeaderStands self.old text → HasFed fed self.new text piece.now) }
        ensures fault { IfErr result (λ fault. (text : List ℕ) → HeaderStands self.old text → IsFoundFault (text ++ piece.now) fault) }
    {
        for (place, byte) in piece.iter().enumerate() {
            if self.read_byte(*byte)? {
                return Ok(Fed::Done { used: place + 1 });
            }
        }
        Ok(Fed::More)
    }

    /// Reads a byte, and says whether the header ends before it.
    fn read_byte(&mut self, byte: u8) -> Result<bool, DumpFault>
        requires { is_going self.old.progress ≡ true }
        ensures progress { IfOk result (λ last. is_going self.new.progress ≡ not last) }
        ensures open { OnOk result (is_at_end self.new.progress ≡ false) }
        ensures ok { OnOk result ((text : List ℕ) → HeaderStands self.old text → HeaderStands self.new (text ++ byte ∷ [])) }
        ensures fault { IfErr result (λ fault. (text : List ℕ) → HeaderStands self.old text → IsFoundFault (text ++ byte ∷ []) fault) }
    {
        if is_white_space(byte) {
            self.read_space()
        } else {
            self.push(byte)?;
            Ok(false)
        }
    }

    /// Reads a byte of white space, and says whether the header ends before it.
    fn read_space(&mut self) -> Result<bool, DumpFault>
        requires { is_going self.old.progress ≡ true }
        ensures progress { IfOk result (λ last. is_going self.new.progress ≡ not last) }
        ensures open { OnOk result (is_at_end self.new.progress ≡ false) }
        ensures ok { OnOk result ((text : List ℕ) (space : ℕ) → is_space space ≡ true → HeaderStands self.old text → HeaderStands self.new (text ++ space ∷ [])) }
        ensures fault { IfErr result (λ fault. (text : List ℕ) (space : ℕ) → is_space space ≡ true → HeaderStands self.old text → IsFoundFault (text ++ space ∷ []) fault) }
    {
        // The header goes on only where the word is found to be no fault.
        self.progress = Progress::Done;
        let is_last = read_last(&mut self.sections, self.word.as_slice(), self.at)?;
        check_room(is_last, self.at)?;
        self.word.clear();
        self.progress = progress(is_last);
        self.at += 1;
        Ok(is_last)
    }

    /// Reads a byte of a word.
    fn push(&mut self, byte: u8) -> Result<(), DumpFault>
        requires { is_going self.old.progress ≡ true }
        ensures progress { OnOk result (is_going self.new.progress ≡ true) }
        ensures open { OnOk result (is_at_end self.new.progress ≡ false) }
        ensures ok { OnOk result ((text : List ℕ) → is_space byte ≡ false → HeaderStands self.old text → HeaderStands self.new (text ++ byte ∷ [])) }
        ensures fault { IfErr result (λ fault. (text : List ℕ) → is_space byte ≡ false → HeaderStands self.old text → IsFoundFault (text ++ byte ∷ []) fault) }
    {
        check_room(false, self.at)?;
        self.word.push(byte)?;
        self.at += 1;
        Ok(())
    }

    /// Ends the input, at which the header is to be whole.
    fn end(&mut self) -> Result<(), DumpFault>
        requires { is_going self.old.progress ≡ true }
        ensures progress { OnOk result (is_going self.new.progress ≡ false) }
        ensures ok { OnOk result ((text : List ℕ) → HeaderStands self.old text → HeaderStands self.new text) }
        ensures fault { IfErr result (λ fault. (text : List ℕ) → HeaderStands self.old text → IsFaultAtEnd text fault) }
    {
        self.progress = Progress::AtEnd;
        let is_last = read_last(&mut self.sections, self.word.as_slice(), self.at)?;
        if !is_last {
            return Err(DumpFault::at(DumpKind::Truncated, self.at));
        }
        Ok(())
    }
}

/// Whether a header goes on after its last word or not.
fn progress(is_last: bool) -> Progress
    ensures { result ≡ (if is_last then Progress.Done else Progress.Going) }
{
    if is_last {
        Progress::Done
    } else {
        Progress::Going
    }
}

/// Reads the word that ends here, if there is one, and says whether it is the last of the header.
fn read_last(sections: &mut Sections, word: &[u8], end: u64) -> Result<bool, DumpFault>
    requires long { length word.now ≤ end }
    requires few { length sections.old.declared.codes < 2 ^ 32 }
    ensures ok { IfOk result (λ last. last_word (reading_of sections.old) end word.now ≡ Ok (last, reading_of sections.new)) }
    ensures fault { IfErr result (IsFault (last_word (reading_of sections.old) end word.now)) }
{
    if word.is_empty() {
        return Ok(false);
    }
    sections.read(word, end - word.len() as u64)
}

/// A header that goes on has room for a byte more.
fn check_room(is_done: bool, at: u64) -> Result<(), DumpFault>
    ensures room { OnOk result (is_done ≡ false → at < 67108864) }
    ensures fault { IfErr result (λ fault. fault ≡ dump_fault.At DumpKind.HeaderTooLong 67108864) }
    ensures no_room { IfErr result (λ fault. (is_done ≡ false) × (67108864 ≤ at)) }
{
    if is_done || at < LONGEST {
        Ok(())
    } else {
        Err(DumpFault::at(DumpKind::HeaderTooLong, LONGEST))
    }
}
