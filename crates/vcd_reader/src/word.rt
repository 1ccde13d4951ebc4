ghost use Rattle.std.specs.Prelude.{◌≡◌, ◌<◌, ℕ, Bool, List, [], ◌∷◌, ◌++◌, length};
ghost use Rattle.vcd_reader.specs.Body.{is_marker};

use crate::digits::Digits;
use crate::spelling::Spelling;
use crate::time_digits::TimeDigits;

/// What is kept of a word of the body that may go on.
#[derive(Clone, Copy)]
pub(crate) enum Word {
    /// No word.
    None,
    /// `#` and the digits of a time.
    Time(TimeDigits),
    /// `b` or `B` and the digits of a value.
    Digits(Digits),
    /// Any other word.
    Other(Spelling),
}

impl Word {
    ghost use Rattle.vcd_reader.specs.Holding.{IsWord};

    /// The word of one byte. Where a change or a comment has begun, a word is only its bytes.
    fn begin(byte: u8, has_begun: bool) -> Word
        ensures { IsWord result has_begun (byte ∷ []) }
    {
        if has_begun || !is_marker(byte) {
            let mut spelling = Spelling::new();
            spelling.push(byte);
            Word::Other(spelling)
        } else if byte == b'#' {
            Word::Time(TimeDigits::NONE)
        } else {
            Word::Digits(Digits::new())
        }
    }

    /// Adds a byte, with which the word begins where there is no word yet.
    pub(crate) fn push(&mut self, byte: u8, has_begun: bool)
        ensures { (bytes : List ℕ) → IsWord self.old has_begun bytes → IsWord self.new has_begun (bytes ++ byte ∷ []) }
    {
        match self {
            Word::None => *self = Word::begin(byte, has_begun),
            Word::Time(digits) => *digits = digits.with_byte(byte),
            Word::Digits(digits) => *digits = digits.with_byte(byte),
            Word::Other(spelling) => spelling.push(byte),
        }
    }

    /// The byte at which the word begins: this one where there is no word yet.
    pub(crate) fn start(&self, word_at: u64, here: u64) -> u64
        ensures none { (has_begun : Bool) (bytes : List ℕ) → IsWord self.now has_begun bytes → length bytes ≡ 0 → result ≡ here }
        ensures some { (has_begun : Bool) (bytes : List ℕ) → IsWord self.now has_begun bytes → 0 < length bytes → result ≡ word_at }
    {
        match self {
            Word::None => here,
            Word::Time(_) | Word::Digits(_) | Word::Other(_) => word_at,
        }
    }
}

/// Whether a time or the digits of a value begin so.
fn is_marker(byte: u8) -> bool
    ensures { result ≡ is_marker byte }
{
    matches!(byte, b'#' | b'b' | b'B')
}
