ghost use Rattle.std.specs.Prelude.{◌≡◌, ℕ, List, [], ◌∷◌, ◌++◌, ◌+◌, ◌*◌, ◌^◌, ◌≤◌, min};
ghost use Rattle.vcd_reader.specs.Holding.{IsTimeDigits};

/// The least number that is no time.
pub(crate) const TOO_LARGE: u64 = 1 << 63;

/// The digits of a time that were read so far.
#[derive(Clone, Copy)]
pub(crate) struct TimeDigits {
    /// Their number, or 2^63 where it is greater.
    pub(crate) value: u64,
    /// Whether there is a digit.
    pub(crate) is_some: bool,
    /// Whether each byte was a decimal digit.
    pub(crate) is_decimal: bool,
}

impl TimeDigits {
    /// No digits yet.
    pub(crate) const NONE: TimeDigits = TimeDigits {
        value: 0,
        is_some: false,
        is_decimal: true,
    };

    /// The digits of a word after its `#`.
    pub(crate) fn of(word: &[u8]) -> Self
        ensures { IsTimeDigits result word.now }
    {
        let mut digits = TimeDigits::NONE;
        for byte in word {
            digits = digits.with_byte(*byte);
        }
        digits
    }

    /// The digits with one byte more.
    pub(crate) fn with_byte(self, byte: u8) -> Self
        ensures { (word : List ℕ) → IsTimeDigits self word → IsTimeDigits result (word ++ byte ∷ []) }
    {
        match char::from(byte).to_digit(10) {
            Some(digit) => TimeDigits {
                value: with_digit(self.value, digit),
                is_some: true,
                is_decimal: self.is_decimal,
            },
            None => TimeDigits {
                value: self.value,
                is_some: true,
                is_decimal: false,
            },
        }
    }
}

/// The number with one digit more, or 2^63 where that is greater.
fn with_digit(value: u64, digit: u32) -> u64
    ensures { digit ≤ 9 → result ≡ min (value * 10 + digit) (2 ^ 63) }
{
    if value > TOO_LARGE / 10 {
        TOO_LARGE
    } else {
        (value * 10 + u64::from(digit)).min(TOO_LARGE)
    }
}
