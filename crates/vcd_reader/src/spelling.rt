ghost use Rattle.std.specs.Prelude.{◌≡◌, ◌<◌, ◌≤◌, ℕ, List, [], ◌∷◌, ◌++◌, length, MatchOption, slice_get, Some};

/// The longest word of which all bytes are kept.
const LONGEST: usize = 9;

/// The bytes of a word so far, all of them where they are at most nine.
#[derive(Clone, Copy)]
pub(crate) struct Spelling {
    pub(crate) bytes: [u8; 9],
    /// How many bytes are kept.
    pub(crate) len: usize,
    /// Whether there are more than are kept.
    pub(crate) is_long: bool,
    ghost within: { len ≤ 9 },
}

impl Spelling {
    ghost use Rattle.vcd_reader.specs.Holding.{IsSpelling};

    /// No bytes yet.
    pub(crate) fn new() -> Self
        ensures { IsSpelling result [] }
    {
        Spelling {
            bytes: [0; 9],
            len: 0,
            is_long: false,
        }
    }

    /// The bytes with one more.
    pub(crate) fn push(&mut self, byte: u8)
        ensures { (word : List ℕ) → IsSpelling self.old word → IsSpelling self.new (word ++ byte ∷ []) }
    {
        if self.len < LONGEST {
            self.bytes[self.len] = byte;
            self.len += 1;
        } else {
            self.is_long = true;
        }
    }

    /// All bytes, where they are at most nine.
    pub(crate) fn bytes(&self) -> Option<&[u8]>
        ensures { (word : List ℕ) → IsSpelling self.now word → MatchOption result (9 < length word) (λ bytes. bytes.now ≡ word) }
    {
        if self.is_long {
            return None;
        }
        let (bytes, _) = self.bytes.as_slice().split_at(self.len);
        Some(bytes)
    }

    /// The first byte, if there is one.
    pub(crate) fn first(&self) -> u8
        ensures { (byte : ℕ) (word : List ℕ) → IsSpelling self.now (byte ∷ word) → result ≡ byte }
    {
        self.bytes[0]
    }
}
