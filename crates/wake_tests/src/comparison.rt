//! A text that is said piece by piece, and compared with the expected one.

/// An expected text, of which the pieces are said one after the other.
#[derive(Drop)]
pub(crate) struct Comparison<'a> {
    /// What is expected after the pieces so far.
    rest: &'a [u8],
    /// Whether each piece so far was expected.
    same: bool,
}

impl<'a> Comparison<'a> {
    /// A comparison with this text, of which nothing is said yet.
    pub(crate) fn with(expected: &'a str) -> Comparison<'a> {
        Comparison {
            rest: expected.as_bytes(),
            same: true,
        }
    }

    /// Says the next piece.
    pub(crate) fn say(&mut self, piece: &[u8]) {
        match self.rest.strip_prefix(piece) {
            Some(rest) => self.rest = rest,
            None => self.same = false,
        }
    }

    /// Says a number.
    pub(crate) fn say_number(&mut self, number: u128) {
        self.say(itoa::Buffer::new().format(number).as_bytes());
    }

    /// Whether the pieces are the whole text.
    pub(crate) fn holds(&self) -> bool {
        self.same && self.rest.is_empty()
    }
}
