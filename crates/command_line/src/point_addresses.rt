ghost use Rattle.std.specs.Prelude.{◌≡◌, [], ◌∷◌, IfSome, IfNone};
ghost use Rattle.command_line.specs.PointAddresses.{addresses_among, addresses_of};
ghost use Rattle.command_line.specs.WordsLeft.{left_words};

use crate::DatabaseOption;
use crate::words_left::WordsLeft;

/// The addresses of points that are left among the words of a command. It borrows the words.
#[derive(Clone, Copy)]
pub struct PointAddresses<'a> {
    words: WordsLeft<'a>,
}

impl<'a> PointAddresses<'a> {
    /// The addresses among the words that are left.
    pub(crate) fn new(words: WordsLeft<'a>) -> Self
        ensures { addresses_of result ≡ addresses_among (left_words words.entry) }
    {
        PointAddresses { words }
    }

    /// The next address.
    pub fn next_address(&mut self) -> Option<&'a str>
        ensures address { IfSome result (λ address. addresses_of self.old ≡ address.now ∷ addresses_of self.new) }
        ensures end { IfNone result ((addresses_of self.old ≡ []) × (addresses_of self.new ≡ [])) }
    {
        while let Some(word) = self.words.next_word() {
            let Some(option) = DatabaseOption::named(word) else {
                continue;
            };
            if option == DatabaseOption::Point {
                return self.words.next_word();
            }
            if option.takes_value() {
                let _ = self.words.next_word();
            }
        }
        None
    }
}
