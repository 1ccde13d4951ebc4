ghost use Rattle.std.specs.Prelude.{◌≡◌, [], ◌∷◌, IfSome, IfNone};
ghost use Rattle.command_line.specs.WordsLeft.{left_words};

use cov_host::Words;

/// The words of a command line that are left to be read.
#[derive(Clone, Copy)]
pub(crate) struct WordsLeft<'a> {
    words: &'a Words,
    place: usize,
}

impl<'a> WordsLeft<'a> {
    /// All words.
    pub(crate) fn new(words: &'a Words) -> Self
        ensures { left_words result ≡ words.now }
    {
        WordsLeft { words, place: 0 }
    }

    /// The next word.
    pub(crate) fn next_word(&mut self) -> Option<&'a str>
        ensures word { IfSome result (λ word. left_words self.old ≡ word.now ∷ left_words self.new) }
        ensures end { IfNone result ((left_words self.old ≡ []) × (left_words self.new ≡ [])) }
    {
        if self.place >= self.words.len() {
            return None;
        }
        let word = self.words.get(self.place);
        self.place += 1;
        word
    }
}
