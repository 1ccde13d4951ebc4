ghost use Rattle.std.specs.Prelude.{◌≡◌, [], ◌∷◌, IfSome, IfNone};
ghost use Rattle.command_line.specs.DatabaseFiles.{files_of, files_among};
ghost use Rattle.command_line.specs.WordsLeft.{left_words};

use crate::DatabaseOption;
use crate::words_left::WordsLeft;

/// The databases that are left among the words of a command. It borrows the words.
#[derive(Clone, Copy)]
pub struct DatabaseFiles<'a> {
    words: WordsLeft<'a>,
}

impl<'a> DatabaseFiles<'a> {
    /// The databases among the words that are left.
    pub(crate) fn new(words: WordsLeft<'a>) -> Self
        ensures { files_of result ≡ files_among (left_words words.entry) }
    {
        DatabaseFiles { words }
    }

    /// The next database.
    pub fn next_file(&mut self) -> Option<&'a str>
        ensures file { IfSome result (λ file. files_of self.old ≡ file.now ∷ files_of self.new) }
        ensures end { IfNone result ((files_of self.old ≡ []) × (files_of self.new ≡ [])) }
    {
        while let Some(word) = self.words.next_word() {
            match DatabaseOption::named(word) {
                None => return Some(word),
                Some(option) if option.takes_value() => {
                    let _ = self.words.next_word();
                }
                Some(_) => {}
            }
        }
        None
    }
}
