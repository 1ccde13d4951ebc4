ghost use Rattle.std.specs.Prelude.{◌≡◌, ◌<◌, ◌↔◌, ℕ, List, [], ◌∷◌, ◌++◌, length, map, ◌==◌, slice_get, string_bytes, IsSome, OnOk, OnErr};
ghost use Rattle.std.specs.Option.{option_copied};

use crate::NoMemory;
use std::alloc::Global;
use std::marker::Model;

/// The words of a command line in order, which contracts see as a list of texts.
pub struct Words {
    alloc: Global,
    words: Vec<String>,
}

// Written out so that a crate which lets one go does not prove again how each of its parts is let go.
impl Drop for Words {
    fn drop(self) {
        let Words { alloc: _, words: _ } = self;
    }
}

impl Model for Words {
    ghost Value = { List (List ℕ) };

    ghost view = { λ w. map string_bytes w.words.items };
}

impl Words {
    /// No words yet. It takes no memory.
    pub fn new(alloc: Global) -> Self
        ensures { result ≡ [] }
    {
        Words {
            alloc,
            words: Vec::new(alloc),
        }
    }

    /// How many words there are.
    pub fn len(&self) -> usize
        ensures { result ≡ length self.now }
    {
        self.words.len()
    }

    /// Whether there is no word.
    pub fn is_empty(&self) -> bool
        ensures { result ≡ (length self.now == 0) }
    {
        self.words.is_empty()
    }

    /// The word at a place, counted from 0.
    pub fn get(&self, place: usize) -> Option<&str>
        ensures value { option_copied result ≡ slice_get self.now place }
        ensures there { IsSome result ↔ (place < length self.now) }
    {
        let word = self.words.get(place)?;
        Some(word.as_str())
    }

    /// Adds a word at the end. After a refusal nothing has changed.
    pub fn push(&mut self, word: &str) -> Result<(), NoMemory>
        ensures ok { OnOk result (self.new ≡ self.old ++ word.now ∷ []) }
        ensures err { OnErr result (self.new ≡ self.old) }
    {
        let word = String::from_str(self.alloc, word)?;
        self.words.push(word)?;
        Ok(())
    }
}
