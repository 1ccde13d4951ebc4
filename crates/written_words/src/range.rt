ghost use Rattle.std.specs.Prelude.{◌≡◌, ◌+◌, ◌<◌, ◌≤◌, ℕ, Some, None, MatchOption, if◌then◌else◌, false, true};
ghost use Rattle.written_words.specs.Written.{in_range, range_of, no_range};

use design_model::Memory;

/// The words of a memory that are followed.
#[derive(Clone, Copy)]
pub struct WordRange {
    /// The least index of a word.
    pub least: u32,
    /// How many words are followed.
    pub count: usize,
}

impl WordRange {
    /// The place of the word with this index, counted from the least one, if it is followed.
    pub(crate) fn place_of(&self, index: u32) -> Option<usize>
        ensures { MatchOption result (in_range self.now index ≡ false) (λ place. (in_range self.now index ≡ true) × (index ≡ self.now.least + place)) }
    {
        let place = index.checked_sub(self.least)? as usize;
        if place < self.count {
            Some(place)
        } else {
            None
        }
    }
}

/// The words of this memory, or none where it is not followed.
pub fn followed_range(memory: &Memory, is_followed: bool) -> WordRange
    ensures value { result ≡ (if is_followed then range_of memory.now else no_range) }
    ensures small { result.least + result.count ≤ 4294967296 }
{
    if !is_followed {
        return WordRange { least: 0, count: 0 };
    }
    let least = memory.first.min(memory.last);
    let count = (memory.first.max(memory.last) - least) as usize + 1;
    WordRange { least, count }
}
