ghost use Rattle.std.specs.Prelude.{◌≡◌, ◌<◌, [], IfOk, length, slice_index_or};

use cov_host::{Name, NoMemory, Words};
use std::alloc::Global;

/// The words as names.
pub(crate) fn names_of(alloc: Global, words: &Words) -> Result<Vec<Name>, NoMemory>
    ensures { IfOk result (λ names. names.items ≡ words.now) }
{
    let mut names = Vec::new(alloc);
    for place in 0..words.len() {
        names.push(name_at(alloc, words, place)?)?;
    }
    Ok(names)
}

/// The word at a place as a name.
fn name_at(alloc: Global, words: &Words, place: usize) -> Result<Name, NoMemory>
    requires { place < length words.now }
    ensures { IfOk result (λ name. name ≡ slice_index_or words.now place []) }
{
    match words.get(place) {
        Some(word) => name_of(alloc, word),
        None => unreachable!(),
    }
}

/// The word as a name.
pub(crate) fn name_of(alloc: Global, word: &str) -> Result<Name, NoMemory>
    ensures { IfOk result (λ name. name ≡ word.now) }
{
    Ok(Name::from_vec(Vec::from_slice(alloc, word.as_bytes())?))
}
