ghost use Rattle.std.specs.Prelude.{◌≡◌};
ghost use Rattle.std.specs.Char.{is_ascii_digit};
ghost use Rattle.std.specs.List.{list_all};
ghost use Rattle.coverage_db.specs.Fields.{field_at, fields_of, is_plain, number_at, number_of};
ghost use Rattle.coverage_db.specs.Reading.{index_at};
ghost use Rattle.point_lookup.specs.Views.{Took};

use crate::split::split_first;
use cov_host::read_decimal;
use std::marker::Model;

/// The greatest number of 32 bits.
const GREATEST: u64 = 4_294_967_295;

/// The fields of a text that are left, which contracts see as a list of texts.
#[derive(Drop)]
pub(crate) struct Fields<'a> {
    /// What is left of the text. None after its last field.
    rest: Option<&'a [u8]>,
}

impl<'a> Model for Fields<'a> {
    ghost use Rattle.std.specs.Prelude.{List, ℕ};
    ghost use Rattle.coverage_db.specs.Views.{fields_left};

    ghost Value = { List (List ℕ) };

    ghost view = { λ fields. fields_left fields.rest };
}

impl<'a> Fields<'a> {
    /// All fields of a text.
    pub(crate) fn new(text: &'a [u8]) -> Self
        ensures { result ≡ fields_of text.now }
    {
        Fields { rest: Some(text) }
    }

    /// Takes the next field.
    pub(crate) fn next_field(&mut self) -> Option<&'a [u8]>
        ensures { Took (λ field. field.now) result self.new (field_at self.old) }
    {
        let Some(rest) = self.rest else {
            return None;
        };
        match split_first(rest, b' ') {
            Some((field, others)) => {
                self.rest = Some(others);
                Some(field)
            }
            None => {
                self.rest = None;
                Some(rest)
            }
        }
    }

    /// Takes a number of 32 bits.
    pub(crate) fn number(&mut self) -> Option<u32>
        ensures { Took (λ number. number) result self.new (number_at 0 4294967295 self.old) }
    {
        read_number(self.next_field()?)
    }

    /// Takes an index as declared, or `-`.
    #[tactic(auto, unfolding(coverage_db::specs::Reading::index_at))]
    pub(crate) fn index(&mut self) -> Option<Option<u32>>
        ensures { Took (λ index. index) result self.new (index_at self.old) }
    {
        let field = self.next_field()?;
        if field == b"-".as_slice() {
            return Some(None);
        }
        Some(Some(read_number(field)?))
    }
}

/// The number that a field writes.
fn read_number(word: &[u8]) -> Option<u32>
    ensures { result ≡ number_of 0 4294967295 word.now }
{
    if !is_plain(word) {
        return None;
    }
    match read_decimal(word, GREATEST) {
        Some(number) => Some(number as u32),
        None => None,
    }
}

/// Whether the word is of decimal digits without leading zeros.
pub fn is_plain(word: &[u8]) -> bool
    ensures { result ≡ is_plain word.now }
{
    match word {
        [] => false,
        [first, others @ ..] => all_digits(word) && (*first != b'0' || others.is_empty()),
    }
}

/// Whether all bytes are decimal digits.
fn all_digits(word: &[u8]) -> bool
    ensures { result ≡ list_all is_ascii_digit word.now }
{
    word.iter().all(|byte| byte.is_ascii_digit())
}
