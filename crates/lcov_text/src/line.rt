ghost use Rattle.std.specs.Prelude.{◌≡◌, ◌∷◌, ◌++◌, decimal, OnOk};
ghost use Rattle.coverage_db.specs.Text.{ended};

use cov_host::{NoMemory, Text};
use itoa::{Buffer, Integer};

/// Appends a line that is a keyword with a text.
pub(crate) fn push_word(text: &mut Text, keyword: &[u8], word: &[u8]) -> Result<(), NoMemory>
    ensures { OnOk result (text.new ≡ text.old ++ ended (keyword.now ++ word.now)) }
{
    text.extend_from_slice(keyword)?;
    text.extend_from_slice(word)?;
    text.push(b'\n')
}

/// Appends a line that is a keyword with a number.
pub(crate) fn push_count(text: &mut Text, keyword: &[u8], count: usize) -> Result<(), NoMemory>
    ensures { OnOk result (text.new ≡ text.old ++ ended (keyword.now ++ decimal count)) }
{
    push_word(text, keyword, Buffer::new().format(count).as_bytes())
}

/// Appends a number in decimal.
pub(crate) fn push_number<I: Integer + Drop>(text: &mut Text, number: I) -> Result<(), NoMemory>
    ensures { OnOk result (text.new ≡ text.old ++ I.text number) }
{
    text.extend_from_slice(Buffer::new().format(number).as_bytes())
}

/// Appends a comma and a number in decimal.
pub(crate) fn push_next_number<I: Integer + Drop>(
    text: &mut Text,
    number: I,
) -> Result<(), NoMemory>
    ensures { OnOk result (text.new ≡ text.old ++ 44 ∷ I.text number) }
{
    text.push(b',')?;
    push_number(text, number)
}
