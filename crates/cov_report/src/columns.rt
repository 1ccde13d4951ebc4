ghost use Rattle.std.specs.Prelude.{◌≡◌, ℕ, ◌+◌, ◌*◌, ◌<◌, ◌≤◌, ◌^◌, ◌++◌, length, decimal, replicate, OnOk};
ghost use Rattle.cov_report.specs.Report.{at_left, at_right, percentage, counts_line};

use crate::counts::Counts;
use cov_host::{NoMemory, Text};
use itoa::Buffer;

/// The spaces of an empty column.
const SPACES: &[u8; 8] = b"        ";

/// Appends the line of the counts under a name, without its line feed.
pub(crate) fn push_counts(text: &mut Text, name: &str, counts: Counts) -> Result<(), NoMemory>
    requires hit { counts.hit < 2 ^ 32 }
    requires missed { counts.missed < 2 ^ 32 }
    requires undetermined { counts.undetermined < 2 ^ 32 }
    ensures { OnOk result (text.new ≡ text.old ++ counts_line name.now counts.hit counts.missed counts.undetermined) }
{
    push_left(text, 8, name.as_bytes())?;
    push_number(text, counts.hit)?;
    push_number(text, counts.missed)?;
    push_number(text, counts.undetermined)?;
    push_percentage(
        text,
        counts.hit,
        counts.hit + counts.missed + counts.undetermined,
    )?;
    text.push(b'%')
}

/// Appends a count at the right of 8 places.
fn push_number(text: &mut Text, count: usize) -> Result<(), NoMemory>
    ensures { OnOk result (text.new ≡ text.old ++ at_right 8 (decimal count)) }
{
    push_right(text, 8, Buffer::new().format(count).as_bytes())
}

/// Appends the percentage that is hit at the right of 5 places.
fn push_percentage(text: &mut Text, hit: usize, all: usize) -> Result<(), NoMemory>
    requires { hit < 2 ^ 32 }
    ensures { OnOk result (text.new ≡ text.old ++ at_right 5 (percentage hit all)) }
{
    if all == 0 {
        return push_right(text, 5, b"-");
    }
    push_right(text, 5, Buffer::new().format(hit * 100 / all).as_bytes())
}

/// Appends a word at the left of this number of places, at most 8.
fn push_left(text: &mut Text, places: usize, word: &[u8]) -> Result<(), NoMemory>
    requires { places ≤ 8 }
    ensures { OnOk result (text.new ≡ text.old ++ at_left places word.now) }
{
    text.extend_from_slice(word)?;
    push_spaces(text, places.saturating_sub(word.len()))
}

/// Appends a word at the right of this number of places, at most 8.
fn push_right(text: &mut Text, places: usize, word: &[u8]) -> Result<(), NoMemory>
    requires { places ≤ 8 }
    ensures { OnOk result (text.new ≡ text.old ++ at_right places word.now) }
{
    push_spaces(text, places.saturating_sub(word.len()))?;
    text.extend_from_slice(word)
}

/// Appends this number of spaces, at most 8.
fn push_spaces(text: &mut Text, count: usize) -> Result<(), NoMemory>
    requires { count ≤ 8 }
    ensures { OnOk result (text.new ≡ text.old ++ replicate count 32) }
{
    text.extend_from_slice(&SPACES[..count])
}
