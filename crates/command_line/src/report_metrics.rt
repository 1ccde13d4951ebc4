ghost use Rattle.std.specs.Prelude.{◌≡◌, option_copied};
ghost use Rattle.std.specs.List.{list_all};
ghost use Rattle.command_line.specs.ReportMetrics.{has_letter, is_letter, is_letters, metrics_named, metrics_of, stand_once, stands_once};

/// The metrics that a report shows.
#[derive(Clone, Copy, PartialEq, Eq)]
pub struct ReportMetrics {
    /// Statements.
    pub line: bool,
    /// Cases of operators and conditions.
    pub logic: bool,
    /// Changes of bits.
    pub toggle: bool,
    /// States and arcs of state machines.
    pub fsm: bool,
    /// Words of memories.
    pub memory: bool,
}

impl ReportMetrics {
    /// The metrics whose letters are in the word: `l`, `t`, `c`, `f`, `m` for line, toggle, logic, fsm, memory.
    pub fn named(word: &str) -> Self
        ensures { result ≡ metrics_named word.now }
    {
        let letters = word.as_bytes();
        ReportMetrics {
            line: has_letter(letters, b'l'),
            logic: has_letter(letters, b'c'),
            toggle: has_letter(letters, b't'),
            fsm: has_letter(letters, b'f'),
            memory: has_letter(letters, b'm'),
        }
    }

    /// The metrics that were given, or else all but memory.
    pub(crate) fn given(word: Option<&str>) -> Self
        ensures { result ≡ metrics_of (option_copied word.entry) }
    {
        match word {
            None => ReportMetrics {
                line: true,
                logic: true,
                toggle: true,
                fsm: true,
                memory: false,
            },
            Some(word) => ReportMetrics::named(word),
        }
    }
}

/// Whether the letter is among the letters.
fn has_letter(letters: &[u8], letter: u8) -> bool
    ensures { result ≡ has_letter letters.now letter }
{
    letters.iter().any(|byte| *byte == letter)
}

/// Whether the word is letters of metrics: not empty, and each letter at most once.
pub(crate) fn is_letters(word: &str) -> bool
    ensures { result ≡ is_letters word.now }
{
    let letters = word.as_bytes();
    !letters.is_empty() && are_metrics(letters) && stand_once(letters)
}

/// Whether each is the letter of a metric.
fn are_metrics(letters: &[u8]) -> bool
    ensures { result ≡ list_all is_letter letters.now }
{
    letters.iter().all(|letter| is_letter(*letter))
}

/// Whether the byte is the letter of a metric.
fn is_letter(byte: u8) -> bool
    ensures { result ≡ is_letter byte }
{
    matches!(byte, b'l' | b'c' | b't' | b'f' | b'm')
}

/// Whether each letter of a metric occurs at most once.
fn stand_once(letters: &[u8]) -> bool
    ensures { result ≡ stand_once letters.now }
{
    stands_once(letters, b'l')
        && stands_once(letters, b'c')
        && stands_once(letters, b't')
        && stands_once(letters, b'f')
        && stands_once(letters, b'm')
}

/// Whether the letter occurs at most once among the letters.
fn stands_once(letters: &[u8], letter: u8) -> bool
    ensures { result ≡ stands_once letters.now letter }
{
    letters.iter().filter(|byte| **byte == letter).count() <= 1
}
