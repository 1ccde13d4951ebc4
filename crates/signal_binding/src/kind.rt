ghost use Rattle.std.specs.Prelude.{◌≡◌, not};
ghost use Rattle.std.specs.List.{list_any};
ghost use Rattle.std.specs.Str.{bytes_eq};
ghost use Rattle.signal_binding.specs.Kinds.{holds_value, unread_kinds};

/// The kinds of variables that hold no value of a signal (IEEE 1364-2001 clause 18.2.3.8, and `string`, which some
/// simulators write).
const UNREAD_KINDS: [&str; 5] = ["real", "realtime", "event", "string", "parameter"];

/// Whether the kind is one that holds a value of a signal.
pub(crate) fn holds_value(kind: &[u8]) -> bool
    ensures { result ≡ holds_value kind.now }
{
    !is_among(&UNREAD_KINDS, kind)
}

/// Whether the word is one of the texts.
fn is_among(texts: &[&str], word: &[u8]) -> bool
    ensures { result ≡ list_any (λ text. bytes_eq text.now word.now) texts.now }
{
    texts.iter().any(|text| text.as_bytes() == word)
}
