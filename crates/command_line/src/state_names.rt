ghost use Rattle.std.specs.Prelude.{◌≡◌, [], ◌∷◌, IfNone, IfSome, length};
ghost use Rattle.std.specs.List.{list_all};
ghost use Rattle.std.specs.Option.{option_copied};
ghost use Rattle.cov_host.specs.Identifier.{is_identifier};
ghost use Rattle.command_line.specs.MachineWords.{are_counted, are_state_names, names_in, names_left, names_of_rest};

/// The states of a machine that are left in a text, with commas between them. It borrows the text.
#[derive(Clone, Copy)]
pub struct StateNames<'a> {
    rest: Option<&'a str>,
}

impl<'a> StateNames<'a> {
    /// The states of a text.
    pub(crate) fn new(text: &'a str) -> Self
        ensures { names_left result ≡ names_in text.now }
    {
        StateNames { rest: Some(text) }
    }

    /// The next state.
    pub fn next_name(&mut self) -> Option<&'a str>
        ensures name { IfSome result (λ name. names_left self.old ≡ name.now ∷ names_left self.new) }
        ensures end { IfNone result ((names_left self.old ≡ []) × (names_left self.new ≡ [])) }
    {
        let (name, rest) = cut_at_comma(self.rest?);
        self.rest = rest;
        Some(name)
    }
}

/// The first of the names, and those after it, if there are any.
fn cut_at_comma(text: &str) -> (&str, Option<&str>)
    ensures { names_in text.now ≡ result.0.now ∷ names_of_rest (option_copied result.1) }
{
    match text.split_once(',') {
        Some((name, rest)) => (name, Some(rest)),
        None => (text, None),
    }
}

/// Whether the text is 2 to 64 identifiers with commas between them.
pub(crate) fn are_state_names(text: &str) -> bool
    ensures { result ≡ are_state_names text.now }
{
    has_state_count(text.as_bytes()) && are_identifiers(text.as_bytes())
}

/// Whether the bytes are 2 to 64 names with commas between them.
fn has_state_count(bytes: &[u8]) -> bool
    ensures { result ≡ are_counted (names_in bytes.now) }
{
    let count = name_count(bytes);
    2 <= count && count <= 64
}

/// How many names the bytes are.
fn name_count(bytes: &[u8]) -> usize
    ensures { result ≡ length (names_in bytes.now) }
{
    bytes.split(|byte| *byte == b',').count()
}

/// Whether each of the names in the bytes is an identifier.
fn are_identifiers(bytes: &[u8]) -> bool
    ensures { result ≡ list_all is_identifier (names_in bytes.now) }
{
    bytes.split(|byte| *byte == b',').all(is_name)
}

/// Whether the bytes are an identifier.
fn is_name(bytes: &[u8]) -> bool
    ensures { result ≡ is_identifier bytes.now }
{
    cov_host::is_identifier(bytes)
}
