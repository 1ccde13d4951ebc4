ghost use Rattle.std.specs.Prelude.{◌≡◌};
ghost use Rattle.std.specs.List.{after_first, before_first, list_any};
ghost use Rattle.cov_host.specs.Identifier.{is_identifier};
ghost use Rattle.command_line.specs.Define.{is_equals};
ghost use Rattle.command_line.specs.ValueForm.{is_white_space, is_path_part, is_instance_path, is_control, is_file_name};
ghost use Rattle.command_line.specs.DatabaseOption.{is_database_name};

/// Whether the value names a module: an identifier (IEEE 1364-2001 clause 2.7) of at most 255 bytes, no keyword.
pub fn is_module_name(value: &str) -> bool
    ensures { result ≡ is_identifier value.now }
{
    cov_host::is_identifier(value.as_bytes())
}

/// Whether the value is the path of an instance in a dump: parts that are not empty, joined by dots,
/// without white space.
pub fn is_instance_path(value: &str) -> bool
    ensures { result ≡ is_instance_path value.now }
{
    value
        .as_bytes()
        .split(|byte| *byte == b'.')
        .all(is_path_part)
}

/// Whether the bytes are one part of an instance's path.
fn is_path_part(part: &[u8]) -> bool
    ensures { result ≡ is_path_part part.now }
{
    !part.is_empty() && !has_white_space(part)
}

/// Whether one of the bytes is white space.
fn has_white_space(bytes: &[u8]) -> bool
    ensures { result ≡ list_any is_white_space bytes.now }
{
    bytes.iter().any(|byte| is_white_space(*byte))
}

/// Whether the byte is a space, a tab, a line feed, a vertical tab, a form feed or a carriage return.
fn is_white_space(byte: u8) -> bool
    ensures { result ≡ is_white_space byte }
{
    matches!(byte, b' ' | b'\t'..=b'\r')
}

/// Whether the value names a file: not empty, and no byte below 32.
pub fn is_file_name(value: &str) -> bool
    ensures { result ≡ is_file_name value.now }
{
    !value.is_empty() && !has_control_byte(value.as_bytes())
}

/// Whether one of the bytes is below 32.
fn has_control_byte(bytes: &[u8]) -> bool
    ensures { result ≡ list_any is_control bytes.now }
{
    bytes.iter().any(|byte| *byte < 32)
}

/// Whether the word can name a database: it names a file and does not begin as an option does.
pub(crate) fn is_database_name(word: &str) -> bool
    ensures { result ≡ is_database_name word.now }
{
    !word.starts_with('-') && is_file_name(word)
}

/// What is before the first `=`, and what is after it.
pub(crate) fn cut_at_equals(value: &str) -> (&str, &str)
    ensures before { result.0.now ≡ before_first is_equals value.now }
    ensures after { result.1.now ≡ after_first is_equals value.now }
{
    match value.split_once('=') {
        Some(parts) => parts,
        None => (value, ""),
    }
}
