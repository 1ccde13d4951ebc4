ghost use Rattle.std.specs.Prelude.{◌≡◌, nat_le, option_map};
ghost use Rattle.std.specs.List.{list_all};
ghost use Rattle.coverage_db.specs.Drafting.{is_version, version_of, top_of, source_of, instance_at, count_of};
ghost use Rattle.coverage_db.specs.Text.{begins_point};
ghost use Rattle.coverage_db.specs.Table.{is_path, is_file_name};
ghost use Rattle.coverage_db.specs.Views.{instance_of_parts};

use crate::Version;
use crate::number::is_plain;
use crate::split::{behind, split_first};
use cov_host::is_identifier;
use itoa::Buffer;

/// The version that the line names, where it is one that is read.
#[tactic(auto, unfolding(crate::specs::Drafting::version_of))]
pub(crate) fn version_of(line: &[u8]) -> Option<Version>
    ensures { result ≡ version_of line.now }
{
    if line == b"covered-db 2".as_slice() {
        Some(Version::Two)
    } else if line == b"covered-db 1".as_slice() {
        Some(Version::One)
    } else {
        None
    }
}

/// Whether the line is that of a version.
pub(crate) fn is_version(line: &[u8]) -> bool
    ensures { result ≡ is_version line.now }
{
    match behind(line, b"covered-db ") {
        Some(digits) => is_plain(digits),
        None => false,
    }
}

/// The name of the top module.
#[tactic(auto, unfolding(crate::specs::Drafting::top_of))]
pub(crate) fn top_of(line: &[u8]) -> Option<&[u8]>
    ensures { option_map (λ top. top.now) result ≡ top_of line.now }
{
    let top = behind(line, b"top ")?;
    if is_identifier(top) { Some(top) } else { None }
}

/// The name of the source with this number.
#[tactic(auto, unfolding(crate::specs::Drafting::source_of))]
pub(crate) fn source_of(line: &[u8], number: usize) -> Option<&[u8]>
    ensures { option_map (λ name. name.now) result ≡ source_of number line.now }
{
    let numbered = behind(line, b"source ")?;
    let spaced = behind(numbered, Buffer::new().format(number).as_bytes())?;
    let name = behind(spaced, b" ")?;
    if is_file_name(name) { Some(name) } else { None }
}

/// The path and the module of an instance.
#[tactic(auto, unfolding(crate::specs::Drafting::instance_at))]
pub(crate) fn instance_at(line: &[u8]) -> Option<(&[u8], &[u8])>
    ensures { option_map instance_of_parts result ≡ instance_at line.now }
{
    let fields = behind(line, b"instance ")?;
    let (path, module) = split_first(fields, b' ')?;
    if is_path(path) && is_identifier(module) {
        Some((path, module))
    } else {
        None
    }
}

/// The digits of the number of points.
#[tactic(auto, unfolding(crate::specs::Drafting::count_of))]
pub(crate) fn count_of(line: &[u8]) -> Option<&[u8]>
    ensures { option_map (λ digits. digits.now) result ≡ count_of line.now }
{
    let digits = behind(line, b"points ")?;
    if is_plain(digits) { Some(digits) } else { None }
}

/// Whether the line begins with the letter of a point and a space.
pub(crate) fn begins_point(line: &[u8]) -> bool
    ensures { result ≡ begins_point line.now }
{
    match line {
        [letter, space, ..] => {
            matches!(*letter, b'l' | b'c' | b't' | b'f' | b'm') && *space == b' '
        }
        _ => false,
    }
}

/// Whether the text is of identifiers with dots between them.
fn is_path(text: &[u8]) -> bool
    ensures { result ≡ is_path text.now }
{
    let mut rest = text;
    while let Some((part, after)) = split_first(rest, b'.') {
        if !is_identifier(part) {
            return false;
        }
        rest = after;
    }
    is_identifier(rest)
}

/// Whether the text can name a file: it is not empty and has no control character.
fn is_file_name(text: &[u8]) -> bool
    ensures { result ≡ is_file_name text.now }
{
    !text.is_empty() && has_no_control(text)
}

/// Whether all bytes are spaces or greater.
fn has_no_control(text: &[u8]) -> bool
    ensures { result ≡ list_all (λ byte. nat_le 32 byte) text.now }
{
    text.iter().all(|byte| *byte >= b' ')
}
