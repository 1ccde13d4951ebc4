//! The lines of an excluded text before the text of its table.
ghost use Rattle.std.specs.Prelude.{◌≡◌, ◌≤◌, ◌+◌, bytes_eq, codes, decimal, length, IfErr, IfOk, OnOk, List, Some, ℕ};
ghost use Rattle.coverage_db.specs.Text.{begins_point};
ghost use Rattle.coverage_db.specs.declared.fault.DbFault.TheVariants.{At};
ghost use Rattle.coverage_db.specs.declared.fault.DbKind.TheVariants.{BadLine};
ghost use Rattle.db_tools.specs.Faults.{BeginsNewest, HasLine, IsHeadFault, IsOpenFault, Opens, Splits, is_count};
ghost use Rattle.db_tools.specs.Reading.{address_parts, count_parts, version_parts};
ghost use Rattle.db_tools.specs.Views.{texts, two_parts};

use cov_host::NoMemory;
use coverage_db::{DbFault, DbKind};
use itoa::Buffer;
use point_lookup::{behind, is_plain, split_first};
use std::alloc::Global;

/// The lines of addresses, and what is after them.
#[derive(Drop)]
pub(crate) struct Head<'a> {
    /// The lines that begin as that of a point does, without their line feeds.
    pub(crate) lines: Vec<&'a [u8]>,
    /// What is after them.
    pub(crate) inner: &'a [u8],
}

/// The digits of the version of an excluded text, and what is after its first line.
#[tactic(auto, unfolding(crate::specs::Reading::version_parts))]
pub(crate) fn version_of(text: &[u8]) -> Option<(&[u8], &[u8])>
    ensures { two_parts result ≡ version_parts text.now }
{
    let (line, rest) = split_first(text, b'\n')?;
    let digits = behind(line, b"covered-ex ")?;
    if is_plain(digits) {
        Some((digits, rest))
    } else {
        None
    }
}

/// The addresses of an excluded text, of which this is after its first line. What is after them begins as the text of
/// a table of the newest version.
pub(crate) fn read_head(alloc: Global, rest: &[u8]) -> Result<Head<'_>, DbFault>
    requires { length rest.now ≤ 2147483648 }
    ensures opens { IfOk result (λ head. (text : List ℕ) → HasLine text (codes "covered-ex 1") rest.now → Opens text (decimal (length (texts head.lines.items))) (texts head.lines.items) head.inner.now) }
    ensures newest { IfOk result (λ head. BeginsNewest head.inner.now) }
    ensures short { IfOk result (λ head. length head.lines.items + length head.inner.now ≤ 2147483648) }
    ensures fault { IfErr result (λ fault. (text : List ℕ) → HasLine text (codes "covered-ex 1") rest.now → IsOpenFault text fault) }
{
    let Some((digits, after)) = count_of(rest) else {
        return Err(bad_line(2));
    };
    let head = split_addresses(alloc, after)?;
    check_head(&head, digits)?;
    Ok(head)
}

/// The digits of the number of addresses, which is not 0, and what is after the line.
#[tactic(auto, unfolding(crate::specs::Reading::count_parts))]
fn count_of(text: &[u8]) -> Option<(&[u8], &[u8])>
    ensures { two_parts result ≡ count_parts text.now }
{
    let (line, rest) = split_first(text, b'\n')?;
    let digits = behind(line, b"excluded ")?;
    if is_count(digits) {
        Some((digits, rest))
    } else {
        None
    }
}

/// Whether the word is a number that is not 0.
fn is_count(digits: &[u8]) -> bool
    ensures { result ≡ is_count digits.now }
{
    is_plain(digits) && digits != b"0".as_slice()
}

/// Splits the lines of addresses off a text.
fn split_addresses(alloc: Global, text: &[u8]) -> Result<Head<'_>, NoMemory>
    ensures { IfOk result (λ head. Splits text.now (texts head.lines.items) head.inner.now) }
{
    let mut lines = Vec::new(alloc);
    let mut rest = text;
    while let Some((line, after)) = next_address(rest) {
        lines.push(line)?;
        rest = after;
    }
    Ok(Head { lines, inner: rest })
}

/// The first line, if it begins as that of a point does, without its line feed, and what is after it.
#[tactic(auto, unfolding(crate::specs::Reading::address_parts))]
fn next_address(text: &[u8]) -> Option<(&[u8], &[u8])>
    ensures { two_parts result ≡ address_parts text.now }
{
    let (line, after) = split_first(text, b'\n')?;
    if begins_point(line) {
        Some((line, after))
    } else {
        None
    }
}

/// Whether the line begins with the letter of a point and a space.
fn begins_point(line: &[u8]) -> bool
    ensures { result ≡ begins_point line.now }
{
    match line {
        [letter, space, ..] => {
            matches!(*letter, b'l' | b'c' | b't' | b'f' | b'm') && *space == b' '
        }
        _ => false,
    }
}

/// Finds that the addresses are as many as the digits say, and that a table of the newest version begins after them.
fn check_head(head: &Head<'_>, digits: &[u8]) -> Result<(), DbFault>
    requires { length head.now.lines.items ≤ 2147483648 }
    ensures count { OnOk result (digits.now ≡ decimal (length (texts head.now.lines.items))) }
    ensures newest { OnOk result (BeginsNewest head.now.inner.now) }
    ensures fault { IfErr result (IsHeadFault digits.now (texts head.now.lines.items) head.now.inner.now) }
{
    let count = head.lines.len();
    let Some((line, _)) = split_first(head.inner, b'\n') else {
        return Err(bad_line(3 + count as u32));
    };
    if !is_number(digits, count) {
        return Err(DbFault::At {
            kind: DbKind::WrongCount,
            line: Some(2),
        });
    }
    if !is_newest(line) {
        return Err(bad_line(3 + count as u32));
    }
    Ok(())
}

/// Whether the digits write this number.
fn is_number(digits: &[u8], count: usize) -> bool
    ensures { result ≡ bytes_eq digits.now (decimal count) }
{
    digits == Buffer::new().format(count).as_bytes()
}

/// Whether the line is the first of a table of the newest version.
fn is_newest(line: &[u8]) -> bool
    ensures { result ≡ bytes_eq line.now (codes "covered-db 2") }
{
    line == b"covered-db 2".as_slice()
}

/// The fault of a line that does not fit.
pub(crate) fn bad_line(number: u32) -> DbFault
    ensures { result ≡ At BadLine (Some number) }
{
    DbFault::At {
        kind: DbKind::BadLine,
        line: Some(number),
    }
}
