//! Reading a table with its excluded points.
ghost use Rattle.std.specs.Prelude.{◌≡◌, ◌≤◌, ◌+◌, ◌^◌, ◌<◌, [], bytes_eq, codes, false, length, replicate, IfErr, IfOk, OnOk, List, ℕ};
ghost use Rattle.coverage_db.specs.Faults.{IsFault};
ghost use Rattle.coverage_db.specs.Table.{IsTable};
ghost use Rattle.coverage_db.specs.Text.{IsTextOf, text_of};
ghost use Rattle.db_tools.specs.Excluded.{Exclusion, IsExcludedText, IsExclusion, IsTheExclusion, addresses};
ghost use Rattle.db_tools.specs.Faults.{BeginsNewest, IsExcludedFault, IsExcludedVersion, IsInsideFault, IsLineWithin, IsReadFault, moved};
ghost use Rattle.db_tools.specs.Greedy.{IsMarkFault};
ghost use Rattle.db_tools.specs.Views.{texts};

use crate::Excluded;
use crate::head::{Head, read_head, version_of};
use crate::marking::mark_points;
use cov_host::NoMemory;
use coverage_db::{Db, DbFault, DbKind, read_db};
use std::alloc::Global;

/// The longest text, in bytes.
const LONGEST: usize = 2_147_483_648;

/// Reads the text of a table with its excluded points, or the plain text of a table, of which no point is excluded. It
/// accepts exactly these texts up to 2,147,483,648 bytes. A plain text may be of version 1; the table inside an excluded
/// text is of the newest version.
pub fn read_excluded(alloc: Global, bytes: &[u8]) -> Result<Excluded, DbFault>
    ensures excluded { IfOk result IsExclusion }
    ensures spelled { IfOk result (λ e. IsExcludedText e bytes.now) }
    ensures short { OnOk result (length bytes.now ≤ 2147483648) }
    ensures only { (e : Exclusion) → IsExclusion e → IsExcludedText e bytes.now → length bytes.now ≤ 2147483648 → IsTheExclusion e result }
    ensures fault { IfErr result (IsReadFault bytes.now) }
{
    if bytes.len() > LONGEST {
        return Err(DbFault::At {
            kind: DbKind::DbTooLong,
            line: None,
        });
    }
    match version_of(bytes) {
        Some((digits, rest)) => read_version(alloc, digits, rest),
        None => read_plain(alloc, bytes),
    }
}

/// Reads the plain text of a table.
fn read_plain(alloc: Global, bytes: &[u8]) -> Result<Excluded, DbFault>
    requires { length bytes.now ≤ 2147483648 }
    ensures excluded { IfOk result IsExclusion }
    ensures plain { IfOk result (λ e. (addresses e ≡ []) × IsTextOf e.table bytes.now) }
    ensures only { (e : Exclusion) → IsExclusion e → addresses e ≡ [] → IsTextOf e.table bytes.now → IsTheExclusion e result }
    ensures fault { IfErr result (IsFault bytes.now) }
{
    let db = read_db(alloc, bytes)?;
    let marks = no_marks(alloc, db.points.len())?;
    Ok(Excluded::new(db, marks))
}

/// A mark for each of `count` points, none of them set.
fn no_marks(alloc: Global, count: usize) -> Result<Vec<bool>, NoMemory>
    ensures { IfOk result (λ marks. marks.items ≡ replicate count false) }
{
    Ok(vec![in alloc; false; count]?)
}

/// Reads an excluded text, of which these are the digits of the version and what is after the first line.
fn read_version(alloc: Global, digits: &[u8], rest: &[u8]) -> Result<Excluded, DbFault>
    requires { length rest.now ≤ 2147483648 }
    ensures excluded { IfOk result IsExclusion }
    ensures spelled { IfOk result (λ e. (text : List ℕ) → IsExcludedVersion text digits.now rest.now → IsExcludedText e text) }
    ensures only { (e : Exclusion) (text : List ℕ) → IsExcludedVersion text digits.now rest.now → IsExclusion e → IsExcludedText e text → IsTheExclusion e result }
    ensures fault { IfErr result (λ fault. (text : List ℕ) → IsExcludedVersion text digits.now rest.now → IsExcludedFault text fault) }
{
    if !is_first(digits) {
        return Err(DbFault::At {
            kind: DbKind::WrongVersion,
            line: Some(1),
        });
    }
    match read_head(alloc, rest) {
        Ok(head) => read_inside(alloc, &head),
        Err(fault) => Err(fault),
    }
}

/// Whether the digits are those of version 1.
fn is_first(digits: &[u8]) -> bool
    ensures { result ≡ bytes_eq digits.now (codes "1") }
{
    digits == b"1".as_slice()
}

/// Reads the table after these addresses, and excludes the points that they name.
fn read_inside(alloc: Global, head: &Head<'_>) -> Result<Excluded, DbFault>
    requires newest { BeginsNewest head.now.inner.now }
    requires short { length head.now.lines.items + length head.now.inner.now ≤ 2147483648 }
    ensures excluded { IfOk result IsExclusion }
    ensures inside { IfOk result (λ e. (addresses e ≡ texts head.now.lines.items) × (head.now.inner.now ≡ text_of e.table)) }
    ensures only { (e : Exclusion) → IsExclusion e → addresses e ≡ texts head.now.lines.items → head.now.inner.now ≡ text_of e.table → IsTheExclusion e result }
    ensures fault { IfErr result (λ fault. (digits : List ℕ) → IsInsideFault digits (texts head.now.lines.items) head.now.inner.now fault) }
{
    match read_db(alloc, head.inner) {
        Ok(db) => exclude_named(alloc, db, &head.lines),
        Err(fault) => Err(moved(fault, 2 + head.lines.len() as u32)),
    }
}

/// A table, and the points that these lines name excluded.
fn exclude_named(alloc: Global, db: Db, lines: &[&[u8]]) -> Result<Excluded, DbFault>
    requires table { IsTable db }
    requires few { length lines.now ≤ 2147483648 }
    ensures excluded { IfOk result IsExclusion }
    ensures named { IfOk result (λ e. (addresses e ≡ texts lines.now) × (e.table ≡ db)) }
    ensures only { (e : Exclusion) → IsExclusion e → e.table ≡ db → addresses e ≡ texts lines.now → IsTheExclusion e result }
    ensures fault { IfErr result (IsMarkFault db (texts lines.now)) }
{
    match mark_points(alloc, &db, lines) {
        Ok(marks) => Ok(Excluded::new(db, marks)),
        Err(fault) => Err(fault),
    }
}

/// The fault of a table after this number of lines.
fn moved(fault: DbFault, before: u32) -> DbFault
    requires { IsLineWithin (λ line. before + line < 2 ^ 32) fault }
    ensures { result ≡ moved before fault }
{
    match fault {
        DbFault::At {
            kind,
            line: Some(line),
        } => DbFault::At {
            kind,
            line: Some(before + line),
        },
        DbFault::At { line: None, .. } | DbFault::NoMemory => fault,
    }
}
