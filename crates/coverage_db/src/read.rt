ghost use Rattle.std.specs.Prelude.{◌≡◌, ◌<◌, ◌≤◌, length, IfOk, IfErr, OnOk};
ghost use Rattle.coverage_db.specs.declared.db.Db.{Db as SpecDb};
ghost use Rattle.coverage_db.specs.Drafting.{Returns, reading};
ghost use Rattle.coverage_db.specs.Faults.{IsFault, IsTheTable};
ghost use Rattle.coverage_db.specs.Table.{IsTable};
ghost use Rattle.coverage_db.specs.Text.{IsTextOf};

use crate::draft::Draft;
use crate::split::split_first;
use crate::{Db, DbFault, DbKind};
use std::alloc::Global;

/// The longest text, in bytes.
const LONGEST: usize = 2_147_483_648;

/// Reads the text of a table. It accepts exactly the texts of tables, those of version 1 too, up to 2,147,483,648 bytes.
pub fn read_db(alloc: Global, bytes: &[u8]) -> Result<Db, DbFault>
    ensures table { IfOk result (λ db. IsTable db) }
    ensures spelled { IfOk result (λ db. IsTextOf db bytes.now) }
    ensures short { OnOk result (length bytes.now ≤ 2147483648) }
    ensures only { (db : SpecDb) → IsTable db → IsTextOf db bytes.now → length bytes.now ≤ 2147483648 → IsTheTable db result }
    ensures fault { IfErr result (λ fault. IsFault bytes.now fault) }
{
    if bytes.len() > LONGEST {
        return Err(DbFault::At {
            kind: DbKind::DbTooLong,
            line: None,
        });
    }
    read_lines(alloc, bytes)
}

/// Reads a table line by line.
fn read_lines(alloc: Global, bytes: &[u8]) -> Result<Db, DbFault>
    requires { length bytes.now ≤ 2147483648 }
    ensures { Returns result (reading alloc bytes.now) }
{
    let mut draft = Draft::new(alloc);
    let mut rest = bytes;
    let mut number = 1;
    while let Some((line, after)) = split_first(rest, b'\n') {
        draft.take_line(number, line)?;
        rest = after;
        number += 1;
    }
    draft.finish(number, rest)
}
