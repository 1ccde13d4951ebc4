//! Tests of the tracefiles of databases: whole texts, worked by hand from the rules of the format.
ghost use Rattle.std.specs.Prelude.{IfSome};
ghost use Rattle.coverage_db.specs.Table.{IsTable};

use cov_host::Text;
use coverage_db::{Db, read_db};
use lcov_text::tracefile;
use std::alloc::Global;

/// Two modules, three instances. Line 3 of `top.v` has two continuous assignments, line 9 a `case` that is never
/// reached. The instances of `cell` are hit at different points, and some points are left open.
#[rattlefmt::skip]
const CELLS: &[u8] = b"covered-db 1\ntop top\nsource 1 top.v\nsource 2 cell.v\ninstance top top\ninstance top.a cell\ninstance top.b cell\npoints 30\nl top 1 1:9 case = missed\nl top.a 1 2:4 if = hit\nl top.a 2 2:4 assign = missed\nl top.a 3 2:5 assign = ? 10 top.a.s\nl top.a 4 2:7 assign = missed\nl top.b 1 2:4 if = missed\nl top.b 2 2:4 assign = missed\nl top.b 3 2:5 assign = missed\nl top.b 4 2:7 assign = hit\nc top 1 1:3 & 0- = hit\nc top 1 1:3 & -0 = missed\nc top 1 1:3 & 11 = ? 20 top.d\nc top 2 1:3 | 1- = missed\nc top 2 1:3 | -1 = missed\nc top 2 1:3 | 00 = missed\nc top 3 1:9 value 0 = missed\nc top 3 1:9 value 1 = ? 5 top.d\nc top.a 1 2:4 == 00 = hit\nc top.a 1 2:4 == 01 = missed\nc top.a 1 2:4 == 10 = missed\nc top.a 1 2:4 == 11 = ? 10 top.a.s\nc top.a 2 2:5 value 0 = missed\nc top.a 2 2:5 value 1 = missed\nc top.b 1 2:4 == 00 = missed\nc top.b 1 2:4 == 01 = hit\nc top.b 1 2:4 == 10 = missed\nc top.b 1 2:4 == 11 = missed\nc top.b 2 2:5 value 0 = missed\nc top.b 2 2:5 value 1 = missed\nt top clk - 01 = hit\nend\n";

#[rattlefmt::skip]
const CELLS_TRACEFILE: &[u8] = b"TN:top\nSF:top.v\nBRDA:3,0,0,1\nBRDA:3,0,1,0\nBRDA:3,0,2,0\nBRDA:3,1,0,0\nBRDA:3,1,1,0\nBRDA:3,1,2,0\nBRDA:9,0,0,-\nBRDA:9,0,1,-\nBRF:8\nBRH:1\nDA:9,0\nLF:1\nLH:0\nend_of_record\nSF:cell.v\nBRDA:4,0,0,1\nBRDA:4,0,1,1\nBRDA:4,0,2,0\nBRDA:4,0,3,0\nBRDA:5,0,0,-\nBRDA:5,0,1,-\nBRF:6\nBRH:2\nDA:4,1\nDA:5,0\nDA:7,1\nLF:3\nLH:2\nend_of_record\n";

/// Two modules with nodes and statements on one line of a file that both include. A node of module `beta` comes
/// before one of module `gamma`, though its instance does not. One source has no point.
#[rattlefmt::skip]
const INCLUDED: &[u8] = b"covered-db 1\ntop m\nsource 1 m.v\nsource 2 body.vh\ninstance m m\ninstance m.a gamma\ninstance m.b beta\npoints 8\nl m.a 2 2:10 if = missed\nl m.b 1 2:10 assign = hit\nc m.a 7 2:10 && 0- = missed\nc m.a 7 2:10 && -0 = hit\nc m.a 7 2:10 && 11 = missed\nc m.b 8 2:10 ! 0 = missed\nc m.b 8 2:10 ! 1 = missed\nc m.b 9 2:2 + 11 = missed\nend\n";

#[rattlefmt::skip]
const INCLUDED_TRACEFILE: &[u8] = b"TN:m\nSF:m.v\nBRF:0\nBRH:0\nLF:0\nLH:0\nend_of_record\nSF:body.vh\nBRDA:2,0,3,-\nBRDA:10,0,0,0\nBRDA:10,0,1,0\nBRDA:10,1,0,0\nBRDA:10,1,1,1\nBRDA:10,1,2,0\nBRF:6\nBRH:1\nDA:10,1\nLF:1\nLH:1\nend_of_record\n";

/// The table of a text.
fn table(alloc: Global, text: &[u8]) -> Option<Db>
    ensures { IfSome result (λ db. IsTable db) }
{
    match read_db(alloc, text) {
        Ok(db) => Some(db),
        Err(_) => None,
    }
}

fn traced(alloc: Global, text: &[u8]) -> Option<Text> {
    let db = table(alloc, text)?;
    tracefile(alloc, &db).ok()
}

fn has_tracefile(alloc: Global, text: &[u8], expected: &[u8]) -> bool {
    match traced(alloc, text) {
        Some(text) => text.as_slice() == expected,
        None => false,
    }
}

#[test]
fn instances_count_once(rt: HostRuntime) {
    assert!(rt; has_tracefile(rt.alloc(), CELLS, CELLS_TRACEFILE));
}

#[test]
fn modules_share_a_line(rt: HostRuntime) {
    assert!(rt; has_tracefile(rt.alloc(), INCLUDED, INCLUDED_TRACEFILE));
}
