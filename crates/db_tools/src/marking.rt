//! The marks of the points that a list of addresses excludes.
ghost use Rattle.std.specs.Prelude.{◌≡◌, ◌≤◌, ◌+◌, drop, length, IfErr, IfOk, MatchResult, List, Bool};
ghost use Rattle.coverage_db.specs.Table.{IsTable};
ghost use Rattle.coverage_db.specs.Text.{address_text};
ghost use Rattle.db_tools.specs.Excluded.{marked_addresses};
ghost use Rattle.db_tools.specs.Greedy.{IsMarkFault, is_first, matched_marks, unmatched};
ghost use Rattle.db_tools.specs.Views.{texts};

use crate::head::bad_line;
use cov_host::{NoMemory, Sequence};
use coverage_db::{Address, Db, DbFault, DbInstance, DbPoint};
use point_lookup::is_address;
use std::alloc::Global;

/// A mark for each point of the table, set where its address is one of these lines. The first of them has number 3
/// in the text.
pub(crate) fn mark_points(alloc: Global, db: &Db, lines: &[&[u8]]) -> Result<Vec<bool>, DbFault>
    requires table { IsTable db.now }
    requires few { length lines.now ≤ 2147483648 }
    ensures long { IfOk result (λ marks. length marks.items ≡ length db.now.points) }
    ensures named { IfOk result (λ marks. marked_addresses db.now marks.items ≡ texts lines.now) }
    ensures only { (marks : List Bool) → length marks ≡ length db.now.points → marked_addresses db.now marks ≡ texts lines.now → MatchResult result (λ made. made.items ≡ marks) (λ fault. fault ≡ DbFault.NoMemory) }
    ensures fault { IfErr result (IsMarkFault db.now (texts lines.now)) }
{
    let marking = match_points(alloc, &db.instances, db.points.as_slice(), lines)?;
    if marking.matched < lines.len() {
        return Err(bad_line(3 + marking.matched as u32));
    }
    Ok(marking.marks)
}

/// Which points were matched with addresses.
#[derive(Drop)]
struct Marking {
    /// A mark for each point, set where its address was found.
    marks: Vec<bool>,
    /// How many addresses are those of points, in their order.
    matched: usize,
}

/// Goes over the points, and matches each with the next address.
fn match_points(
    alloc: Global,
    instances: &Sequence<DbInstance>,
    points: &[DbPoint],
    lines: &[&[u8]],
) -> Result<Marking, NoMemory>
    ensures marks { IfOk result (λ m. m.marks.items ≡ matched_marks instances.now points.now (texts lines.now)) }
    ensures left { IfOk result (λ m. drop m.matched (texts lines.now) ≡ unmatched instances.now points.now (texts lines.now)) }
    ensures within { IfOk result (λ m. m.matched ≤ length lines.now) }
{
    let mut marks = Vec::with_capacity(alloc, points.len())?;
    let mut matched = 0;
    for point in points {
        let is_next = is_named(instances, &point.address, lines, matched);
        marks.push(is_next)?;
        if is_next {
            matched += 1;
        }
    }
    Ok(Marking { marks, matched })
}

/// Whether the line at this place is that of the address.
fn is_named(
    instances: &Sequence<DbInstance>,
    address: &Address,
    lines: &[&[u8]],
    place: usize,
) -> bool
    requires { place ≤ length lines.now }
    ensures { result ≡ is_first (address_text instances.now address.now) (drop place (texts lines.now)) }
{
    place < lines.len() && is_address(instances, address, lines[place])
}
