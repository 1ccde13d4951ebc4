ghost use Rattle.std.specs.Prelude.{◌≡◌, ◌<◌, ◌^◌, length};
ghost use Rattle.coverage_db.specs.Fields.{Gives};
ghost use Rattle.coverage_db.specs.Order.{bytes_cmp};
ghost use Rattle.coverage_db.specs.Reading.{doubt_at, verdict_by, verdict_at, point_of};
ghost use Rattle.coverage_db.specs.Table.{Rises};

use crate::fields::Fields;
use crate::instances::{find_instance, is_thing};
use crate::line_fault::LineFault;
use crate::read_subject::{read_subject, to_name};
use crate::{Address, DbInstance, DbPoint, DbVerdict};
use std::alloc::Global;

/// The latest time.
const LATEST: u64 = i64::MAX as u64;

/// The point of a line, where there are this number of sources and these instances.
#[tactic(auto, unfolding(crate::specs::Reading::point_of))]
pub(crate) fn read_point(
    alloc: Global,
    sources: u32,
    instances: &[DbInstance],
    line: &[u8],
) -> Result<DbPoint, LineFault>
    requires few { length instances.now < 2 ^ 32 }
    requires rising { Rises (λ a b. bytes_cmp a.path b.path) instances.now }
    ensures { Gives (λ point. point) result (point_of sources instances.now line.now) }
{
    let mut fields = Fields::new(line);
    let letter = fields.next_field()?;
    let path = fields.next_field()?;
    let instance = find_instance(instances, path).ok_or(LineFault::Misfit)? as u32;
    let subject = read_subject(alloc, sources, letter, &mut fields)?;
    let verdict = read_verdict(alloc, instances, &mut fields)?;
    Ok(DbPoint {
        address: Address { instance, subject },
        verdict,
    })
}

/// A verdict, and no more fields.
#[tactic(auto, unfolding(crate::specs::Reading::verdict_at, crate::specs::Reading::verdict_by))]
fn read_verdict(
    alloc: Global,
    instances: &[DbInstance],
    fields: &mut Fields<'_>,
) -> Result<DbVerdict, LineFault>
    requires { Rises (λ a b. bytes_cmp a.path b.path) instances.now }
    ensures { Gives (λ verdict. verdict) result (verdict_at instances.now fields.old) }
{
    let word = fields.next_field()?;
    if word == b"hit".as_slice() {
        fields.end()?;
        Ok(DbVerdict::Hit)
    } else if word == b"missed".as_slice() {
        fields.end()?;
        Ok(DbVerdict::Missed)
    } else if word == b"?".as_slice() {
        read_doubt(alloc, instances, fields)
    } else {
        Err(LineFault::Misfit)
    }
}

/// The time and the path of a doubt, and no more fields.
#[tactic(auto, unfolding(crate::specs::Reading::doubt_at))]
fn read_doubt(
    alloc: Global,
    instances: &[DbInstance],
    fields: &mut Fields<'_>,
) -> Result<DbVerdict, LineFault>
    requires { Rises (λ a b. bytes_cmp a.path b.path) instances.now }
    ensures { Gives (λ verdict. verdict) result (doubt_at instances.now fields.old) }
{
    let time = fields.number(0, LATEST)?;
    let path = fields.next_field()?;
    fields.end()?;
    if !is_thing(instances, path) {
        return Err(LineFault::Misfit);
    }
    Ok(DbVerdict::Undetermined {
        time,
        path: to_name(alloc, path)?,
    })
}
