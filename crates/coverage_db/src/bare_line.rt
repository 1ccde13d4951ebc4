ghost use Rattle.std.specs.Prelude.{◌≡◌, ◌++◌, IfOk, OnOk};
ghost use Rattle.coverage_db.specs.Merge.{bare_lines, line_at, lines_from_sources, lines_from_instances, lines_from_count};
ghost use Rattle.coverage_db.specs.Table.{IsTable};

use crate::Db;
use crate::write::{push_address, push_count, push_instance, push_source};
use cov_host::{Name, NoMemory, Text};
use std::alloc::Global;

/// The line at this place, from 0, where the line of a point is without its verdict.
pub(crate) fn bare_line(alloc: Global, db: &Db, place: usize) -> Result<Name, NoMemory>
    requires { IsTable db.now }
    ensures { IfOk result (λ line. line ≡ line_at (bare_lines db.now) place) }
{
    let mut text = Text::new(alloc);
    match place {
        0 => text.extend_from_slice(b"covered-db 2")?,
        1 => {
            text.extend_from_slice(b"top ")?;
            text.extend_from_slice(db.top.as_slice())?;
        }
        _ => push_from_sources(&mut text, db, place - 2)?,
    }
    Ok(text)
}

/// Appends the line at this place, counted from the first source.
fn push_from_sources(text: &mut Text, db: &Db, place: usize) -> Result<(), NoMemory>
    requires { IsTable db.now }
    ensures { OnOk result (text.new ≡ text.old ++ line_at (lines_from_sources db.now) place) }
{
    match db.sources.get(place) {
        Some(name) => push_source(text, place + 1, name),
        None => push_from_instances(text, db, place - db.sources.len()),
    }
}

/// Appends the line at this place, counted from the first instance.
fn push_from_instances(text: &mut Text, db: &Db, place: usize) -> Result<(), NoMemory>
    ensures { OnOk result (text.new ≡ text.old ++ line_at (lines_from_instances db.now) place) }
{
    match db.instances.get(place) {
        Some(instance) => push_instance(text, instance),
        None => push_from_count(text, db, place - db.instances.len()),
    }
}

/// Appends the line at this place, counted from the number of points.
fn push_from_count(text: &mut Text, db: &Db, place: usize) -> Result<(), NoMemory>
    ensures { OnOk result (text.new ≡ text.old ++ line_at (lines_from_count db.now) place) }
{
    if place == 0 {
        return push_count(text, db.points.len());
    }
    match db.points.get(place - 1) {
        Some(point) => push_address(text, &db.instances, &point.address),
        None => text.extend_from_slice(b"end"),
    }
}
