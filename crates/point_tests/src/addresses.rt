//! The points of a table, a line each, as a database writes them with or without their verdicts.
use cov_host::{NoMemory, Text};
use coverage_db::{Db, DbPoint, DbVerdict, push_subject};
use itoa::Buffer;
use std::alloc::Global;

/// The addresses of the points of a table, in their order.
pub(crate) fn addresses(alloc: Global, table: &Db) -> Result<Text, NoMemory> {
    let mut text = Text::new(alloc);
    for point in table.points.as_slice() {
        add_address(table, point, &mut text)?;
        text.push(b'\n')?;
    }
    Ok(text)
}

/// The points of a table with their verdicts, in their order.
pub(crate) fn rows(alloc: Global, table: &Db) -> Result<Text, NoMemory> {
    let mut text = Text::new(alloc);
    for point in table.points.as_slice() {
        add_address(table, point, &mut text)?;
        add_verdict(&point.verdict, &mut text)?;
        text.push(b'\n')?;
    }
    Ok(text)
}

fn add_address(table: &Db, point: &DbPoint, text: &mut Text) -> Result<(), NoMemory> {
    text.push(point.address.subject.letter())?;
    text.push(b' ')?;
    if let Some(instance) = table.instances.get(point.address.instance as usize) {
        text.extend_from_slice(instance.path.as_slice())?;
    }
    text.push(b' ')?;
    push_subject(text, &point.address.subject)
}

fn add_verdict(verdict: &DbVerdict, text: &mut Text) -> Result<(), NoMemory> {
    match verdict {
        DbVerdict::Hit => text.extend_from_slice(b" = hit"),
        DbVerdict::Missed => text.extend_from_slice(b" = missed"),
        DbVerdict::Undetermined { time, path } => {
            text.extend_from_slice(b" = ? ")?;
            text.extend_from_slice(Buffer::new().format(*time).as_bytes())?;
            text.push(b' ')?;
            text.extend_from_slice(path.as_slice())
        }
    }
}
