ghost use Rattle.std.specs.Prelude.{◌≡◌, ◌++◌, IfOk, OnOk};
ghost use Rattle.selfrun_print.specs.Print.{number_line, print_text};

use crate::counts::{hits, misses, undetermined};
use cov_host::{NoMemory, Text};
use coverage_db::Db;
use itoa::Buffer;
use std::alloc::Global;

/// The print of a selfrun whose dump has this many times, and of which this is the table.
pub fn print_of(alloc: Global, times: u64, table: &Db) -> Result<Text, NoMemory>
    ensures { IfOk result (λ text. text ≡ print_text times table.now) }
{
    let points = table.points.as_slice();
    let mut text = Text::new(alloc);
    text.extend_from_slice(b"covered selfrun 1\n")?;
    push_number(&mut text, "times", times)?;
    push_number(&mut text, "points", points.len() as u64)?;
    push_number(&mut text, "hit", hits(points) as u64)?;
    push_number(&mut text, "missed", misses(points) as u64)?;
    push_number(&mut text, "undetermined", undetermined(points) as u64)?;
    Ok(text)
}

/// Appends the line of a number under its name.
fn push_number(text: &mut Text, name: &str, number: u64) -> Result<(), NoMemory>
    ensures { OnOk result (text.new ≡ text.old ++ number_line name.now number) }
{
    text.extend_from_slice(name.as_bytes())?;
    text.push(b' ')?;
    text.extend_from_slice(Buffer::new().format(number).as_bytes())?;
    text.push(b'\n')
}
