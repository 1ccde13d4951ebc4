ghost use Rattle.std.specs.Prelude.{◌≡◌, ◌++◌, map, decimal, IfOk, OnOk};
ghost use Rattle.coverage_db.specs.Text.{text_of_lines};
ghost use Rattle.test_ranking.specs.Print.{file_at, hit_line, ranking_text, skip_line, use_line};

use crate::{Ranking, Use};
use cov_host::{NoMemory, Text};
use itoa::Buffer;
use std::alloc::Global;

/// The text of a ranking, where these are the files of the tables.
pub fn ranking_text(alloc: Global, files: &[&str], ranking: &Ranking) -> Result<Text, NoMemory>
    ensures { IfOk result (λ text. text ≡ ranking_text (map (λ file. file.now) files.now) ranking.now) }
{
    let mut text = Text::new(alloc);
    text.extend_from_slice(b"covered rank 1\n")?;
    push_uses(&mut text, files, ranking.used.as_slice())?;
    push_skips(&mut text, files, ranking.skipped.as_slice())?;
    push_hits(&mut text, ranking)?;
    text.push(b'\n')?;
    Ok(text)
}

/// Appends the lines of the tables that are used.
fn push_uses(text: &mut Text, files: &[&str], uses: &[Use]) -> Result<(), NoMemory>
    ensures { OnOk result (text.new ≡ text.old ++ text_of_lines (map (use_line (map (λ file. file.now) files.now)) uses.now)) }
{
    for used in uses {
        push_use(text, files, used)?;
        text.push(b'\n')?;
    }
    Ok(())
}

/// Appends the line of a table that is used, without its line feed.
fn push_use(text: &mut Text, files: &[&str], used: &Use) -> Result<(), NoMemory>
    ensures { OnOk result (text.new ≡ text.old ++ use_line (map (λ file. file.now) files.now) used.now) }
{
    text.extend_from_slice(b"use ")?;
    push_number(text, used.added)?;
    text.push(b' ')?;
    push_number(text, used.total)?;
    text.push(b' ')?;
    push_file(text, files, used.table)
}

/// Appends the lines of the tables that are not used.
fn push_skips(text: &mut Text, files: &[&str], tables: &[usize]) -> Result<(), NoMemory>
    ensures { OnOk result (text.new ≡ text.old ++ text_of_lines (map (skip_line (map (λ file. file.now) files.now)) tables.now)) }
{
    for table in tables {
        text.extend_from_slice(b"skip ")?;
        push_file(text, files, *table)?;
        text.push(b'\n')?;
    }
    Ok(())
}

/// Appends the last line, without its line feed.
fn push_hits(text: &mut Text, ranking: &Ranking) -> Result<(), NoMemory>
    ensures { OnOk result (text.new ≡ text.old ++ hit_line ranking.now) }
{
    text.extend_from_slice(b"hit ")?;
    push_number(text, ranking.hit)?;
    text.extend_from_slice(b" of ")?;
    push_number(text, ranking.points)
}

/// Appends the file of a table.
fn push_file(text: &mut Text, files: &[&str], table: usize) -> Result<(), NoMemory>
    ensures { OnOk result (text.new ≡ text.old ++ file_at (map (λ file. file.now) files.now) table) }
{
    match files.get(table) {
        Some(file) => text.extend_from_slice(file.as_bytes()),
        None => Ok(()),
    }
}

/// Appends a number in decimal.
fn push_number(text: &mut Text, number: u32) -> Result<(), NoMemory>
    ensures { OnOk result (text.new ≡ text.old ++ decimal number) }
{
    text.extend_from_slice(Buffer::new().format(number).as_bytes())
}
