ghost use Rattle.std.specs.Prelude.{◌≡◌, ℕ, ◌+◌, ◌∷◌, [], ◌++◌, ◌<◌, length, map, decimal, codes, OnOk, IfOk};
ghost use Rattle.coverage_db.specs.Table.{IsTable};
ghost use Rattle.coverage_db.specs.declared.address.Subject.TheVariants.{Line, Logic, Toggle, State, Arc, Word};
ghost use Rattle.coverage_db.specs.declared.version.Version.TheVariants.{Two};
ghost use Rattle.coverage_db.specs.Text.{text_of, text_of_lines, head_lines, window_line, window_count_line, top_line, source_lines, source_line, instance_line, count_line, point_line, address_text, subject_fields, letter, place_text, index_text, verdict_text, ended, path_at};

use crate::{
    Address, Db, DbInstance, DbPoint, DbVerdict, LineWord, NodeCase, Operator, SourceLine, Subject,
    Window,
};
use cov_host::{Name, NoMemory, Sequence, Text};
use itoa::{Buffer, Integer};
use std::alloc::Global;

/// The text of a database.
pub fn write_db(alloc: Global, db: &Db) -> Result<Text, NoMemory>
    requires { IsTable db.now }
    ensures { IfOk result (λ text. text ≡ text_of db.now) }
{
    let mut text = Text::new(alloc);
    push_head(&mut text, db)?;
    push_count(&mut text, db.points.len())?;
    text.push(b'\n')?;
    push_points(&mut text, &db.instances, &db.points)?;
    push_window_count(&mut text, db.windows.len())?;
    push_windows(&mut text, &db.windows)?;
    text.extend_from_slice(b"end\n")?;
    Ok(text)
}

/// Appends the lines before the count of the points.
fn push_head(text: &mut Text, db: &Db) -> Result<(), NoMemory>
    ensures { OnOk result (text.new ≡ text.old ++ text_of_lines (head_lines Two db.now)) }
{
    text.extend_from_slice(b"covered-db 2\ntop ")?;
    text.extend_from_slice(db.top.as_slice())?;
    text.push(b'\n')?;
    push_sources(text, &db.sources)?;
    push_instances(text, &db.instances)
}

/// Appends the lines of the sources.
pub fn push_sources(text: &mut Text, sources: &Sequence<Name>) -> Result<(), NoMemory>
    ensures { OnOk result (text.new ≡ text.old ++ text_of_lines (source_lines 1 sources.now)) }
{
    for (place, name) in sources.as_slice().iter().enumerate() {
        push_source(text, place + 1, name)?;
        text.push(b'\n')?;
    }
    Ok(())
}

/// Appends the line of a source, without its line feed.
pub(crate) fn push_source(text: &mut Text, number: usize, name: &Name) -> Result<(), NoMemory>
    ensures { OnOk result (text.new ≡ text.old ++ source_line number name.now) }
{
    text.extend_from_slice(b"source ")?;
    push_number(text, number)?;
    push_field(text, name.as_slice())
}

/// Appends the lines of the instances.
fn push_instances(text: &mut Text, instances: &Sequence<DbInstance>) -> Result<(), NoMemory>
    ensures { OnOk result (text.new ≡ text.old ++ text_of_lines (map instance_line instances.now)) }
{
    for instance in instances.as_slice() {
        push_instance(text, instance)?;
        text.push(b'\n')?;
    }
    Ok(())
}

/// Appends the line of an instance, without its line feed.
pub fn push_instance(text: &mut Text, instance: &DbInstance) -> Result<(), NoMemory>
    ensures { OnOk result (text.new ≡ text.old ++ instance_line instance.now) }
{
    text.extend_from_slice(b"instance ")?;
    text.extend_from_slice(instance.path.as_slice())?;
    push_field(text, instance.module.as_slice())
}

/// Appends the line of the number of points, without its line feed.
pub(crate) fn push_count(text: &mut Text, count: usize) -> Result<(), NoMemory>
    ensures { OnOk result (text.new ≡ text.old ++ count_line (decimal count)) }
{
    text.extend_from_slice(b"points ")?;
    push_number(text, count)
}

/// Appends the lines of the points.
fn push_points(
    text: &mut Text,
    instances: &Sequence<DbInstance>,
    points: &Sequence<DbPoint>,
) -> Result<(), NoMemory>
    ensures { OnOk result (text.new ≡ text.old ++ text_of_lines (map (point_line instances.now) points.now)) }
{
    for point in points.as_slice() {
        push_point(text, instances, point)?;
    }
    Ok(())
}

/// Appends the line of the number of windows.
fn push_window_count(text: &mut Text, count: usize) -> Result<(), NoMemory>
    ensures { OnOk result (text.new ≡ text.old ++ ended (window_count_line (decimal count))) }
{
    text.extend_from_slice(b"windows ")?;
    push_number(text, count)?;
    text.push(b'\n')
}

/// Appends the lines of the windows.
fn push_windows(text: &mut Text, windows: &Sequence<Window>) -> Result<(), NoMemory>
    ensures { OnOk result (text.new ≡ text.old ++ text_of_lines (map window_line windows.now)) }
{
    for window in windows.as_slice() {
        push_window(text, window)?;
    }
    Ok(())
}

/// Appends the line of a window.
fn push_window(text: &mut Text, window: &Window) -> Result<(), NoMemory>
    ensures { OnOk result (text.new ≡ text.old ++ ended (window_line window.now)) }
{
    text.extend_from_slice(b"window ")?;
    push_number(text, window.first)?;
    text.push(b' ')?;
    push_number(text, window.last)?;
    text.push(b'\n')
}

/// Appends the line of a point.
fn push_point(
    text: &mut Text,
    instances: &Sequence<DbInstance>,
    point: &DbPoint,
) -> Result<(), NoMemory>
    ensures { OnOk result (text.new ≡ text.old ++ ended (point_line instances.now point.now)) }
{
    push_address(text, instances, &point.address)?;
    text.extend_from_slice(b" = ")?;
    push_verdict(text, &point.verdict)?;
    text.push(b'\n')
}

/// Appends the text of an address.
pub(crate) fn push_address(
    text: &mut Text,
    instances: &Sequence<DbInstance>,
    address: &Address,
) -> Result<(), NoMemory>
    ensures { OnOk result (text.new ≡ text.old ++ address_text instances.now address.now) }
{
    text.push(address.subject.letter())?;
    text.push(b' ')?;
    if let Some(instance) = instances.get(address.instance as usize) {
        text.extend_from_slice(instance.path.as_slice())?;
    }
    text.push(b' ')?;
    push_subject(text, &address.subject)
}

/// Appends the fields of an address after its instance.
pub fn push_subject(text: &mut Text, subject: &Subject) -> Result<(), NoMemory>
    ensures { OnOk result (text.new ≡ text.old ++ subject_fields subject.now) }
{
    match subject {
        Subject::Line { number, at, word } => push_line(text, *number, *at, *word),
        Subject::Logic {
            number,
            at,
            operator,
            case,
        } => push_logic(text, *number, *at, *operator, *case),
        Subject::Toggle { name, index, rise } => push_toggle(text, name, *index, *rise),
        Subject::State { name, state } => push_state(text, name, state),
        Subject::Arc { name, from, to } => push_arc(text, name, from, to),
        Subject::Word { name, index, write } => push_word(text, name, *index, *write),
    }
}

/// Appends the fields of a statement.
fn push_line(text: &mut Text, number: u32, at: SourceLine, word: LineWord) -> Result<(), NoMemory>
    ensures { OnOk result (text.new ≡ text.old ++ subject_fields (Line number at word)) }
{
    push_number(text, number)?;
    push_place(text, at)?;
    push_field(text, word.text().as_bytes())
}

/// Appends the fields of a node.
fn push_logic(
    text: &mut Text,
    number: u32,
    at: SourceLine,
    operator: Operator,
    case: NodeCase,
) -> Result<(), NoMemory>
    ensures { OnOk result (text.new ≡ text.old ++ subject_fields (Logic number at operator case)) }
{
    push_number(text, number)?;
    push_place(text, at)?;
    push_field(text, operator.text().as_bytes())?;
    push_field(text, case.text().as_bytes())
}

/// Appends the fields of a change of a bit.
fn push_toggle(text: &mut Text, name: &Name, index: Option<u32>, rise: bool) -> Result<(), NoMemory>
    ensures { OnOk result (text.new ≡ text.old ++ subject_fields (Toggle name.now index rise)) }
{
    text.extend_from_slice(name.as_slice())?;
    push_index(text, index)?;
    push_field(text, if rise { b"01" } else { b"10" })
}

/// Appends the fields of a state.
fn push_state(text: &mut Text, name: &Name, state: &Name) -> Result<(), NoMemory>
    ensures { OnOk result (text.new ≡ text.old ++ subject_fields (State name.now state.now)) }
{
    text.extend_from_slice(name.as_slice())?;
    push_field(text, state.as_slice())
}

/// Appends the fields of an arc.
fn push_arc(text: &mut Text, name: &Name, from: &Name, to: &Name) -> Result<(), NoMemory>
    ensures { OnOk result (text.new ≡ text.old ++ subject_fields (Arc name.now from.now to.now)) }
{
    text.extend_from_slice(name.as_slice())?;
    push_field(text, from.as_slice())?;
    push_field(text, to.as_slice())
}

/// Appends the fields of a word of a memory.
fn push_word(text: &mut Text, name: &Name, index: u32, write: bool) -> Result<(), NoMemory>
    ensures { OnOk result (text.new ≡ text.old ++ subject_fields (Word name.now index write)) }
{
    text.extend_from_slice(name.as_slice())?;
    push_index(text, Some(index))?;
    push_field(text, if write { b"w" } else { b"r" })
}

/// Appends the text of a verdict.
fn push_verdict(text: &mut Text, verdict: &DbVerdict) -> Result<(), NoMemory>
    ensures { OnOk result (text.new ≡ text.old ++ verdict_text verdict.now) }
{
    match verdict {
        DbVerdict::Hit => text.extend_from_slice(b"hit"),
        DbVerdict::Missed => text.extend_from_slice(b"missed"),
        DbVerdict::Undetermined { time, path } => {
            text.extend_from_slice(b"? ")?;
            push_number(text, *time)?;
            push_field(text, path.as_slice())
        }
    }
}

/// Appends a space and the index as declared.
fn push_index(text: &mut Text, index: Option<u32>) -> Result<(), NoMemory>
    ensures { OnOk result (text.new ≡ text.old ++ 32 ∷ index_text index) }
{
    text.push(b' ')?;
    match index {
        None => text.push(b'-'),
        Some(index) => push_number(text, index),
    }
}

/// Appends a space and a source with its line.
fn push_place(text: &mut Text, at: SourceLine) -> Result<(), NoMemory>
    ensures { OnOk result (text.new ≡ text.old ++ 32 ∷ place_text at) }
{
    text.push(b' ')?;
    push_number(text, at.source)?;
    text.push(b':')?;
    push_number(text, at.line)
}

/// Appends a space and a field.
fn push_field(text: &mut Text, field: &[u8]) -> Result<(), NoMemory>
    ensures { OnOk result (text.new ≡ text.old ++ 32 ∷ field.now) }
{
    text.push(b' ')?;
    text.extend_from_slice(field)
}

/// Appends a number in decimal.
fn push_number<I: Integer + Drop>(text: &mut Text, number: I) -> Result<(), NoMemory>
    ensures { OnOk result (text.new ≡ text.old ++ I.text number) }
{
    text.extend_from_slice(Buffer::new().format(number).as_bytes())
}
