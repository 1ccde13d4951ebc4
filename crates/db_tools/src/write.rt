//! The text of a table with its excluded points.
ghost use Rattle.std.specs.Prelude.{◌≡◌, ◌++◌, count_by, decimal, length, map, IfOk, OnOk};
ghost use Rattle.coverage_db.specs.Text.{address_text, text_of_lines};
ghost use Rattle.db_tools.specs.Excluded.{excluded_text, marked, marked_addresses, opening};

use crate::Excluded;
use cov_host::{NoMemory, Sequence, Text};
use coverage_db::{Address, Db, DbInstance, DbPoint, push_subject, write_db};
use itoa::Buffer;
use std::alloc::Global;

/// The text of a table with its excluded points: where no point is excluded, the plain text of the table.
pub fn write_excluded(alloc: Global, excluded: &Excluded) -> Result<Text, NoMemory>
    ensures { IfOk result (λ text. text ≡ excluded_text excluded.now) }
{
    let table = write_db(alloc, excluded.db())?;
    let count = count_marks(excluded.marks());
    if count == 0 {
        return Ok(table);
    }
    let mut text = head_text(alloc, excluded.db(), excluded.marks(), count)?;
    text.extend_from_slice(table.as_slice())?;
    Ok(text)
}

/// How many marks are set.
fn count_marks(marks: &[bool]) -> usize
    ensures { result ≡ count_by (λ mark. mark) marks.now }
{
    marks.iter().filter(|mark| **mark).count()
}

/// The lines before the table.
fn head_text(alloc: Global, db: &Db, marks: &[bool], count: usize) -> Result<Text, NoMemory>
    requires long { length marks.now ≡ length db.now.points }
    ensures { IfOk result (λ text. text ≡ text_of_lines (opening (decimal count) (marked_addresses db.now marks.now))) }
{
    let mut text = Text::new(alloc);
    text.extend_from_slice(b"covered-ex 1\nexcluded ")?;
    text.extend_from_slice(Buffer::new().format(count).as_bytes())?;
    text.push(b'\n')?;
    push_addresses(&mut text, &db.instances, db.points.as_slice(), marks)?;
    Ok(text)
}

/// Appends a line with the address of each point whose mark is set.
#[tactic(auto, using(crate::proofs::Marks::marked_yes, crate::proofs::Marks::marked_no))]
fn push_addresses(
    text: &mut Text,
    instances: &Sequence<DbInstance>,
    points: &[DbPoint],
    marks: &[bool],
) -> Result<(), NoMemory>
    requires { length marks.now ≡ length points.now }
    ensures { OnOk result (text.new ≡ text.old ++ text_of_lines (map (λ p. address_text instances.now p.address) (marked points.now marks.now))) }
{
    for (place, point) in points.iter().enumerate() {
        if marks[place] {
            push_address(text, instances, &point.address)?;
            text.push(b'\n')?;
        }
    }
    Ok(())
}

/// Appends the text of an address.
fn push_address(
    text: &mut Text,
    instances: &Sequence<DbInstance>,
    address: &Address,
) -> Result<(), NoMemory>
    ensures { OnOk result (text.new ≡ text.old ++ address_text instances.now address.now) }
{
    text.push(address.subject.letter())?;
    text.push(b' ')?;
    if let Some(instance) = instances.get(address.instance as usize) {
        text.extend_from_slice(instance.path.as_slice())?;
    }
    text.push(b' ')?;
    push_subject(text, &address.subject)
}
