ghost use Rattle.std.specs.Prelude.{◌≡◌, IfOk};
ghost use Rattle.cov_host.specs.Identifier.{is_identifier};
ghost use Rattle.coverage_db.specs.Fields.{Takes, Gives};
ghost use Rattle.coverage_db.specs.Reading.{place_of, place_at, tested_at, index_at, choice_at, line_at, logic_at, toggle_at, arc_at, machine_at, word_at, subject_at};
ghost use Rattle.coverage_db.specs.Table.{is_state};

use crate::fields::Fields;
use crate::line_fault::LineFault;
use crate::number::{all_digits, read_number};
use crate::split::split_first;
use crate::{LineWord, NodeCase, Operator, SourceLine, Subject};
use cov_host::{Name, NoMemory, is_identifier};
use std::alloc::Global;

/// The greatest number of a statement, of a node and of a line, and the greatest index.
const GREATEST: u64 = u32::MAX as u64;

/// What a point with this letter counts, where there are this number of sources.
#[tactic(auto, unfolding(crate::specs::Reading::subject_at))]
pub(crate) fn read_subject(
    alloc: Global,
    sources: u32,
    letter: &[u8],
    fields: &mut Fields<'_>,
) -> Result<Subject, LineFault>
    ensures { Takes (λ subject. subject) result fields.new (subject_at sources letter.now fields.old) }
{
    match letter {
        [b'l'] => read_line(sources, fields),
        [b'c'] => read_logic(sources, fields),
        [b't'] => read_toggle(alloc, fields),
        [b'f'] => read_machine(alloc, fields),
        [b'm'] => read_word(alloc, fields),
        _ => Err(LineFault::Misfit),
    }
}

#[tactic(auto, unfolding(crate::specs::Reading::line_at))]
fn read_line(sources: u32, fields: &mut Fields<'_>) -> Result<Subject, LineFault>
    ensures { Takes (λ subject. subject) result fields.new (line_at sources fields.old) }
{
    let number = fields.number(1, GREATEST)? as u32;
    let at = read_place(sources, fields)?;
    let word = LineWord::of_text(fields.next_field()?).ok_or(LineFault::Misfit)?;
    fields.equals()?;
    Ok(Subject::Line { number, at, word })
}

#[tactic(auto, unfolding(crate::specs::Reading::logic_at))]
fn read_logic(sources: u32, fields: &mut Fields<'_>) -> Result<Subject, LineFault>
    ensures { Takes (λ subject. subject) result fields.new (logic_at sources fields.old) }
{
    let number = fields.number(1, GREATEST)? as u32;
    let at = read_place(sources, fields)?;
    let operator = Operator::of_text(fields.next_field()?).ok_or(LineFault::Misfit)?;
    let case = NodeCase::of_text(fields.next_field()?).ok_or(LineFault::Misfit)?;
    fields.equals()?;
    if !operator.can_have(case) {
        return Err(LineFault::Misfit);
    }
    Ok(Subject::Logic {
        number,
        at,
        operator,
        case,
    })
}

#[tactic(auto, unfolding(crate::specs::Reading::toggle_at))]
fn read_toggle(alloc: Global, fields: &mut Fields<'_>) -> Result<Subject, LineFault>
    ensures { Takes (λ subject. subject) result fields.new (toggle_at fields.old) }
{
    let name = read_identifier(fields)?;
    let index = read_index(fields)?;
    let rise = read_choice(fields, b"01", b"10")?;
    fields.equals()?;
    Ok(Subject::Toggle {
        name: to_name(alloc, name)?,
        index,
        rise,
    })
}

#[tactic(auto, unfolding(crate::specs::Reading::machine_at))]
fn read_machine(alloc: Global, fields: &mut Fields<'_>) -> Result<Subject, LineFault>
    ensures { Takes (λ subject. subject) result fields.new (machine_at fields.old) }
{
    let name = read_identifier(fields)?;
    let state = read_state(fields)?;
    let next = fields.next_field()?;
    if next == b"=".as_slice() {
        return Ok(Subject::State {
            name: to_name(alloc, name)?,
            state: to_name(alloc, state)?,
        });
    }
    read_arc(alloc, name, state, next, fields)
}

/// An arc to this state.
#[tactic(auto, unfolding(crate::specs::Reading::arc_at))]
fn read_arc(
    alloc: Global,
    name: &[u8],
    from: &[u8],
    to: &[u8],
    fields: &mut Fields<'_>,
) -> Result<Subject, LineFault>
    ensures { Takes (λ subject. subject) result fields.new (arc_at name.now from.now to.now fields.old) }
{
    if !is_state(to) || from == to {
        return Err(LineFault::Misfit);
    }
    fields.equals()?;
    Ok(Subject::Arc {
        name: to_name(alloc, name)?,
        from: to_name(alloc, from)?,
        to: to_name(alloc, to)?,
    })
}

#[tactic(auto, unfolding(crate::specs::Reading::word_at))]
fn read_word(alloc: Global, fields: &mut Fields<'_>) -> Result<Subject, LineFault>
    ensures { Takes (λ subject. subject) result fields.new (word_at fields.old) }
{
    let name = read_identifier(fields)?;
    let index = fields.number(0, GREATEST)? as u32;
    let write = read_choice(fields, b"w", b"r")?;
    fields.equals()?;
    Ok(Subject::Word {
        name: to_name(alloc, name)?,
        index,
        write,
    })
}

/// A source with its line.
#[tactic(auto, unfolding(crate::specs::Reading::place_at))]
fn read_place(sources: u32, fields: &mut Fields<'_>) -> Result<SourceLine, LineFault>
    ensures { Takes (λ place. place) result fields.new (place_at sources fields.old) }
{
    place_of(sources, fields.next_field()?)
}

#[tactic(auto, unfolding(crate::specs::Reading::place_of))]
fn place_of(sources: u32, word: &[u8]) -> Result<SourceLine, LineFault>
    ensures { Gives (λ place. place) result (place_of sources word.now) }
{
    let Some((source, line)) = split_first(word, b':') else {
        return Err(LineFault::Misfit);
    };
    let source = read_number(source, 1, u64::from(sources))? as u32;
    let line = read_number(line, 1, GREATEST)? as u32;
    Ok(SourceLine { source, line })
}

fn read_identifier<'a>(fields: &mut Fields<'a>) -> Result<&'a [u8], LineFault>
    ensures { Takes (λ name. name.now) result fields.new (tested_at is_identifier fields.old) }
{
    let name = fields.next_field()?;
    if is_identifier(name) {
        Ok(name)
    } else {
        Err(LineFault::Misfit)
    }
}

fn read_state<'a>(fields: &mut Fields<'a>) -> Result<&'a [u8], LineFault>
    ensures { Takes (λ name. name.now) result fields.new (tested_at is_state fields.old) }
{
    let state = fields.next_field()?;
    if is_state(state) {
        Ok(state)
    } else {
        Err(LineFault::Misfit)
    }
}

/// Whether the word can name a state: an identifier, or decimal digits.
fn is_state(word: &[u8]) -> bool
    ensures { result ≡ is_state word.now }
{
    is_identifier(word) || (!word.is_empty() && all_digits(word))
}

/// The index as declared, or `-`.
#[tactic(auto, unfolding(crate::specs::Reading::index_at))]
fn read_index(fields: &mut Fields<'_>) -> Result<Option<u32>, LineFault>
    ensures { Takes (λ index. index) result fields.new (index_at fields.old) }
{
    let field = fields.next_field()?;
    if field == b"-".as_slice() {
        return Ok(None);
    }
    let index = read_number(field, 0, GREATEST)? as u32;
    Ok(Some(index))
}

/// Whether the next field is the first of two words. None where it is neither.
fn read_choice(fields: &mut Fields<'_>, first: &[u8], second: &[u8]) -> Result<bool, LineFault>
    ensures { Takes (λ choice. choice) result fields.new (choice_at first.now second.now fields.old) }
{
    let field = fields.next_field()?;
    if field == first {
        Ok(true)
    } else if field == second {
        Ok(false)
    } else {
        Err(LineFault::Misfit)
    }
}

pub(crate) fn to_name(alloc: Global, bytes: &[u8]) -> Result<Name, NoMemory>
    ensures { IfOk result (λ name. name ≡ bytes.now) }
{
    Ok(Name::from_vec(Vec::from_slice(alloc, bytes)?))
}
