//! Copies of the parts of a table.
ghost use Rattle.std.specs.Prelude.{◌≡◌, IfOk};

use cov_host::{Name, NoMemory, Sequence};
use coverage_db::{Address, DbInstance, DbPoint, DbVerdict, Subject, Window};
use std::alloc::Global;

pub(crate) fn copy_name(alloc: Global, name: &Name) -> Result<Name, NoMemory>
    ensures { IfOk result (λ copy. copy ≡ name.now) }
{
    let mut copy = Name::new(alloc);
    copy.extend_from_slice(name.as_slice())?;
    Ok(copy)
}

pub(crate) fn copy_names(alloc: Global, names: &Sequence<Name>) -> Result<Sequence<Name>, NoMemory>
    ensures { IfOk result (λ copy. copy ≡ names.now) }
{
    let mut copies = Sequence::new(alloc);
    for name in names.as_slice() {
        copies.push(copy_name(alloc, name)?)?;
    }
    Ok(copies)
}

pub(crate) fn copy_instances(
    alloc: Global,
    instances: &Sequence<DbInstance>,
) -> Result<Sequence<DbInstance>, NoMemory>
    ensures { IfOk result (λ copy. copy ≡ instances.now) }
{
    let mut copies = Sequence::new(alloc);
    for instance in instances.as_slice() {
        copies.push(copy_instance(alloc, instance)?)?;
    }
    Ok(copies)
}

pub(crate) fn copy_windows(
    alloc: Global,
    windows: &Sequence<Window>,
) -> Result<Sequence<Window>, NoMemory>
    ensures { IfOk result (λ copy. copy ≡ windows.now) }
{
    let mut copies = Sequence::new(alloc);
    for window in windows.as_slice() {
        copies.push(*window)?;
    }
    Ok(copies)
}

fn copy_instance(alloc: Global, instance: &DbInstance) -> Result<DbInstance, NoMemory>
    ensures { IfOk result (λ copy. copy ≡ instance.now) }
{
    Ok(DbInstance {
        path: copy_name(alloc, &instance.path)?,
        module: copy_name(alloc, &instance.module)?,
    })
}

pub(crate) fn copy_point(alloc: Global, point: &DbPoint) -> Result<DbPoint, NoMemory>
    ensures { IfOk result (λ copy. copy ≡ point.now) }
{
    Ok(DbPoint {
        address: Address {
            instance: point.address.instance,
            subject: copy_subject(alloc, &point.address.subject)?,
        },
        verdict: copy_verdict(alloc, &point.verdict)?,
    })
}

fn copy_subject(alloc: Global, subject: &Subject) -> Result<Subject, NoMemory>
    ensures { IfOk result (λ copy. copy ≡ subject.now) }
{
    Ok(match subject {
        Subject::Line { number, at, word } => Subject::Line {
            number: *number,
            at: *at,
            word: *word,
        },
        Subject::Logic {
            number,
            at,
            operator,
            case,
        } => Subject::Logic {
            number: *number,
            at: *at,
            operator: *operator,
            case: *case,
        },
        Subject::Toggle { name, index, rise } => Subject::Toggle {
            name: copy_name(alloc, name)?,
            index: *index,
            rise: *rise,
        },
        Subject::State { name, state } => Subject::State {
            name: copy_name(alloc, name)?,
            state: copy_name(alloc, state)?,
        },
        Subject::Arc { name, from, to } => Subject::Arc {
            name: copy_name(alloc, name)?,
            from: copy_name(alloc, from)?,
            to: copy_name(alloc, to)?,
        },
        Subject::Word { name, index, write } => Subject::Word {
            name: copy_name(alloc, name)?,
            index: *index,
            write: *write,
        },
    })
}

fn copy_verdict(alloc: Global, verdict: &DbVerdict) -> Result<DbVerdict, NoMemory>
    ensures { IfOk result (λ copy. copy ≡ verdict.now) }
{
    match verdict {
        DbVerdict::Hit => Ok(DbVerdict::Hit),
        DbVerdict::Missed => Ok(DbVerdict::Missed),
        DbVerdict::Undetermined { time, path } => Ok(DbVerdict::Undetermined {
            time: *time,
            path: copy_name(alloc, path)?,
        }),
    }
}
