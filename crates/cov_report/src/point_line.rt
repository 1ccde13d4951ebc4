ghost use Rattle.std.specs.Prelude.{◌≡◌, ◌++◌, OnOk};
ghost use Rattle.coverage_db.specs.Text.{text_of_lines};
ghost use Rattle.cov_report.specs.Report.{point_lines, hit_lines, open_lines, bare_address, doubt_text};
ghost use Rattle.cov_report.specs.Views.{report_point};

use crate::counted::Counted;
use crate::{Level, Options};
use cov_host::{Name, NoMemory, Text};
use coverage_db::{DbVerdict, Subject, push_subject};
use itoa::Buffer;

/// Appends the line of a point, where the report lists it.
pub(crate) fn push_point(
    text: &mut Text,
    options: &Options,
    point: &Counted<'_>,
) -> Result<(), NoMemory>
    ensures { OnOk result (text.new ≡ text.old ++ text_of_lines (point_lines options.now (report_point point.now))) }
{
    if options.covered {
        push_hit(text, point.subject, point.verdict)
    } else {
        push_open(text, options.level, point.subject, point.verdict)
    }
}

/// Appends the line of a point that is hit, and nothing for another one.
fn push_hit(text: &mut Text, subject: &Subject, verdict: &DbVerdict) -> Result<(), NoMemory>
    ensures { OnOk result (text.new ≡ text.old ++ text_of_lines (hit_lines subject.now verdict.now)) }
{
    match verdict {
        DbVerdict::Hit => {
            text.extend_from_slice(b"hit: ")?;
            push_address(text, subject)?;
            text.push(b'\n')
        }
        DbVerdict::Missed | DbVerdict::Undetermined { .. } => Ok(()),
    }
}

/// Appends the line of a point that is not hit, and nothing for one that is.
fn push_open(
    text: &mut Text,
    level: Level,
    subject: &Subject,
    verdict: &DbVerdict,
) -> Result<(), NoMemory>
    ensures { OnOk result (text.new ≡ text.old ++ text_of_lines (open_lines level subject.now verdict.now)) }
{
    match verdict {
        DbVerdict::Hit => Ok(()),
        DbVerdict::Missed => {
            text.extend_from_slice(b"missed: ")?;
            push_address(text, subject)?;
            text.push(b'\n')
        }
        DbVerdict::Undetermined { time, path } => {
            text.extend_from_slice(b"undetermined: ")?;
            push_address(text, subject)?;
            push_doubt(text, level, *time, path)?;
            text.push(b'\n')
        }
    }
}

/// Appends the address of a point without its instance.
fn push_address(text: &mut Text, subject: &Subject) -> Result<(), NoMemory>
    ensures { OnOk result (text.new ≡ text.old ++ bare_address subject.now) }
{
    text.push(subject.letter())?;
    text.push(b' ')?;
    push_subject(text, subject)
}

/// Appends when and by what a point is left open, in a verbose report.
fn push_doubt(text: &mut Text, level: Level, time: u64, path: &Name) -> Result<(), NoMemory>
    ensures { OnOk result (text.new ≡ text.old ++ doubt_text level time path.now) }
{
    match level {
        Level::Summary | Level::Detailed => Ok(()),
        Level::Verbose => {
            text.extend_from_slice(b" at ")?;
            text.extend_from_slice(Buffer::new().format(time).as_bytes())?;
            text.extend_from_slice(b" by ")?;
            text.extend_from_slice(path.as_slice())
        }
    }
}
