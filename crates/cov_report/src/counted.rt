ghost use Rattle.std.specs.Prelude.{◌≡◌, ◌<◌, ◌≤◌, ◌^◌, length, map, filter, bytes_eq, IfOk};
ghost use Rattle.coverage_db.specs.Table.{IsTable, Rises};
ghost use Rattle.coverage_db.specs.Order.{letter_rank};
ghost use Rattle.cov_report.specs.Order.{subject_cmp, written_cmp, place_cmp};
ghost use Rattle.cov_report.specs.Points.{report_points, point_of, is_counted, block_name as name_of};
ghost use Rattle.cov_report.specs.Views.{counted_cmp, joined_counted, report_point};
ghost use Rattle.std.proofs.Common.{refl};
ghost use Rattle.cov_report.specs.OrderLaws.{counted_total};

use crate::gather::{Ranked, gather};
use crate::{Metric, Options};
use cov_host::{Name, NoMemory};
use coverage_db::{Db, DbInstance, DbPoint, DbVerdict, SourceLine, Subject};
use std::alloc::Global;
use std::cmp::Ordering;

/// A point as a report counts it: without its instance, under the name of its block.
#[derive(Clone, Copy)]
pub(crate) struct Counted<'a> {
    pub(crate) name: &'a Name,
    pub(crate) subject: &'a Subject,
    pub(crate) verdict: &'a DbVerdict,
}

impl Ranked for Counted<'_> {
    ghost cmp = { counted_cmp };

    ghost join = { joined_counted };

    fn compare(&self, other: &Self) -> Ordering {
        self.name
            .as_slice()
            .cmp(other.name.as_slice())
            .then(compare_subjects(self.subject, other.subject))
    }

    fn joined(&self, other: &Self) -> Self {
        let verdict = if self.verdict.yields_to(other.verdict) {
            other.verdict
        } else {
            self.verdict
        };
        Counted { verdict, ..*self }
    }

    ghost total = { counted_total };

    ghost stays = { λ a b c. refl };
}

/// The order of two points without their instances: that of point lines, and then by what else is written.
fn compare_subjects(left: &Subject, right: &Subject) -> Ordering
    ensures { result ≡ subject_cmp left.now right.now }
{
    left.letter_rank()
        .cmp(&right.letter_rank())
        .then(left.compare(right))
        .then(compare_written(left, right))
}

/// By place, and then by the word or the operator.
fn compare_written(left: &Subject, right: &Subject) -> Ordering
    ensures { result ≡ written_cmp left.now right.now }
{
    match (left, right) {
        (
            Subject::Line { at, word, .. },
            Subject::Line {
                at: place,
                word: other,
                ..
            },
        ) => compare_places(*at, *place).then(word.text().as_bytes().cmp(other.text().as_bytes())),
        (
            Subject::Logic { at, operator, .. },
            Subject::Logic {
                at: place,
                operator: other,
                ..
            },
        ) => compare_places(*at, *place).then(
            operator.text().as_bytes().cmp(other.text().as_bytes()),
        ),
        _ => Ordering::Equal,
    }
}

/// By source, and then by line.
fn compare_places(left: SourceLine, right: SourceLine) -> Ordering
    ensures { result ≡ place_cmp left right }
{
    left.source
        .cmp(&right.source)
        .then(left.line.cmp(&right.line))
}

/// The points that a report counts, in order, equal ones of one block joined.
pub(crate) fn counted_points<'a>(
    alloc: Global,
    db: &'a Db,
    options: &Options,
) -> Result<Vec<Counted<'a>>, NoMemory>
    requires { IsTable db.now }
    ensures points { IfOk result (λ points. map report_point points.items ≡ report_points options.now db.now) }
    ensures rising { IfOk result (λ points. Rises counted_cmp points.items) }
    ensures few { IfOk result (λ points. length points.items < 2 ^ 32) }
{
    gather(alloc, chosen_points(alloc, db, options)?)
}

/// The points of the chosen metrics.
fn chosen_points<'a>(
    alloc: Global,
    db: &'a Db,
    options: &Options,
) -> Result<Vec<Counted<'a>>, NoMemory>
    requires { IsTable db.now }
    ensures points { IfOk result (λ points. map report_point points.items ≡ map (point_of options.now db.now.instances) (filter (is_counted options.now) db.now.points)) }
    ensures few { IfOk result (λ points. length points.items ≤ length db.now.points) }
{
    let instances = db.instances.as_slice();
    let mut points = Vec::with_capacity(alloc, db.points.len())?;
    for point in db.points.as_slice() {
        if Metric::of(&point.address.subject).is_chosen(options.letters) {
            points.push(point_in(instances, point, options))?;
        }
    }
    Ok(points)
}

/// A point of one of these instances as a report counts it.
fn point_in<'a>(instances: &'a [DbInstance], point: &'a DbPoint, options: &Options) -> Counted<'a>
    requires { point.now.address.instance < length instances.now }
    ensures { report_point result ≡ point_of options.now instances.now point.now }
{
    let instance = &instances[point.address.instance as usize];
    Counted {
        name: block_name(instance, options),
        subject: &point.address.subject,
        verdict: &point.verdict,
    }
}

/// What the block of an instance goes by: its path, or its module.
pub(crate) fn block_name<'a>(instance: &'a DbInstance, options: &Options) -> &'a Name
    ensures { result.now ≡ name_of options.now instance.now }
{
    if options.by_instance {
        &instance.path
    } else {
        &instance.module
    }
}

/// The points of the block with this name.
pub(crate) fn points_of<'p, 'a>(points: &'p [Counted<'a>], name: &Name) -> &'p [Counted<'a>]
    requires { Rises counted_cmp points.now }
    ensures points { map report_point result.now ≡ filter (λ point. bytes_eq point.name name.now) (map report_point points.now) }
    ensures short { length result.now ≤ length points.now }
{
    let name = name.as_slice();
    let start = points.partition_point(|point| point.name.as_slice().cmp(name).is_lt());
    let end = points.partition_point(|point| point.name.as_slice().cmp(name).is_le());
    &points[start..end]
}
