ghost use Rattle.std.specs.Prelude.{◌≡◌, ◌≤◌, ◌==◌, ◌&&◌, length, map};
ghost use Rattle.coverage_db.specs.Order.{letter_rank};
ghost use Rattle.cov_report.specs.Metrics.{metric_rank};
ghost use Rattle.cov_report.specs.Report.{count_of, of_metric, is_hit, is_missed, is_undetermined};
ghost use Rattle.cov_report.specs.Views.{report_point};

use crate::Metric;
use crate::counted::Counted;
use coverage_db::DbVerdict;

/// How many points came out in each way.
#[derive(Clone, Copy)]
pub(crate) struct Counts {
    pub(crate) hit: usize,
    pub(crate) missed: usize,
    pub(crate) undetermined: usize,
}

/// The counts of points.
pub(crate) fn counts_of(points: &[Counted<'_>]) -> Counts
    ensures hit { result.hit ≡ count_of is_hit (map report_point points.now) }
    ensures missed { result.missed ≡ count_of is_missed (map report_point points.now) }
    ensures undetermined { result.undetermined ≡ count_of is_undetermined (map report_point points.now) }
    ensures few_hit { result.hit ≤ length points.now }
    ensures few_missed { result.missed ≤ length points.now }
    ensures few_undetermined { result.undetermined ≤ length points.now }
{
    Counts {
        hit: points.iter().filter(|point| is_hit(point.verdict)).count(),
        missed: points
            .iter()
            .filter(|point| is_missed(point.verdict))
            .count(),
        undetermined: points
            .iter()
            .filter(|point| is_undetermined(point.verdict))
            .count(),
    }
}

/// The counts of the points of a metric.
pub(crate) fn counts_in(points: &[Counted<'_>], metric: Metric) -> Counts
    ensures hit { result.hit ≡ count_of is_hit (of_metric metric (map report_point points.now)) }
    ensures missed { result.missed ≡ count_of is_missed (of_metric metric (map report_point points.now)) }
    ensures undetermined { result.undetermined ≡ count_of is_undetermined (of_metric metric (map report_point points.now)) }
    ensures few_hit { result.hit ≤ length points.now }
    ensures few_missed { result.missed ≤ length points.now }
    ensures few_undetermined { result.undetermined ≤ length points.now }
{
    Counts {
        hit: points
            .iter()
            .filter(|point| is_hit_of(point, metric))
            .count(),
        missed: points
            .iter()
            .filter(|point| is_missed_of(point, metric))
            .count(),
        undetermined: points
            .iter()
            .filter(|point| is_undetermined_of(point, metric))
            .count(),
    }
}

/// Whether the point counts in the metric.
fn is_of(point: &Counted<'_>, metric: Metric) -> bool
    ensures { result ≡ (letter_rank point.now.subject.now == metric_rank metric) }
{
    point.subject.letter_rank() == metric.rank()
}

fn is_hit_of(point: &Counted<'_>, metric: Metric) -> bool
    ensures { result ≡ (letter_rank point.now.subject.now == metric_rank metric && is_hit point.now.verdict.now) }
{
    is_of(point, metric) && is_hit(point.verdict)
}

fn is_missed_of(point: &Counted<'_>, metric: Metric) -> bool
    ensures { result ≡ (letter_rank point.now.subject.now == metric_rank metric && is_missed point.now.verdict.now) }
{
    is_of(point, metric) && is_missed(point.verdict)
}

fn is_undetermined_of(point: &Counted<'_>, metric: Metric) -> bool
    ensures { result ≡ (letter_rank point.now.subject.now == metric_rank metric && is_undetermined point.now.verdict.now) }
{
    is_of(point, metric) && is_undetermined(point.verdict)
}

fn is_hit(verdict: &DbVerdict) -> bool
    ensures { result ≡ is_hit verdict.now }
{
    match verdict {
        DbVerdict::Hit => true,
        DbVerdict::Missed => false,
        DbVerdict::Undetermined { .. } => false,
    }
}

fn is_missed(verdict: &DbVerdict) -> bool
    ensures { result ≡ is_missed verdict.now }
{
    match verdict {
        DbVerdict::Hit => false,
        DbVerdict::Missed => true,
        DbVerdict::Undetermined { .. } => false,
    }
}

fn is_undetermined(verdict: &DbVerdict) -> bool
    ensures { result ≡ is_undetermined verdict.now }
{
    match verdict {
        DbVerdict::Hit => false,
        DbVerdict::Missed => false,
        DbVerdict::Undetermined { .. } => true,
    }
}
