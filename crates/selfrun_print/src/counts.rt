ghost use Rattle.std.specs.Prelude.{◌≡◌};
ghost use Rattle.selfrun_print.specs.Print.{count_in, is_hit, is_missed, is_undetermined};

use coverage_db::{DbPoint, DbVerdict};

/// How many points are hit.
pub(crate) fn hits(points: &[DbPoint]) -> usize
    ensures { result ≡ count_in is_hit points.now }
{
    points
        .iter()
        .filter(|point| matches!(&point.verdict, DbVerdict::Hit))
        .count()
}

/// How many points are missed.
pub(crate) fn misses(points: &[DbPoint]) -> usize
    ensures { result ≡ count_in is_missed points.now }
{
    points
        .iter()
        .filter(|point| matches!(&point.verdict, DbVerdict::Missed))
        .count()
}

/// How many points are undetermined.
pub(crate) fn undetermined(points: &[DbPoint]) -> usize
    ensures { result ≡ count_in is_undetermined points.now }
{
    points
        .iter()
        .filter(|point| matches!(&point.verdict, DbVerdict::Undetermined { .. }))
        .count()
}
