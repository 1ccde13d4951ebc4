//! What is true of each selfrun.
ghost use Rattle.covered_cli.specs.SelfrunLaws.{GoodSelfrunLaw, SelfrunTableLaw};

use selfrun_design::{code_law, source_law};
use selfrun_doubts::certain_law;
use selfrun_dump::{bound_law, says_law, text_law, times_law};
use selfrun_points::points_law;
use selfrun_runs::shown_law;
use std::alloc::Global;

/// The score of the two files is good, and no point of its table is undetermined.
pub(crate) fn selfrun_laws(_alloc: Global)
    ensures good { GoodSelfrunLaw }
    ensures table { SelfrunTableLaw }
{
    source_law();
    code_law();
    points_law();
    text_law();
    times_law();
    bound_law();
    says_law();
    shown_law();
    certain_law();
}
