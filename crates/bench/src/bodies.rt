//! Runs of a body on values that are partly known, to be measured from outside.

ghost use Rattle.design_model.specs.Lawful.{IsLawfulDesign};
ghost use Rattle.design_model.specs.View.{design_view};

use crate::Figures;
use crate::body_runs::sum_after;
use design_model::Design;
use std::alloc::Global;
use std::marker::Brand;
use std::sync::ledger::Blank;

/// Runs the first body of a design so many times, where one in `unknown` inputs is unknown, and none if that is 0. The figure is
/// the sum of what the outputs have then, each times its place.
pub(crate) fn measure(
    alloc: Global,
    design: &Design,
    rounds: u32,
    unknown: usize,
) -> Option<Figures>
    requires { IsLawfulDesign (design_view design.now) }
{
    let sum = sum_after::<Brand>(alloc, design, rounds, unknown, Blank::new(1))?;
    Some([sum, 0, 0, 0])
}
