//! What is measured of the design of a file.
ghost use Rattle.design_model.specs.Lawful.{IsLawfulDesign};
ghost use Rattle.design_model.specs.View.{design_view};

use crate::{Figures, bodies, points, wakes};
use design_model::Design;
use lent_designs::{DesignUser, lend_design};
use std::alloc::Global;
use std::fs;
use std::rt::{Clock, Files};

/// What is measured of a design.
#[derive(Clone, Copy)]
enum Part {
    /// Its points and their marks.
    Points,
    /// So many runs of its first body, where one in `unknown` inputs is unknown, and none if that is 0.
    Bodies { rounds: u32, unknown: u32 },
    /// So many steps by the sets of a step.
    Wakes { steps: u32 },
}

/// Measures a part of a design that is lent.
#[derive(Drop)]
struct Measurement<'a, R> {
    rt: &'a R,
    part: Part,
    figures: Option<Figures>,
}

impl<'a, R: AllocGlobal + Clock> DesignUser for Measurement<'a, R> {
    fn take(&mut self, _alloc: Global, design: &Design) {
        self.figures = measure_part(self.rt, design, self.part);
    }
}

/// The part with this name, with the numbers that follow it.
fn part_of(name: &str, second: u32, third: u32) -> Option<Part> {
    match name {
        "points" => Some(Part::Points),
        "bodies" => Some(Part::Bodies {
            rounds: second,
            unknown: third,
        }),
        "wakes" => Some(Part::Wakes { steps: second }),
        _ => None,
    }
}

/// Measures the part with this name of the design of a file.
pub(crate) fn measure(
    rt: &(impl AllocGlobal + Clock + Files),
    name: &str,
    path: &str,
    second: u32,
    third: u32,
) -> Option<Figures> {
    let part = part_of(name, second, third)?;
    let text = fs::read(rt, path).ok()?;
    let mut measurement = Measurement {
        rt,
        part,
        figures: None,
    };
    lend_design(rt.alloc(), text.as_slice(), &mut measurement);
    measurement.figures
}

/// Measures a part of a design.
fn measure_part(rt: &(impl AllocGlobal + Clock), design: &Design, part: Part) -> Option<Figures>
    requires { IsLawfulDesign (design_view design.now) }
{
    match part {
        Part::Points => points::measure(rt, design),
        Part::Bodies { rounds, unknown } => {
            bodies::measure(rt.alloc(), design, rounds, unknown as usize)
        }
        Part::Wakes { steps } => wakes::measure(rt, design, steps),
    }
}
