//! Measures the sets of a step, each by its last round.

ghost use Rattle.design_model.specs.Lawful.{IsLawfulDesign};
ghost use Rattle.design_model.specs.View.{design_view};

use crate::{Figures, millis_since, nanos_since};
use cov_host::NoMemory;
use design_model::Design;
use early_sets::{Habit, Uncounted, Wakes};
use four_state::Bit;
use once_writers::once_writers;
use std::alloc::Global;
use std::rt::Clock;
use std::time::Instant;
use step_wakes::wakes_in_rounds;

/// Makes the sets of a design whose signals are all in the dump, and takes so many steps. The figures are the nanoseconds of
/// the steps, how many members and clean blocks they find, the milliseconds in which the sets are made, and the number of
/// processes.
pub(crate) fn measure(
    rt: &(impl AllocGlobal + Clock),
    design: &Design,
    steps: u32,
) -> Option<Figures>
    requires { IsLawfulDesign (design_view design.now) }
{
    let start = Instant::now(rt).ok()?;
    match wakes_of_design(rt.alloc(), design) {
        Ok(wakes) => {
            let mut wakes = wakes;
            measure_steps(rt, &mut wakes, start, steps)
        }
        Err(_) => None,
    }
}

/// The sets of a design whose signals are all in the dump.
fn wakes_of_design(alloc: Global, design: &Design) -> Result<Wakes, NoMemory>
    requires { IsLawfulDesign (design_view design.now) }
{
    let bound = vec![in alloc; true; design.signals.len()]?;
    let writers = once_writers(alloc, design, bound.as_slice())?;
    wakes_in_rounds(alloc, design, bound.as_slice(), writers)
}

/// Takes so many steps with the sets that were begun at `start`.
fn measure_steps(
    rt: &impl Clock,
    wakes: &mut Wakes,
    start: Instant,
    steps: u32,
) -> Option<Figures> {
    let made = millis_since(rt, start)?;
    let start = Instant::now(rt).ok()?;
    let derived = first_candidate(wakes);
    let found = take_steps(wakes, derived, steps);
    let nanos = nanos_since(rt, start)?;
    Some([nanos, u128::from(found), made, wakes.processes() as u128])
}

/// The first signal that may become single.
fn first_candidate(wakes: &Wakes) -> Option<u32> {
    for signal in 0..65_536 {
        if wakes.is_candidate(signal) {
            return Some(signal);
        }
    }
    None
}

/// Takes so many steps, and adds up what they find.
fn take_steps(wakes: &mut Wakes, derived: Option<u32>, steps: u32) -> u64 {
    let mut found = 0u64;
    for _ in 0..steps {
        found = found.wrapping_add(step(wakes, derived));
    }
    found
}

/// Takes a step in which the first signal rises and this one too, and counts what may move and the clean blocks, for which
/// it finds what is early.
fn step(wakes: &mut Wakes, derived: Option<u32>) -> u64 {
    if !wakes.is_told(0) {
        return 0;
    }
    wakes.clear(&mut Uncounted);
    wakes.note(0, Bit::Zero, Bit::One);
    if let Some(derived) = derived {
        if wakes.is_candidate(derived) {
            wakes.note(derived, Bit::Zero, Bit::One);
        }
    }
    wakes.settle(&mut Uncounted);
    let mut found = wakes.moves().len() as u64;
    for place in 0..wakes.woken().len() {
        found = found.wrapping_add(chosen(wakes, place));
    }
    found
}

/// Finds what is early for the process that was woken after so many others, if it is clean: 1 if it is, and 0 if not.
fn chosen(wakes: &mut Wakes, place: usize) -> u64 {
    let process = match wakes.woken().get(place) {
        Some(process) => u32::try_from(*process).unwrap_or(u32::MAX),
        None => return 0,
    };
    if process as usize >= wakes.processes() || wakes.trigger(process).is_none() {
        return 0;
    }
    wakes.choose(Habit::Free, process, &mut Uncounted);
    1
}
