//! One run of a body.

ghost use Rattle.design_model.specs.Lawful.{IsLawfulDesign};
ghost use Rattle.design_model.specs.View.{design_view};

use crate::marks::Marks;
use crate::outcome::values_of;
use crate::process::{process_at, run_process};
use crate::stores::{keep_all, store_of};
use crate::things::all_things;
use crate::{Given, Outcome};
use assignments::Piece;
use block_runs::Certainty;
use cov_host::NoMemory;
use design_model::Design;
use std::alloc::Global;
use std::marker::Brand;
use std::sync::ledger::Blank;
use value_store::Queue;

/// Runs the body of a process once on what is given, in this way, and makes the updates that it queues. Of what is not given
/// nothing is known. None if there is no such process, or what is given does not fit the design.
pub fn run_block(
    alloc: Global,
    design: &Design,
    given: &[Given],
    process: usize,
    how: Certainty,
) -> Result<Option<Outcome>, NoMemory>
    requires { IsLawfulDesign (design_view design.now) }
{
    let Some(text) = process_at(design, process) else {
        return Ok(None);
    };
    let mut store = store_of(alloc, design)?;
    if !keep_all(&mut store, design, given) {
        return Ok(None);
    }
    let things = all_things(alloc, design)?;
    let mut pieces: Queue<Piece> = Queue::new(alloc, 128)?;
    let mut marks = Marks::new(alloc);
    run_process::<Brand>(
        &mut store,
        design,
        process,
        text,
        &things,
        how,
        &mut pieces,
        &mut marks,
        Blank::new(1),
    );
    store.flush();
    let values = values_of(alloc, &store, design)?;
    let marks = marks.taken()?;
    Ok(Some(Outcome { values, marks }))
}
