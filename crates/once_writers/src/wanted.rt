//! The event signals that the dump gives.

ghost use Rattle.std.specs.Prelude.{◌≡◌, ◌<◌, ◌≤◌, ◌&&◌, ℕ, IfOk, length};
ghost use Rattle.once_writers.specs.Lists.{is_listed};
ghost use Rattle.once_writers.specs.Writers.{flag_at};

use cov_host::NoMemory;
use index_sets::Rows;
use std::alloc::Global;

/// For so many signals and memories whether the dump gives it and some process lists one of its edges: the rows have
/// the processes that list a posedge and a negedge.
pub(crate) fn wanted_signals(
    alloc: Global,
    bound: &[bool],
    rising: &Rows<u32>,
    falling: &Rows<u32>,
    things: usize,
) -> Result<Vec<bool>, NoMemory>
    requires rising { things ≤ length rising.now }
    requires falling { things ≤ length falling.now }
    ensures count { IfOk result (λ flags. length flags.items ≡ things) }
    ensures flags { IfOk result (λ flags. (x : ℕ) → x < things → flag_at flags.items x ≡ (flag_at bound.now x && is_listed rising.now falling.now x)) }
{
    let mut flags = Vec::new(alloc);
    for thing in 0..things {
        flags.push(is_set(bound, thing) && is_event(rising, falling, thing))?;
    }
    Ok(flags)
}

/// Whether one of two tables has an item in this row.
fn is_event(rising: &Rows<u32>, falling: &Rows<u32>, thing: usize) -> bool
    requires rising { thing < length rising.now }
    requires falling { thing < length falling.now }
    ensures { result ≡ is_listed rising.now falling.now thing }
{
    !rising.row(thing).is_empty() || !falling.row(thing).is_empty()
}

/// Whether a flag is set. There is no flag after the last one.
pub(crate) fn is_set(flags: &[bool], place: usize) -> bool
    ensures { result ≡ flag_at flags.now place }
{
    place < flags.len() && flags[place]
}
