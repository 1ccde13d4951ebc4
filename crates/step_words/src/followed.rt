ghost use Rattle.std.specs.Prelude.{◌≡◌, ◌+◌, ◌<◌, ℕ, IfOk, length, true};
ghost use Rattle.design_model.specs.Design.{In};
ghost use Rattle.index_sets.specs.Rows.{row_at};
ghost use Rattle.written_words.specs.Written.{flag_at};

use cov_host::NoMemory;
use design_model::Design;
use index_sets::Rows;
use std::alloc::Global;

/// For each memory of a design whether some process watches it: `watched` has for each process the signals and memories that it
/// watches. It takes time for these.
pub fn followed_memories(
    alloc: Global,
    design: &Design,
    watched: &Rows<u32>,
) -> Result<Vec<bool>, NoMemory>
    requires { length watched.now ≡ length design.now.processes }
    ensures count { IfOk result (λ followed. length followed.items ≡ length design.now.memories) }
    ensures each { IfOk result (λ followed. (p m : ℕ) → p < length design.now.processes → In (length design.now.signals + m) (row_at watched.now p) → m < length design.now.memories → flag_at followed.items m ≡ true) }
{
    let mut followed = vec![in alloc; false; design.memories.len()]?;
    for process in 0..design.processes.len() {
        follow_all(
            watched.row(process),
            design.signals.len(),
            followed.as_mut_slice(),
        );
    }
    Ok(followed)
}

/// Follows the memories among these signals and memories, of which so many are signals.
fn follow_all(things: &[u32], signals: usize, followed: &mut [bool])
    ensures count { length followed.new ≡ length followed.old }
    ensures kept { (m : ℕ) → flag_at followed.old m ≡ true → flag_at followed.new m ≡ true }
    ensures each { (m : ℕ) → In (signals + m) things.now → m < length followed.old → flag_at followed.new m ≡ true }
{
    for thing in things {
        follow(*thing as usize, signals, followed);
    }
}

/// Follows a memory. A signal is passed over.
fn follow(thing: usize, signals: usize, followed: &mut [bool])
    ensures count { length followed.new ≡ length followed.old }
    ensures kept { (m : ℕ) → flag_at followed.old m ≡ true → flag_at followed.new m ≡ true }
    ensures here { (m : ℕ) → thing ≡ signals + m → m < length followed.old → flag_at followed.new m ≡ true }
{
    let Some(place) = thing.checked_sub(signals) else {
        return;
    };
    if place < followed.len() {
        followed[place] = true;
    }
}
