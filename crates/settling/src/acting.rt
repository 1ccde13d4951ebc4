//! Whether a combinational block has surely acted.

ghost use Rattle.std.specs.Prelude.{◌≡◌, ◌<◌, ◌≤◌, ◌&&◌, ◌||◌, if◌then◌else◌, length, nat_lt, not, slice_set};
ghost use Rattle.design_model.specs.View.{process_view};
ghost use Rattle.body_store.specs.body_calls.Own.{is_in};
ghost use Rattle.settled_runs.specs.block_runs.Notes.{way_of};
ghost use Rattle.step_parts.specs.replay_model.Step.{is_clean_way, is_comb as is_comb_of};
ghost use Rattle.settling.specs.Runs.{acts_by, sees_by};

use crate::settled::is_comb;
use design_model::Process;
use index_sets::IndexSet;
use settled_runs::Certainty;
use wake_bits::Wake;

/// Whether what a run of this certainty makes holds, in a step in which these signals have changed: of an Assign it does, and of a
/// Comb where it has surely acted in the window, which is kept among the flags. `wakes` is what the process watches, and so many
/// numbers are signals. It takes
/// time for that.
pub(crate) fn result_holds(
    acted: &mut [bool],
    number: usize,
    process: &Process,
    how: Certainty,
    wakes: &[Wake],
    signals: usize,
    changed: &IndexSet,
) -> bool
    requires place { number < length acted.old }
    requires below { signals ≤ changed.now.size }
    ensures result { result ≡ (not (is_comb_of (process_view process.now)) || acts_by acted.old number (way_of how) signals wakes.now changed.now.items) }
    ensures flags { acted.new ≡ (if is_comb_of (process_view process.now) then slice_set acted.old number result else acted.old) }
{
    if !is_comb(process) {
        return true;
    }
    let acts = surely_acts(acted[number], how, wakes, signals, changed);
    acted[number] = acts;
    acts
}

/// Whether what a run makes is kept: where it holds, of a process that is ordered.
pub(crate) fn is_kept(is_ordered: bool, holds: bool) -> bool
    ensures { result ≡ (is_ordered && holds) }
{
    is_ordered && holds
}

/// Whether a Comb has surely acted: before, by a sure change of what wakes it, or by a change of a signal that it mentions.
fn surely_acts(
    has_acted: bool,
    how: Certainty,
    wakes: &[Wake],
    signals: usize,
    changed: &IndexSet,
) -> bool
    requires { signals ≤ changed.now.size }
    ensures { result ≡ (has_acted || (is_clean_way (way_of how) || sees_by signals wakes.now changed.now.items)) }
{
    if has_acted {
        return true;
    }
    if is_clean(how) {
        return true;
    }
    sees_change(wakes, signals, changed)
}

/// Whether the process surely runs.
fn is_clean(how: Certainty) -> bool
    ensures { result ≡ is_clean_way (way_of how) }
{
    matches!(how, Certainty::Clean { .. })
}

/// Whether a signal that the body mentions has changed.
fn sees_change(wakes: &[Wake], signals: usize, changed: &IndexSet) -> bool
    requires { signals ≤ changed.now.size }
    ensures { result ≡ sees_by signals wakes.now changed.now.items }
{
    for wake in wakes {
        if sees(wake, signals, changed) {
            return true;
        }
    }
    false
}

/// Whether the body mentions this thing, and it has changed.
fn sees(wake: &Wake, signals: usize, changed: &IndexSet) -> bool
    requires { signals ≤ changed.now.size }
    ensures { result ≡ (wake.now.mentioned && (nat_lt wake.now.thing signals && is_in changed.now.items wake.now.thing)) }
{
    if !wake.mentioned {
        return false;
    }
    is_changed(wake.thing as usize, signals, changed)
}

/// Whether a signal or memory is a signal that has changed.
fn is_changed(thing: usize, signals: usize, changed: &IndexSet) -> bool
    requires { signals ≤ changed.now.size }
    ensures { result ≡ (nat_lt thing signals && is_in changed.now.items thing) }
{
    if thing < signals {
        return changed.contains(thing);
    }
    false
}
