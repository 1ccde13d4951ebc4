ghost use Rattle.std.specs.Prelude.{◌≡◌, ◌<◌, IfSome, Some, true};
ghost use Rattle.early_sets.specs.WakeState.{state_of, trigger_of};
ghost use Rattle.chosen_early.specs.Shared.{IsEarlyList, IsSameButEarly, IsShared};

use early_sets::{Habit, Uncounted, Wakes};

/// Finds what is early for the block with this number that is clean with this trigger, unless it was found for a block that
/// shares it: `shared` is the trigger of the last one, if others can share what is early for it. It takes no memory.
pub fn choose_early(
    sets: &mut Wakes,
    habit: Habit,
    process: u32,
    trigger: u32,
    shared: &mut Option<u32>,
)
    requires process { process < (state_of sets.old).tables.processes }
    requires trigger { trigger_of (state_of sets.old) process ≡ Some trigger }
    requires shared { IfSome shared.old (λ last. IsShared (state_of sets.old) habit last) }
    ensures rest { IsSameButEarly (state_of sets.old) (state_of sets.new) }
    ensures early { IsEarlyList (state_of sets.new) habit process trigger (state_of sets.new).early }
    ensures shared { IfSome shared.new (λ last. IsShared (state_of sets.new) habit last) }
{
    let shares = sets.shares_early(process);
    if shares && is_last(shared, trigger) {
        return;
    }
    sets.choose(habit, process, &mut Uncounted);
    *shared = if shares { Some(trigger) } else { None };
}

/// Whether this is the trigger of the last block.
fn is_last(shared: &Option<u32>, trigger: u32) -> bool
    ensures { result ≡ true → shared.now ≡ Some trigger }
{
    match shared {
        Some(last) => *last == trigger,
        None => false,
    }
}
