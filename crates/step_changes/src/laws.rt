ghost use Rattle.step_changes.specs.Changes.{WokenLaw};

/// Of the Assigns and Combs those may be woken in a step that watch something that may move, and of the Clocked those that have a
/// waker.
pub fn woken_law()
    ensures { WokenLaw }
{}
