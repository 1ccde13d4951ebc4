ghost use Rattle.run_views.specs.Laws.{KeptLaw, RunLaw};

/// A run on a store has the outcome of a run on the view as which the store is met, and what is kept is that of the view.
pub fn meets_law()
    ensures run { RunLaw }
    ensures kept { KeptLaw }
{}
