ghost use Rattle.step_values.specs.Laws.{BoundLaw, StillLaw};

/// After a closed step the dump's values of the bound signals are known.
pub fn bound_law()
    ensures { BoundLaw }
{}

/// Where the dump's values at the last closed step are known, so are those at the next one, of the signals whose code has
/// the same value.
pub fn still_law()
    ensures { StillLaw }
{}
