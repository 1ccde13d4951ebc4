ghost use Rattle.still_check.specs.Laws.{AgreesLaw, MovedLaw, StaysLaw};

/// Where none of the signals that have changed moves though it may not, what the dump says of what may not move is what was known.
pub fn stays_law()
    ensures { StaysLaw }
{}

/// Where the dump agrees with what is known of the signals that the Clocked have overwritten, no signal that a Clocked assigns
/// contradicts the step.
pub fn agrees_law()
    ensures { AgreesLaw }
{}

/// A signal that moves though it may not, or of which the Clocked have left something else than what the dump says, contradicts
/// the step.
pub fn moved_law()
    ensures { MovedLaw }
{}
