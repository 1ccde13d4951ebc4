ghost use Rattle.write_log.specs.Common.{CommonLaw};

/// What the end of an undecided test leaves of each signal is what the definition of a run leaves of it.
pub fn common_law()
    ensures { CommonLaw }
{}
