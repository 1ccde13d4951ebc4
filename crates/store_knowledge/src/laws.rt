ghost use Rattle.store_knowledge.specs.Laws.{NewLaw, OwnLaw, ReadLaw, ViewLaw};

/// The run of a block meets a store as the definition of a run has it, bodies read what is known, and each signal and memory
/// is to blame for itself.
pub fn knows_law()
    ensures view { ViewLaw }
    ensures read { ReadLaw }
    ensures own { OwnLaw }
{}

/// A new store knows nothing, where it has room for the run of each body.
pub fn new_store_law()
    ensures { NewLaw }
{}
