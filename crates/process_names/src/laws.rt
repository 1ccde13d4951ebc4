ghost use Rattle.process_names.specs.Laws.{BlockingNamesLaw, LevelNamesLaw, NonblockingNamesLaw};

/// The names that the walks find are those that the definitions of a design ask for: what a process mentions or lists,
/// and what its body assigns.
pub fn names_law()
    ensures level { LevelNamesLaw }
    ensures blocking { BlockingNamesLaw }
    ensures nonblocking { NonblockingNamesLaw }
{}
