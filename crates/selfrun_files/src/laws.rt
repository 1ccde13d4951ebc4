//! What is true of the dumps: how many times they give, and a worked case.
ghost use Rattle.selfrun_files.specs.Worked.{AreWorkedNumbers, IsWorkedDump, TimesLaw};

/// A dump with a number of steps gives two times for each, and one more.
pub fn written_times()
    ensures { TimesLaw }
{}

/// The worked case: the dump from the number 1 with two steps, whole.
pub fn worked_case()
    ensures numbers { AreWorkedNumbers }
    ensures dump { IsWorkedDump }
{}
