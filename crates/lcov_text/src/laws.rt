ghost use Rattle.std.specs.Prelude.{◌≡◌, ◌||◌};
ghost use Rattle.coverage_db.specs.declared.verdict.DbVerdict.{DbVerdict as SpecVerdict};
ghost use Rattle.coverage_db.specs.Merge.{joined};
ghost use Rattle.cov_report.specs.Report.{is_hit};

/// A merge joins verdicts as a tracefile does: the joined one is a hit exactly where one of the two is.
pub fn joined_hits()
    ensures { (one other : SpecVerdict) → is_hit (joined one other) ≡ (is_hit one || is_hit other) }
{}
