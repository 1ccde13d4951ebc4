//! How the marks begin, of which points the notes of a run are, and examples; there is no code.

ghost use Rattle.std.specs.Prelude.{◌≡◌, ◌∷◌, [], ℕ};
ghost use Rattle.body_replay.specs.Contract.{Certainty, Store, outcome};
ghost use Rattle.cover_marks.specs.Marks.{AreMarksOf};
ghost use Rattle.cover_marks.specs.declared.marks.Marks.{Marks};
ghost use Rattle.cover_points.specs.Listed.{points_of};
ghost use Rattle.cover_points.specs.declared.listing.Points.{Points};
ghost use Rattle.design_model.specs.Design.{Design, body_at};
ghost use Rattle.design_model.specs.FlipFlop.{line_two};
ghost use Rattle.design_model.specs.Lawful.{IsLawfulDesign};
ghost use Rattle.run_marks.specs.Example.{IsReportExample, IsSpotExample};
ghost use Rattle.run_marks.specs.Reported.{AreNotesOf, HasListed, HasReported, RunStart};
ghost use Rattle.written_words.specs.Written.{WrittenState};

/// The marks with which a run starts are those of the run before it notes anything, and so is the list of what is written.
pub fn start_law()
    ensures marks { (s : RunStart) (m : Marks) → AreMarksOf s.points m → s.before ≡ m.verdicts → HasReported s [] s.process s.points m }
    ensures written { (w : WrittenState) → HasListed w [] w }
{}

/// What a run of a process of a lawful design notes, in any way, is of points of which the process is a block.
pub fn notes_law()
    ensures { (d : Design) (p : ℕ) (st : Store) (how : Certainty) → IsLawfulDesign d → AreNotesOf d p (outcome d (body_at d p) st how).notes }
{}

/// A process that reads and writes a memory is a block of the points of its words.
pub fn spot_example()
    ensures { IsSpotExample }
{}

/// The verdict of the one point of a list after notes of its line, and of another.
pub fn report_example()
    ensures { (ps : Points) (m : Marks) → points_of ps ≡ line_two ∷ [] → AreMarksOf ps m → IsReportExample ps m }
{}
