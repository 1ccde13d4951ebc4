ghost use Rattle.std.specs.Prelude.{◌≡◌, ◌∷◌, ◌++◌, [], List, Option, length};
ghost use Rattle.block_runs.specs.Notes.{note_of};
ghost use Rattle.block_runs.specs.declared.notes.Doubt.{Doubt as RunDoubt};
ghost use Rattle.body_replay.specs.Contract.{Note};
ghost use Rattle.cover_points.specs.Listed.{points_of};
ghost use Rattle.run_marks.specs.Reported.{HasListed, RunStart};
ghost use Rattle.written_words.specs.Written.{WrittenState};

use crate::spots::{find_open, is_settled};
use block_runs::{BlockNotes, Doubt};
use cover_marks::Marks;
use cover_points::Points;
use term_replay::Spot;
use written_words::WrittenWords;

/// Takes what the runs of bodies note: as marks of points, where a spot of which there is no point is left out, and which words of
/// memories are written, or may be.
#[derive(Drop)]
pub struct MarkNotes<'a> {
    /// What is known of each point.
    pub marks: Marks,
    /// The points.
    pub points: &'a Points,
    /// The number of the process whose body runs.
    pub process: u32,
    /// The words that were written since they were cleared.
    pub written: WrittenWords,
    ghost listed: { length marks.verdicts ≡ length (points_of points.now) },
}

impl<'a> BlockNotes for MarkNotes<'a> {
    ghost use Rattle.run_marks.specs.Reported.{HasTaken, TakenStart};

    ghost Start = { TakenStart };

    ghost noted = { λ start notes x. HasTaken start notes x.process x.points.now x.marks x.written };

    fn note(&mut self, spot: Spot, doubt: Option<Doubt>) {
        list(&mut self.written, spot);
        self.mark(spot, doubt);
    }
}

impl<'a> MarkNotes<'a> {
    ghost use Rattle.run_marks.specs.Reported.{HasReported};

    /// Marks the point of a spot, if there is one that is not hit yet. A point that was hit stays hit, whatever is noted of it: so
    /// all that is noted of lines and nodes of a process is left out once its points are hit, and where the point with the number
    /// of a spot is hit, its record need not be read to see whether it is the point of this spot.
    fn mark(&mut self, spot: Spot, doubt: Option<Doubt>)
        ensures process { self.new.process ≡ self.old.process }
        ensures points { self.new.points.now ≡ self.old.points.now }
        ensures written { self.new.written ≡ self.old.written }
        ensures marked { (start : RunStart) (ns : List Note) → HasReported start ns self.old.process self.old.points.now self.old.marks → HasReported start (ns ++ note_of spot doubt ∷ []) self.new.process self.new.points.now self.new.marks }
    {
        if is_settled(&self.marks, self.process, spot) {
            return;
        }
        if let Some(point) = find_open(self.points, &self.marks, self.process, spot) {
            match doubt {
                None => self.marks.hit(point),
                Some(doubt) => self.marks.doubt(point, doubt.thing, doubt.time),
            }
        }
    }
}

/// Lists the word of a spot as written, if it is one of a word that is written.
fn list(written: &mut WrittenWords, spot: Spot)
    ensures { (before : WrittenState) (ns : List Note) (doubt : Option RunDoubt) → HasListed before ns written.old → HasListed before (ns ++ note_of spot doubt ∷ []) written.new }
{
    if let Spot::WordWrite { memory, index } = spot {
        written.add(memory, index);
    }
}
