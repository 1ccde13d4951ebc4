ghost use Rattle.std.specs.Prelude.{◌≡◌, ◌↔◌, ◌<◌, ◌≤◌, ◌++◌, ◌∷◌, [], ℕ, List, IfOk, IsTrue, length, slice_index_or, slice_set};
ghost use Rattle.point_marks.specs.Marking.{IsMarked, IsVerdict, Marking, doubt_of, hit_of, with_doubt};
ghost use Rattle.point_marks.specs.declared.verdict.Doubt.{Doubt as TheDoubt};
ghost use Rattle.cover_points.specs.Listed.{points_of};
ghost use Rattle.cover_points.specs.Visits.{AreApart, AreOnce, ArePlaced, IsMachinePointAt, IsVisitOf};
ghost use Rattle.cover_points.specs.declared.listing.Points.{Points as ThePoints};
ghost use Rattle.cover_marks.specs.Marks.{AreMarksOf};
ghost use Rattle.cover_marks.specs.Owners.{IsSettled};

use crate::index::PointIndex;
use crate::open::OpenPoints;
use cov_host::NoMemory;
use cover_points::{MOST_POINTS, MachinePoint, Points, Visit};
use point_marks::{PointMarks, Verdict};
use std::alloc::Global;

/// What is known of each point of a list, by the number of the point, counted from 0.
pub struct Marks {
    index: PointIndex,
    verdicts: PointMarks,
    open_points: OpenPoints,
}

// Written out so that a crate which lets one go does not prove again how each of its parts is let go.
impl Drop for Marks {
    fn drop(self) {
        let Marks {
            index: _,
            verdicts: _,
            open_points: _,
        } = self;
    }
}

impl Marks {
    /// The marks of these points, none of which is marked yet.
    pub fn new(alloc: Global, points: &Points) -> Result<Self, NoMemory>
        requires apart { AreApart points.now }
        requires once { AreOnce points.now }
        requires placed { ArePlaced points.now }
        requires few { length (points_of points.now) ≤ MOST_POINTS }
        ensures points { IfOk result (AreMarksOf points.now) }
        ensures markings { IfOk result (λ marks. IsMarked [] marks.verdicts) }
    {
        let index = PointIndex::new(alloc, points)?;
        let verdicts = PointMarks::new(alloc, count_of(points))?;
        let open_points = OpenPoints::new(alloc, points)?;
        Ok(Marks {
            index,
            verdicts,
            open_points,
        })
    }

    /// The number of the point of a visit, and some number where no point has the visit. It takes constant time and no
    /// memory.
    pub fn point(&self, visit: &Visit) -> u32
        ensures { (points : ThePoints) (k : ℕ) → AreMarksOf points self.now → IsVisitOf points k visit.now → result ≡ k }
    {
        self.index.number(*visit)
    }

    /// The number of the point of a state or an arc of a machine, and some number where no point is of it. It takes constant
    /// time and no memory.
    pub fn machine_point(&self, point: MachinePoint) -> u32
        ensures { (points : ThePoints) (k : ℕ) → AreMarksOf points self.now → IsMachinePointAt points k point → result ≡ k }
    {
        self.index.machine_number(point)
    }

    /// The point was hit. It takes no memory.
    pub fn hit(&mut self, point: u32)
        requires { point < length self.old.verdicts }
        ensures points { (points : ThePoints) → AreMarksOf points self.old → AreMarksOf points self.new }
        ensures verdicts { self.new.verdicts ≡ slice_set self.old.verdicts point Verdict.Hit }
        ensures markings { (markings : List Marking) → IsMarked markings self.old.verdicts → IsMarked (markings ++ hit_of point ∷ []) self.new.verdicts }
    {
        let before = self.verdicts.verdict(point);
        self.open_points.hit(point, before);
        self.verdicts.hit(point);
    }

    /// The thing left the point open at this time. A point that was hit stays hit, and the first doubt is kept. It takes
    /// no memory.
    pub fn doubt(&mut self, point: u32, thing: u32, time: u64)
        requires { point < length self.old.verdicts }
        ensures points { (points : ThePoints) → AreMarksOf points self.old → AreMarksOf points self.new }
        ensures verdicts { let doubt : TheDoubt = record { thing = thing; time = time } in self.new.verdicts ≡ slice_set self.old.verdicts point (with_doubt doubt (slice_index_or self.old.verdicts point Verdict.Missed)) }
        ensures markings { let doubt : TheDoubt = record { thing = thing; time = time } in (markings : List Marking) → IsMarked markings self.old.verdicts → IsMarked (markings ++ doubt_of point doubt ∷ []) self.new.verdicts }
    {
        self.verdicts.doubt(point, thing, time);
    }

    /// How the point came out: hit where it was marked so, else undetermined by its first doubt, else
    /// missed. It takes no memory.
    pub fn verdict(&self, point: u32) -> Verdict
        requires { point < length self.now.verdicts }
        ensures value { result ≡ slice_index_or self.now.verdicts point Verdict.Missed }
        ensures markings { (markings : List Marking) → IsMarked markings self.now.verdicts → IsVerdict markings point result }
    {
        self.verdicts.verdict(point)
    }

    /// Whether all line and node points of a process are hit, as they are where it has no such point. It takes constant time and no
    /// memory.
    pub fn is_settled(&self, process: u32) -> bool
        ensures { (points : ThePoints) → AreMarksOf points self.now → (IsTrue result ↔ IsSettled points self.now.verdicts process) }
    {
        self.open_points.is_settled(process)
    }
}

/// How many points there are.
fn count_of(points: &Points) -> u32
    requires { length (points_of points.now) ≤ MOST_POINTS }
    ensures { result ≡ length (points_of points.now) }
{
    let count = points.lines.len()
        + points.nodes.len()
        + points.toggles.len()
        + points.states.len()
        + points.words.len();
    count as u32
}
