ghost use Rattle.std.specs.Prelude.{◌≡◌, ◌<◌, ◌++◌, ◌∷◌, [], List, IfOk, length, replicate, slice_index_or, slice_set};
ghost use Rattle.point_marks.specs.Marking.{IsMarked, IsVerdict, Marking, doubt_of, hit_of, with_doubt};

use crate::{Doubt, Verdict};
use cov_host::NoMemory;
use std::alloc::Global;
use std::marker::Model;

/// A verdict for each point, by its number.
#[derive(Drop)]
pub struct PointMarks {
    verdicts: Vec<Verdict>,
}

impl Model for PointMarks {
    ghost use Rattle.std.specs.Prelude.{List};
    ghost use Rattle.point_marks.specs.declared.verdict.Verdict.{Verdict};

    ghost Value = { List Verdict };

    ghost view = { λ m. m.verdicts.items };
}

impl PointMarks {
    /// Marks of `count` points, none of which is marked yet.
    pub fn new(alloc: Global, count: u32) -> Result<Self, NoMemory>
        ensures verdicts { IfOk result (λ marks. marks ≡ replicate count Verdict.Missed) }
        ensures markings { IfOk result (IsMarked []) }
    {
        let verdicts = vec![in alloc; Verdict::Missed; count as usize]?;
        Ok(PointMarks { verdicts })
    }

    /// The point was hit. It takes no memory.
    pub fn hit(&mut self, point: u32)
        requires { point < length self.old }
        ensures verdicts { self.new ≡ slice_set self.old point Verdict.Hit }
        ensures markings { (markings : List Marking) → IsMarked markings self.old → IsMarked (markings ++ hit_of point ∷ []) self.new }
    {
        self.verdicts[point as usize] = Verdict::Hit;
    }

    /// The thing left the point open at this time. A point that was hit stays hit, and the first doubt is kept. It
    /// takes no memory.
    pub fn doubt(&mut self, point: u32, thing: u32, time: u64)
        requires { point < length self.old }
        ensures verdicts { let doubt : Doubt = record { thing = thing; time = time } in self.new ≡ slice_set self.old point (with_doubt doubt (slice_index_or self.old point Verdict.Missed)) }
        ensures markings { let doubt : Doubt = record { thing = thing; time = time } in (markings : List Marking) → IsMarked markings self.old → IsMarked (markings ++ doubt_of point doubt ∷ []) self.new }
    {
        let place = point as usize;
        self.verdicts[place] = self.verdicts[place].with_doubt(Doubt { thing, time });
    }

    /// How the point came out: hit where it was marked so, else undetermined by its first doubt, else
    /// missed. It takes no memory.
    pub fn verdict(&self, point: u32) -> Verdict
        requires { point < length self.now }
        ensures value { result ≡ slice_index_or self.now point Verdict.Missed }
        ensures markings { (markings : List Marking) → IsMarked markings self.now → IsVerdict markings point result }
    {
        self.verdicts[point as usize]
    }
}
