ghost use Rattle.std.specs.Prelude.{◌≡◌, IfOk, OnOk};
ghost use Rattle.coverage_db.specs.Merge.{joined, yields_to};

use crate::DbVerdict;
use crate::read_subject::to_name;
use cov_host::NoMemory;
use std::alloc::Global;
use std::cmp::Ordering;

impl DbVerdict {
    /// Joins another verdict of the same point: hit if either is, else undetermined if either is, with the
    /// lesser time and path, else missed.
    pub(crate) fn join(&mut self, alloc: Global, other: &DbVerdict) -> Result<(), NoMemory>
        ensures { OnOk result (self.new ≡ joined self.old other.now) }
    {
        if self.yields_to(other) {
            *self = other.copied(alloc)?;
        }
        Ok(())
    }

    /// Whether the other verdict of the same point is the one of both when they are joined.
    pub fn yields_to(&self, other: &DbVerdict) -> bool
        ensures { result ≡ yields_to self.now other.now }
    {
        match (self, other) {
            (DbVerdict::Hit, _) => false,
            (DbVerdict::Missed, _) => true,
            (DbVerdict::Undetermined { .. }, DbVerdict::Hit) => true,
            (DbVerdict::Undetermined { .. }, DbVerdict::Missed) => false,
            (
                DbVerdict::Undetermined { time, path },
                DbVerdict::Undetermined {
                    time: other_time,
                    path: other_path,
                },
            ) => {
                let order = time
                    .cmp(other_time)
                    .then(path.as_slice().cmp(other_path.as_slice()));
                order == Ordering::Greater
            }
        }
    }

    fn copied(&self, alloc: Global) -> Result<DbVerdict, NoMemory>
        ensures { IfOk result (λ verdict. verdict ≡ self.now) }
    {
        match self {
            DbVerdict::Hit => Ok(DbVerdict::Hit),
            DbVerdict::Missed => Ok(DbVerdict::Missed),
            DbVerdict::Undetermined { time, path } => Ok(DbVerdict::Undetermined {
                time: *time,
                path: to_name(alloc, path.as_slice())?,
            }),
        }
    }
}
