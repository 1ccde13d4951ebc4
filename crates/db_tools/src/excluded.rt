ghost use Rattle.std.specs.Prelude.{◌≡◌, length, IfErr, OnErr, OnOk};
ghost use Rattle.coverage_db.specs.Table.{IsTable};
ghost use Rattle.db_tools.specs.Excluded.{ExcludeRefuses, Excludes, RestoreRefuses, Restores};

use crate::ToolFault;
use coverage_db::Db;
use point_lookup::find_point;
use std::marker::Model;

/// A table of which some points are excluded from the totals. Contracts see the table and a mark for each of its
/// points, set where the point is excluded.
#[derive(Drop)]
pub struct Excluded {
    db: Db,
    marks: Vec<bool>,
}

impl Model for Excluded {
    ghost use Rattle.db_tools.specs.Excluded.{Exclusion, IsExclusion};

    ghost Value = { Exclusion };

    ghost view = { λ e. record { table = e.db; marks = e.marks.items } };

    ghost invariant = { λ e. IsExclusion (record { table = e.db; marks = e.marks.items }) };
}

impl Excluded {
    /// A table, and a mark for each of its points, set where the point is excluded.
    pub(crate) fn new(db: Db, marks: Vec<bool>) -> Excluded
        requires table { IsTable db }
        requires long { length marks.items ≡ length db.points }
        ensures table { result.table ≡ db }
        ensures marks { result.marks ≡ marks.items }
    {
        Excluded { db, marks }
    }

    /// The table.
    pub(crate) fn db(&self) -> &Db
        ensures value { result.now ≡ self.now.table }
        ensures table { IsTable result.now }
    {
        &self.db
    }

    /// A mark for each point, set where it is excluded.
    pub(crate) fn marks(&self) -> &[bool]
        ensures value { result.now ≡ self.now.marks }
        ensures long { length result.now ≡ length self.now.table.points }
    {
        &self.marks
    }

    /// Excludes the point with this address. It takes no memory.
    ///
    /// # Errors
    /// `NoPoint` where the table has no such point, `AlreadyOut` where it is excluded. Then nothing has changed.
    pub fn exclude(&mut self, address: &str) -> Result<(), ToolFault>
        ensures ok { OnOk result (Excludes address.now self.old self.new) }
        ensures err { IfErr result (ExcludeRefuses address.now self.old) }
        ensures same { OnErr result (self.new ≡ self.old) }
    {
        let Some(place) = find_point(&self.db, address.as_bytes()) else {
            return Err(ToolFault::NoPoint);
        };
        if self.marks[place] {
            return Err(ToolFault::AlreadyOut);
        }
        self.marks[place] = true;
        Ok(())
    }

    /// Restores the point with this address: it is no longer excluded. It takes no memory.
    ///
    /// # Errors
    /// `NoPoint` where the table has no such point, `NotOut` where it is not excluded. Then nothing has changed.
    pub fn restore(&mut self, address: &str) -> Result<(), ToolFault>
        ensures ok { OnOk result (Restores address.now self.old self.new) }
        ensures err { IfErr result (RestoreRefuses address.now self.old) }
        ensures same { OnErr result (self.new ≡ self.old) }
    {
        let Some(place) = find_point(&self.db, address.as_bytes()) else {
            return Err(ToolFault::NoPoint);
        };
        if !self.marks[place] {
            return Err(ToolFault::NotOut);
        }
        self.marks[place] = false;
        Ok(())
    }
}
