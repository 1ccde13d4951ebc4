//! What the commands do, whatever the order of the files is.
ghost use Rattle.std.specs.Prelude.{◌≡◌, ◌∷◌, List, All};
ghost use Rattle.coverage_db.specs.Merge.{SameDesign, merged_all};
ghost use Rattle.coverage_db.specs.Table.{IsTable};
ghost use Rattle.coverage_db.specs.declared.db.Db.{Db as Table};
ghost use Rattle.database_commands.specs.Merging.{IsReordered};

/// Tables of one design have one merge, in whatever order they are merged.
pub fn any_order()
    ensures { (first second : Table) (others more : List Table)
        → All IsTable (first ∷ others) → All (SameDesign first) others
        → IsReordered (first ∷ others) (second ∷ more) → merged_all first others ≡ merged_all second more }
{}
