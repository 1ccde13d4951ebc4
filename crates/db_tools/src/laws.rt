//! What excluding and restoring points is.
ghost use Rattle.std.specs.Prelude.{◌≡◌, List, ℕ};
ghost use Rattle.db_tools.specs.Changes.{ExcludesAll, IsReordered, RestoresAll};
ghost use Rattle.db_tools.specs.Excluded.{ExcludeRefuses, Excludes, Exclusion, RestoreRefuses, Restores, excluded_text};
ghost use Rattle.db_tools.specs.declared.fault.ToolFault.{ToolFault as Refusal};

/// Restoring points after they were excluded, in whatever order, gives the value before, and so its text, and it can be done. A point
/// that can be excluded is not refused, and neither is one that can be restored.
pub fn exclude_laws()
    ensures restored { (addresses others : List (List ℕ)) (before out back : Exclusion)
        → ExcludesAll addresses before out → IsReordered addresses others → RestoresAll others out back → back ≡ before }
    ensures restorable { (addresses others : List (List ℕ)) (before out : Exclusion)
        → ExcludesAll addresses before out → IsReordered addresses others → RestoresAll others out before }
    ensures bytes { (addresses others : List (List ℕ)) (before out back : Exclusion)
        → ExcludesAll addresses before out → IsReordered addresses others → RestoresAll others out back → excluded_text back ≡ excluded_text before }
    ensures excludes { (address : List ℕ) (old new : Exclusion) (fault : Refusal) → Excludes address old new → ExcludeRefuses address old fault → ⊥ }
    ensures restores { (address : List ℕ) (old new : Exclusion) (fault : Refusal) → Restores address old new → RestoreRefuses address old fault → ⊥ }
{}
