//! What every ranking is.
ghost use Rattle.std.specs.Prelude.{◌≡◌, ◌≢◌, ◌≤◌, ◌++◌, ◌∷◌, List, ℕ, Bool, All, length, map};
ghost use Rattle.coverage_db.specs.Merge.{merged_all};
ghost use Rattle.coverage_db.specs.declared.db.Db.{Db as Table};
ghost use Rattle.test_ranking.specs.Hits.{hits_of};
ghost use Rattle.test_ranking.specs.PointSet.{no_points, size};
ghost use Rattle.test_ranking.specs.Ranking.{IsRanking, hit_after};
ghost use Rattle.test_ranking.specs.declared.ranking.Ranking.{Ranking as TableRanking};
ghost use Rattle.test_ranking.specs.declared.ranking.Use.{Use as TableUse};

/// Tables have one ranking. Each table that it uses adds a point, and is used once. The points that the used tables
/// have hit are those that the merge of all tables has hit.
pub fn ranking_laws()
    ensures one { (points : ℕ) (tables : List (List Bool)) (a b : TableRanking) → IsRanking points tables a → IsRanking points tables b → a ≡ b }
    ensures adds { (points : ℕ) (tables : List (List Bool)) (ranking : TableRanking) → IsRanking points tables ranking → All (λ used. 1 ≤ used.added) ranking.used }
    ensures once { (points : ℕ) (tables : List (List Bool)) (ranking : TableRanking) (before after : List TableUse) (used : TableUse)
        → IsRanking points tables ranking → ranking.used ≡ before ++ used ∷ after → All (λ later. later.table ≢ used.table) after }
    ensures hit { (first : Table) (others : List Table) (ranking : TableRanking) → All (λ db. length first.points ≡ length db.points) others
        → IsRanking (length first.points) (map hits_of (first ∷ others)) ranking
        → hit_after (map hits_of (first ∷ others)) (no_points (length first.points)) ranking.used ≡ hits_of (merged_all first others) }
    ensures count { (first : Table) (others : List Table) (ranking : TableRanking) → All (λ db. length first.points ≡ length db.points) others
        → IsRanking (length first.points) (map hits_of (first ∷ others)) ranking
        → ranking.hit ≡ size (hits_of (merged_all first others)) }
{}
