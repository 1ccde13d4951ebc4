ghost use Rattle.std.specs.Prelude.{◌≡◌, ◌↔◌, ℕ, List, ◌∷◌, Some, All, length, ◌||◌};
ghost use Rattle.coverage_db.specs.declared.db.Db.{Db as SpecDb};
ghost use Rattle.coverage_db.specs.declared.verdict.DbVerdict.TheVariants.{Hit};
ghost use Rattle.coverage_db.specs.declared.window.Window.{Window as SpecWindow};
ghost use Rattle.coverage_db.specs.Merge.{merged, merged_all, SameDesign, verdict_at, HitInOne};
ghost use Rattle.coverage_db.specs.Table.{IsTable, Rises};
ghost use Rattle.coverage_db.specs.Text.{IsTextOf};
ghost use Rattle.coverage_db.specs.Windows.{is_among, window_cmp};

use std::alloc::Global;

/// The laws of the merge. Of tables of one design each merge in any order has a point hit exactly where one of
/// them has it hit, and has the windows of all.
pub fn merge_laws()
    ensures commutative { (a b : SpecDb) → IsTable a → IsTable b → SameDesign a b → merged a b ≡ merged b a }
    ensures associative { (a b c : SpecDb) → merged (merged a b) c ≡ merged a (merged b c) }
    ensures idempotent { (a : SpecDb) → IsTable a → merged a a ≡ a }
    ensures rising { (a b : SpecDb) → Rises window_cmp (merged a b).windows }
    ensures windows { (a b : SpecDb) (w : SpecWindow) → is_among w (merged a b).windows ≡ (is_among w a.windows || is_among w b.windows) }
    ensures hit { (first : SpecDb) (others : List SpecDb) (place : ℕ) → All (λ db. length first.points ≡ length db.points) others
        → (verdict_at place (merged_all first others) ≡ Some Hit) ↔ HitInOne place (first ∷ others) }
{}

/// No two tables have one text, be it of this version or of version 1.
pub fn one_text(_alloc: Global)
    ensures { (a b : SpecDb) (text : List ℕ) → IsTable a → IsTable b → IsTextOf a text → IsTextOf b text → a ≡ b }
{}
