//! What follows from the definitions alone. The function does nothing.
ghost use Rattle.std.specs.Prelude.{◌≡◌, ℕ, List};
ghost use Rattle.tern_word.specs.declared.tables.Row.{Row};
ghost use Rattle.cover_merge.specs.Refinement.{Refines};
ghost use Rattle.cover_merge.specs.Covering.{IsChosen, HasNoChosen, Covers};
ghost use Rattle.cover_merge.specs.Merges.{sets_of};
ghost use Rattle.cover_merge.specs.declared.covering.Covered.{Covered};

/// Places have at most one refined set. A table has at most one chosen merge, and never one and none. So table and target
/// have at most one covered table with its merges, and `cover` has one answer.
pub fn coverings_are_determined()
    ensures one_refined { (rows : List Row) (places xs ys : List ℕ) → Refines rows places xs
        → Refines rows places ys → xs ≡ ys }
    ensures one_chosen { (rows : List Row) (xs ys : List ℕ) → IsChosen rows xs → IsChosen rows ys
        → xs ≡ ys }
    ensures chosen_or_none { (rows : List Row) (set : List ℕ) → IsChosen rows set → HasNoChosen rows
        → ⊥ }
    ensures one_covering { (target : ℕ) (rows : List Row) (xs ys : List (List ℕ)) (a b : List Row)
        → Covers target rows xs a → Covers target rows ys b → (xs ≡ ys) × (a ≡ b) }
    ensures one_answer { (target : ℕ) (table : List Row) (c e : Covered)
        → Covers target table (sets_of c.merges) c.table.rows
        → Covers target table (sets_of e.merges) e.table.rows → c ≡ e }
{}
