//! What follows from the definitions alone. The function does nothing.
ghost use Rattle.std.specs.Prelude.{◌≡◌, ℕ, List};
ghost use Rattle.tern_word.specs.declared.tables.Row.{Row};
ghost use Rattle.default_routes.specs.declared.stripping.Final.{Final};
ghost use Rattle.default_routes.specs.FinalTable.{IsFinalOf};
ghost use Rattle.default_routes.specs.KeptRows.{AreKept};

/// A table has at most one list of kept places, and table and target have at most one final table: so `shorten` has one
/// answer, whoever works it out.
pub fn final_tables_are_determined()
    ensures one_list { (rows : List Row) (xs ys : List ℕ) → AreKept rows xs → AreKept rows ys
        → xs ≡ ys }
    ensures one_table { (target : ℕ) (table : List Row) (f g : Final) → IsFinalOf target table f
        → IsFinalOf target table g → f ≡ g }
{}
