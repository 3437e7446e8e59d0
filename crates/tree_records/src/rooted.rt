// The trees whose cells can be read on the way up.
ghost use Rattle.std.specs.List.{AllByRecursion};
ghost use Rattle.std.specs.Ordering.{nat_cmp};
ghost use Rattle.std.specs.Prelude.{List, length, ℕ, ◌≡◌};
ghost use Rattle.cube_defs.specs.Rows.{Row};
ghost use Rattle.cube_defs.specs.Tree.{IsCanonical, Tree};
ghost use Rattle.qc_arena.specs.Map.{AreRooted};

/// In the canonical tree of some rows each node's parent is there, and has the node's cell without
/// its last value.
pub fn trees_of_rows_are_rooted()
    ensures { (dims measures : ℕ) (rows : List (Row ℕ)) (tree : Tree ℕ) →
        AllByRecursion (λ row. length row.tuple ≡ dims) rows
        → IsCanonical nat_cmp measures rows tree → AreRooted tree }
{}
