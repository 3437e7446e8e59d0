//! The shop's rows with texts for values. The byte order of the texts isn't the order of their
//! codes.

ghost use Rattle.std.specs.Prelude.{◌≡◌, Some, None, [], ◌∷◌, length, pos};
ghost use Rattle.cube_defs.specs.Text.{text_cmp};
ghost use Rattle.cube_defs.specs.Tree.{classes, nodes, tree_edges, links, tree};
ghost use Rattle.cube_defs.specs.Answers.{range, iceberg};
ghost use Rattle.cube_examples.specs.Shop.{base, plus4, base_table, plus4_table, cell, any, sums, hit, twos, high_means, low_sums, count_two, mean_high, sum_low};
ghost use Rattle.cube_examples.specs.Texts.{named, f_first};

/// The counts are the same as with codes.
pub fn text_counts()
    ensures classes { length (classes text_cmp (base named)) ≡ 6 }
    ensures nodes { length (nodes text_cmp (base named)) ≡ 11 }
    ensures tree_edges { tree_edges text_cmp (base named) ≡ 10 }
    ensures links { links text_cmp (base named) ≡ 5 }
{}

/// The counts with the fourth row are the same as with codes.
pub fn text_counts_of_plus4()
    ensures classes { length (classes text_cmp (plus4 named)) ≡ 9 }
    ensures nodes { length (nodes text_cmp (plus4 named)) ≡ 15 }
    ensures tree_edges { tree_edges text_cmp (plus4 named) ≡ 14 }
    ensures links { links text_cmp (plus4 named) ≡ 6 }
{}

/// Each record of the rows' tree, with f before s.
pub fn text_records()
    ensures { tree text_cmp 1 (base named) ≡ base_table named f_first }
{}

/// Each record of the tree with the fourth row.
pub fn text_records_of_plus4()
    ensures { tree text_cmp 1 (plus4 named) ≡ plus4_table named f_first }
{}

/// A range answer, in the order of texts. The box has them in another order.
pub fn text_range()
    ensures { range text_cmp 1 (base named) (Some (named.S2 ∷ named.S1 ∷ [])
        ∷ Some (named.P1 ∷ named.P2 ∷ []) ∷ None ∷ [])
        ≡ hit (cell (Some named.S1) (Some named.P1) any) (sums 1 (pos 6) (pos 6) (pos 6))
        ∷ hit (cell (Some named.S1) (Some named.P2) any) (sums 1 (pos 12) (pos 12) (pos 12))
        ∷ hit (cell (Some named.S2) (Some named.P1) any) (sums 1 (pos 9) (pos 9) (pos 9)) ∷ [] }
{}

/// Range answers over seasons have f first.
pub fn text_seasons()
    ensures { range text_cmp 1 (base named) (None ∷ None ∷ Some (named.s ∷ named.f ∷ []) ∷ [])
        ≡ hit (cell any any (Some named.f)) (sums 1 (pos 9) (pos 9) (pos 9))
        ∷ hit (cell any any (Some named.s)) (sums 2 (pos 18) (pos 6) (pos 12)) ∷ [] }
{}

/// Iceberg answers, falling by COUNT, falling by AVG, and rising by SUM.
pub fn text_icebergs()
    ensures by_count { iceberg text_cmp 1 (base named) count_two ≡ twos named }
    ensures by_mean { iceberg text_cmp 1 (base named) mean_high ≡ high_means named }
    ensures by_sum { iceberg text_cmp 1 (base named) sum_low ≡ low_sums named }
{}
