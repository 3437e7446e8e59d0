//! Answers to range and iceberg queries over the shop's rows.

ghost use Rattle.std.specs.Prelude.{◌≡◌, Some, None, [], ◌∷◌, pos, negsuc};
ghost use Rattle.std.specs.Ordering.{nat_cmp};
ghost use Rattle.std.specs.declared.cmp.Ordering.TheVariants.{Less, Equal, Greater};
ghost use Rattle.cube_defs.specs.Answers.{range, iceberg, value_of, fraction_cmp, AggKind.{Count, Sum, Least, Greatest, Mean}};
ghost use Rattle.cube_examples.specs.Shop.{base, cell, any, sums, fraction, hit, twos, high_means, low_sums, count_two, mean_high, sum_low};
ghost use Rattle.cube_examples.specs.Codes.{shop_codes};

/// The cells of a box that cover a row, in cell order.
pub fn ranges()
    ensures one_product { range nat_cmp 1 (base shop_codes)
        (Some (shop_codes.S2 ∷ shop_codes.S1 ∷ []) ∷ Some (shop_codes.P1 ∷ []) ∷ None ∷ [])
        ≡ hit (cell (Some shop_codes.S1) (Some shop_codes.P1) any) (sums 1 (pos 6) (pos 6) (pos 6))
        ∷ hit (cell (Some shop_codes.S2) (Some shop_codes.P1) any) (sums 1 (pos 9) (pos 9) (pos 9))
        ∷ [] }
    ensures two_products { range nat_cmp 1 (base shop_codes)
        (Some (shop_codes.S2 ∷ shop_codes.S1 ∷ [])
        ∷ Some (shop_codes.P1 ∷ shop_codes.P2 ∷ []) ∷ None ∷ [])
        ≡ hit (cell (Some shop_codes.S1) (Some shop_codes.P1) any) (sums 1 (pos 6) (pos 6) (pos 6))
        ∷ hit (cell (Some shop_codes.S1) (Some shop_codes.P2) any)
        (sums 1 (pos 12) (pos 12) (pos 12))
        ∷ hit (cell (Some shop_codes.S2) (Some shop_codes.P1) any) (sums 1 (pos 9) (pos 9) (pos 9))
        ∷ [] }
    ensures no_product { range nat_cmp 1 (base shop_codes) (None ∷ Some [] ∷ None ∷ []) ≡ [] }
    ensures any_alone { range nat_cmp 1 (base shop_codes)
        (None ∷ Some (shop_codes.P1 ∷ []) ∷ None ∷ [])
        ≡ hit (cell any (Some shop_codes.P1) any) (sums 2 (pos 15) (pos 6) (pos 9)) ∷ [] }
{}

/// The classes of at least two rows, falling by count.
pub fn iceberg_by_count()
    ensures { iceberg nat_cmp 1 (base shop_codes) count_two ≡ twos shop_codes }
{}

/// The classes with a mean of at least 15/2, falling. Three classes have the mean 9 and are in cell
/// order. The class with the mean 15/2 is the last.
pub fn iceberg_by_mean()
    ensures { iceberg nat_cmp 1 (base shop_codes) mean_high ≡ high_means shop_codes }
{}

/// The classes with a sum of at most 15, rising.
pub fn iceberg_by_sum()
    ensures { iceberg nat_cmp 1 (base shop_codes) sum_low ≡ low_sums shop_codes }
{}

/// The value of each kind, in the measure's unit.
pub fn values()
    ensures count { value_of Count 2 (sums 2 (pos 1250) (pos 600) (pos 650)) ≡ fraction (pos 2) 1 }
    ensures sum { value_of (Sum 0) 2 (sums 2 (pos 1250) (pos 600) (pos 650)) ≡ fraction (pos 25) 2 }
    ensures least { value_of (Least 0) 2 (sums 2 (pos 1250) (pos 600) (pos 650))
        ≡ fraction (pos 6) 1 }
    ensures greatest { value_of (Greatest 0) 2 (sums 2 (pos 1250) (pos 600) (pos 650))
        ≡ fraction (pos 13) 2 }
    ensures mean { value_of (Mean 0) 2 (sums 2 (pos 1250) (pos 600) (pos 650))
        ≡ fraction (pos 25) 4 }
{}

/// Fractions compare by value.
pub fn fractions()
    ensures same { fraction_cmp (fraction (pos 15) 2) (fraction (pos 75) 10) ≡ Equal }
    ensures less { fraction_cmp (fraction (pos 2) 3) (fraction (pos 3) 4) ≡ Less }
    ensures below_zero { fraction_cmp (fraction (negsuc 0) 3) (fraction (negsuc 0) 2) ≡ Greater }
{}
