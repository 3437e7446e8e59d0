//! Covered rows, closures, classes and aggregates of the shop's rows.

ghost use Rattle.std.specs.Prelude.{◌≡◌, Some, None, true, false, [], ◌∷◌, pos, negsuc, map};
ghost use Rattle.std.specs.Ordering.{nat_cmp, eq_by_cmp};
ghost use Rattle.cube_defs.specs.Rows.{cov, closure, agg, part_of, is_class, is_lower_bound, is_node, mean_of, lowest_terms};
ghost use Rattle.cube_defs.specs.Answers.{lower_bounds};
ghost use Rattle.cube_examples.specs.Shop.{base, plus4, cell, any, sums, fraction, row};
ghost use Rattle.cube_examples.specs.Codes.{shop_codes};

/// The rows that a cell covers, in their order.
pub fn covered_rows()
    ensures some { map (λ r. r.id)
        (cov (eq_by_cmp nat_cmp) (base shop_codes) (cell (Some shop_codes.S1) any any))
        ≡ 1 ∷ 2 ∷ [] }
    ensures all { map (λ r. r.id) (cov (eq_by_cmp nat_cmp) (base shop_codes) (cell any any any)) ≡ 1
        ∷ 2 ∷ 3 ∷ [] }
    ensures none { cov (eq_by_cmp nat_cmp) (base shop_codes)
        (cell any (Some shop_codes.P2) (Some shop_codes.f)) ≡ [] }
{}

/// The closure has the values that all covered rows share.
pub fn closures()
    ensures all { closure (eq_by_cmp nat_cmp) (base shop_codes) (cell any any any)
        ≡ Some (cell any any any) }
    ensures store { closure (eq_by_cmp nat_cmp) (base shop_codes)
        (cell (Some shop_codes.S1) any any)
        ≡ Some (cell (Some shop_codes.S1) any (Some shop_codes.s)) }
    ensures season { closure (eq_by_cmp nat_cmp) (base shop_codes)
        (cell any any (Some shop_codes.s))
        ≡ Some (cell (Some shop_codes.S1) any (Some shop_codes.s)) }
    ensures one_row { closure (eq_by_cmp nat_cmp) (base shop_codes)
        (cell any (Some shop_codes.P2) any)
        ≡ Some (cell (Some shop_codes.S1) (Some shop_codes.P2) (Some shop_codes.s)) }
    ensures no_row { closure (eq_by_cmp nat_cmp) (base shop_codes)
        (cell any (Some shop_codes.P2) (Some shop_codes.f)) ≡ None }
{}

/// A class is its own closure.
pub fn class_or_not()
    ensures class { is_class (eq_by_cmp nat_cmp) (base shop_codes)
        (cell any (Some shop_codes.P1) any) ≡ true }
    ensures smaller { is_class (eq_by_cmp nat_cmp) (base shop_codes)
        (cell (Some shop_codes.S1) any any) ≡ false }
    ensures covers_none { is_class (eq_by_cmp nat_cmp) (base shop_codes)
        (cell any (Some shop_codes.P2) (Some shop_codes.f)) ≡ false }
{}

/// A node is the prefix of a class through the node's last value.
pub fn node_or_not()
    ensures class { is_node (eq_by_cmp nat_cmp) (base shop_codes)
        (cell any (Some shop_codes.P1) any) ≡ true }
    ensures front { is_node (eq_by_cmp nat_cmp) (base shop_codes)
        (cell (Some shop_codes.S2) any any) ≡ true }
    ensures value_before { is_node (eq_by_cmp nat_cmp) (base shop_codes)
        (cell any any (Some shop_codes.s)) ≡ false }
    ensures gap { is_node (eq_by_cmp nat_cmp) (base shop_codes)
        (cell (Some shop_codes.S2) any (Some shop_codes.f)) ≡ false }
    ensures covers_none { is_node (eq_by_cmp nat_cmp) (base shop_codes)
        (cell (Some shop_codes.S1) any (Some shop_codes.f)) ≡ false }
{}

/// The lower bounds of a class are its most general cells.
pub fn lower_bounds_of_a_class()
    ensures two { lower_bounds nat_cmp (base shop_codes)
        (cell (Some shop_codes.S1) any (Some shop_codes.s))
        ≡ cell any any (Some shop_codes.s) ∷ cell (Some shop_codes.S1) any any ∷ [] }
    ensures itself { lower_bounds nat_cmp (base shop_codes) (cell any any any)
        ≡ cell any any any ∷ [] }
    ensures not_the_class { is_lower_bound (eq_by_cmp nat_cmp) (base shop_codes)
        (cell (Some shop_codes.S1) any (Some shop_codes.s))
        (cell (Some shop_codes.S1) any (Some shop_codes.s)) ≡ false }
    ensures no_class { lower_bounds nat_cmp (base shop_codes)
        (cell (Some shop_codes.S1) any any) ≡ [] }
    ensures after_plus4 { lower_bounds nat_cmp (plus4 shop_codes)
        (cell (Some shop_codes.S1) (Some shop_codes.P2) (Some shop_codes.s))
        ≡ cell any (Some shop_codes.P2) (Some shop_codes.s)
        ∷ cell (Some shop_codes.S1) (Some shop_codes.P2) any ∷ [] }
{}

/// COUNT, SUM, MIN and MAX of the covered rows.
pub fn aggregates()
    ensures all { agg (eq_by_cmp nat_cmp) 1 (base shop_codes) (cell any any any) ≡ sums 3 (pos 27)
        (pos 6) (pos 12) }
    ensures store { agg (eq_by_cmp nat_cmp) 1 (base shop_codes) (cell (Some shop_codes.S1) any any)
        ≡ sums 2 (pos 18) (pos 6) (pos 12) }
    ensures product { agg (eq_by_cmp nat_cmp) 1 (plus4 shop_codes)
        (cell any (Some shop_codes.P2) any) ≡ sums 2 (pos 15) (pos 3) (pos 12) }
    ensures twins { agg (eq_by_cmp nat_cmp) 1 (row 1 0 0 0 (pos 5) ∷ row 2 0 0 0 (negsuc 4) ∷ [])
        (cell any any any) ≡ sums 2 (pos 0) (negsuc 4) (pos 5) }
    ensures no_row { agg (eq_by_cmp nat_cmp) 1 (base shop_codes)
        (cell any (Some shop_codes.P2) (Some shop_codes.f)) ≡ sums 0 (pos 0) (pos 0) (pos 0) }
{}

/// Means in lowest terms: 27/3, 15/2, (5 - 5)/2, and 12.50/2, whose amounts are in hundredths.
pub fn means()
    ensures whole { mean_of (part_of (pos 6 ∷ pos 12 ∷ pos 9 ∷ [])) 3 0 ≡ fraction (pos 9) 1 }
    ensures half { mean_of (part_of (pos 12 ∷ pos 3 ∷ [])) 2 0 ≡ fraction (pos 15) 2 }
    ensures nothing { mean_of (part_of (pos 5 ∷ negsuc 4 ∷ [])) 2 0 ≡ fraction (pos 0) 1 }
    ensures hundredths { mean_of (part_of (pos 600 ∷ pos 650 ∷ [])) 2 2 ≡ fraction (pos 25) 4 }
    ensures below_zero { lowest_terms (negsuc 5) 4 ≡ fraction (negsuc 2) 2 }
{}
