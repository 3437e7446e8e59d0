//! Cells of three dimensions.

ghost use Rattle.std.specs.Prelude.{◌≡◌, Some, None, true, false, codes};
ghost use Rattle.std.specs.Ordering.{nat_cmp, eq_by_cmp};
ghost use Rattle.std.specs.declared.cmp.Ordering.TheVariants.{Less, Equal, Greater};
ghost use Rattle.cube_defs.specs.Text.{text_cmp, text_eq};
ghost use Rattle.cube_defs.specs.Cell.{last, depth, upto, with_value, without, leq, meet, cell_eq, cell_cmp, mask};
ghost use Rattle.cube_examples.specs.Shop.{any};
ghost use Rattle.cube_examples.specs.Codes.{code_cell};

/// The last dimension with a value.
pub fn last_dimension()
    ensures none { last (code_cell any any any) ≡ None }
    ensures middle { last (code_cell (Some 3) (Some 5) any) ≡ Some 1 }
    ensures behind_any { last (code_cell any any (Some 7)) ≡ Some 2 }
    ensures depth { depth (code_cell any (Some 5) any) ≡ 2 }
{}

/// The prefix of a cell, a cell with one more value, and a cell with one less.
pub fn parts_of_a_cell()
    ensures upto_middle { upto (code_cell (Some 3) any (Some 7)) 1 ≡ code_cell (Some 3) any any }
    ensures upto_last { upto (code_cell (Some 3) any (Some 7)) 2 ≡ code_cell (Some 3) any (Some 7) }
    ensures more { with_value (code_cell (Some 3) any any) 1 5 ≡ code_cell (Some 3) (Some 5) any }
    ensures fewer { without (code_cell (Some 3) (Some 5) any) 0 ≡ code_cell any (Some 5) any }
{}

/// A cell generalizes another if the other has each of its values.
pub fn order_of_cells()
    ensures more_general { leq (eq_by_cmp nat_cmp) (code_cell any (Some 5) any)
        (code_cell (Some 3) (Some 5) any) ≡ true }
    ensures more_special { leq (eq_by_cmp nat_cmp) (code_cell (Some 3) (Some 5) any)
        (code_cell any (Some 5) any) ≡ false }
    ensures other_value { leq (eq_by_cmp nat_cmp) (code_cell any (Some 5) any)
        (code_cell (Some 3) (Some 6) any) ≡ false }
    ensures itself { leq (eq_by_cmp nat_cmp) (code_cell any (Some 5) any)
        (code_cell any (Some 5) any) ≡ true }
{}

/// The meet has the values on which both agree.
pub fn meet_of_cells()
    ensures { meet (eq_by_cmp nat_cmp) (code_cell (Some 3) (Some 5) any)
        (code_cell (Some 3) (Some 6) (Some 7)) ≡ code_cell (Some 3) any any }
{}

/// Two cells are equal if all their entries are.
pub fn equality_of_cells()
    ensures same { cell_eq (eq_by_cmp nat_cmp) (code_cell (Some 3) any (Some 7))
        (code_cell (Some 3) any (Some 7)) ≡ true }
    ensures other_value { cell_eq (eq_by_cmp nat_cmp) (code_cell (Some 3) any (Some 7))
        (code_cell (Some 3) any (Some 8)) ≡ false }
    ensures any_is_none { cell_eq (eq_by_cmp nat_cmp) (code_cell (Some 3) any any)
        (code_cell (Some 3) any (Some 0)) ≡ false }
{}

/// Cell order compares in the first dimension in which the cells differ. Any comes before each
/// value.
pub fn cell_order()
    ensures any_first { cell_cmp nat_cmp (code_cell any (Some 9) any)
        (code_cell (Some 0) any any) ≡ Less }
    ensures first_dimension { cell_cmp nat_cmp (code_cell (Some 2) any any)
        (code_cell (Some 1) (Some 9) (Some 9)) ≡ Greater }
    ensures later_dimension { cell_cmp nat_cmp (code_cell (Some 2) (Some 1) (Some 4))
        (code_cell (Some 2) (Some 1) (Some 5)) ≡ Less }
    ensures same { cell_cmp nat_cmp (code_cell (Some 2) any (Some 4))
        (code_cell (Some 2) any (Some 4)) ≡ Equal }
{}

/// Bit i stands for dimension i.
pub fn masks()
    ensures none { mask (code_cell any any any) ≡ 0 }
    ensures first_and_last { mask (code_cell (Some 3) any (Some 7)) ≡ 5 }
    ensures middle { mask (code_cell any (Some 0) any) ≡ 2 }
{}

/// Texts are compared by their bytes, not by their lengths and not as numbers.
pub fn text_order()
    ensures first_byte { text_cmp (codes "S2") (codes "s") ≡ Less }
    ensures later_byte { text_cmp (codes "S10") (codes "S2") ≡ Less }
    ensures front { text_cmp (codes "S1") (codes "S") ≡ Greater }
    ensures capitals { text_cmp (codes "a") (codes "B") ≡ Greater }
    ensures same { text_eq (codes "S1") (codes "S1") ≡ true }
    ensures other { text_eq (codes "S1") (codes "s1") ≡ false }
{}
