//! How the classes that generalize a tuple change when a row with this tuple is deleted. Each
//! follows from a class with more values.
ghost use Rattle.std.specs.Prelude.{Bool, IsTrue, List, length, slice_get, ℕ, ◌<◌, ◌≡◌, ◌⊎◌};
ghost use Rattle.cube_defs.specs.Cell.{Cell, cell_of, cell_prefix, leq};
ghost use Rattle.cube_defs.specs.Rows.{Row, covers};
ghost use Rattle.cube_laws.specs.Parts.{IsLastAny, value_count};
ghost use Rattle.cube_laws.specs.Step.{IsStep};

use super::values::Value;

/// A cell that generalizes a tuple is the tuple itself, or has a last dimension of Any. In the
/// latter case its prefix before that dimension determines it (own).
pub fn last_any_of_a_cell<V: Value>()
    ensures there { (t : List V) (u : Cell V) → IsTrue (leq V.eq u (cell_of t)) →
        length u ≡ length t →
        (u ≡ cell_of t) ⊎ ((i : ℕ) × IsLastAny u i) }
    ensures determines { (t : List V) (u w : Cell V) (i : ℕ) →
        IsTrue (leq V.eq u (cell_of t)) → IsTrue (leq V.eq w (cell_of t)) → length u ≡ length w →
        IsLastAny u i → IsLastAny w i → cell_prefix i u ≡ cell_prefix i w → u ≡ w }
{}

/// The new closure and aggregate of a cell that covers the deleted row. They follow from the new
/// ones of one cell with more values, and the old ones of cells that don't cover the row (own).
pub fn class_after_a_row_has_gone<V: Value>()
    ensures { (xs ys : List (Row V)) (r : Row V) (u : Cell V) (i : ℕ) (t : V) →
        slice_get u i ≡ Some None →
        IsTrue (covers V.eq u r) → slice_get r.tuple i ≡ Some t →
        (w : Cell V) × IsStep V.eq xs r ys u i t w }
{}

/// Induction over the cells that generalize a tuple. If a property holds of a cell whenever it
/// holds of those with more values, it holds of all.
pub fn induction_from_the_most_specific_cell<V: Value>()
    ensures { (holds : Cell V → Bool) (t : List V) →
        ((u : Cell V) → IsTrue (leq V.eq u (cell_of t)) →
        ((w : Cell V) → IsTrue (leq V.eq w (cell_of t)) → value_count u < value_count w
        → IsTrue (holds w)) →
        IsTrue (holds u)) →
        (u : Cell V) → IsTrue (leq V.eq u (cell_of t)) → IsTrue (holds u) }
{}
