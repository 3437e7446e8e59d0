//! How a few counts and one other row of a class settle its new closure when a row is deleted,
//! without a look at all its parts.
ghost use Rattle.std.specs.Prelude.{IsTrue, List, false, length, slice_get, suc, ℕ, ◌++◌, ◌<◌, ◌↔◌, ◌∷◌, ◌≡◌, ◌≤◌};
ghost use Rattle.cube_defs.specs.Cell.{Cell, leq, with_value};
ghost use Rattle.cube_defs.specs.Rows.{Row, closure, cov, covers};
ghost use Rattle.cube_laws.specs.Counts.{count};
ghost use Rattle.cube_laws.specs.Lists.{Among};
ghost use Rattle.cube_laws.specs.Parts.{has_value};
ghost use Rattle.cube_laws.specs.Total.{agg_at};

use super::values::Value;

/// A more specific cell covers no more rows. The closure has a value in a dimension of Any if and
/// only if adding the value keeps the count (own).
pub fn counts_of_cells<V: Value>()
    ensures fewer { (rows : List (Row V)) (c d : Cell V) → IsTrue (leq V.eq c d) →
        count V.eq rows d ≤ count V.eq rows c }
    ensures same_rows { (rows : List (Row V)) (c d : Cell V) → IsTrue (leq V.eq c d) →
        count V.eq rows d ≡ count V.eq rows c → cov V.eq rows d ≡ cov V.eq rows c }
    ensures values { (rows : List (Row V)) (u w : Cell V) (k : ℕ) (v : V) →
        slice_get u k ≡ Some None →
        closure V.eq rows u ≡ Some w →
        (slice_get w k ≡ Some (Some v)) ↔ (count V.eq rows (with_value u k v) ≡ count V.eq rows u) }
{}

/// If a more specific cell covers all rows of a class but the deleted one, its old closure and
/// aggregate are the class's new ones (own).
pub fn heir_of_a_class<V: Value>()
    ensures closure { (xs ys : List (Row V)) (r : Row V) (u c : Cell V) → IsTrue (covers V.eq u r) →
        IsTrue (leq V.eq u c) → covers V.eq c r ≡ false →
        suc (count V.eq (xs ++ r ∷ ys) c) ≡ count V.eq (xs ++ r ∷ ys) u →
        closure V.eq (xs ++ ys) u ≡ closure V.eq (xs ++ r ∷ ys) c }
    ensures aggregate { (measures : ℕ) (xs ys : List (Row V)) (r : Row V) (u c : Cell V) →
        IsTrue (covers V.eq u r) →
        IsTrue (leq V.eq u c) → covers V.eq c r ≡ false →
        suc (count V.eq (xs ++ r ∷ ys) c) ≡ count V.eq (xs ++ r ∷ ys) u →
        agg_at V.eq measures (xs ++ ys) u ≡ agg_at V.eq measures (xs ++ r ∷ ys) c }
{}

/// A class with Any in a dimension has, for each value, a row with another value there. A cell that
/// covers a row, and a row with a value that the first doesn't have, covers at least two (own).
pub fn witness_of_a_class<V: Value>()
    ensures there { (rows : List (Row V)) (n : ℕ) (u : Cell V) (i : ℕ) (t : V) →
        closure V.eq rows u ≡ Some u →
        slice_get u i ≡ Some None → i < n → ((r : Row V) → Among r rows → length r.tuple ≡ n) →
        (v : V) × (V.eq v t ≡ false)
        × ((z : Cell V) × (closure V.eq rows (with_value u i v) ≡ Some z)) }
    ensures two_rows { (xs ys : List (Row V)) (r : Row V) (u z : Cell V) (i : ℕ) (v : V) →
        IsTrue (covers V.eq u r) →
        slice_get u i ≡ Some None → has_value V.eq i v r ≡ false →
        closure V.eq (xs ++ r ∷ ys) (with_value u i v) ≡ Some z → 2 ≤ count V.eq (xs ++ r ∷ ys) u }
{}

/// The values that a class gains when a row is deleted. Each is in the closure of every more
/// specific cell that covers rows but not this one. None is the row's own, and the counts before
/// the deletion determine them (own).
pub fn new_values_of_a_class<V: Value>()
    ensures from_a_witness { (xs ys : List (Row V)) (r : Row V) (u c z w : Cell V) (k : ℕ) (v : V) →
        IsTrue (leq V.eq u c) → covers V.eq c r ≡ false → closure V.eq (xs ++ r ∷ ys) c ≡ Some z →
        closure V.eq (xs ++ ys) u ≡ Some w → slice_get w k ≡ Some (Some v) →
        slice_get z k ≡ Some (Some v) }
    ensures not_the_own { (xs ys : List (Row V)) (r : Row V) (u w : Cell V) (k : ℕ) (v : V) →
        closure V.eq (xs ++ r ∷ ys) u ≡ Some u → slice_get u k ≡ Some None →
        IsTrue (covers V.eq u r) →
        closure V.eq (xs ++ ys) u ≡ Some w → slice_get w k ≡ Some (Some v) →
        has_value V.eq k v r ≡ false }
    ensures by_counts { (xs ys : List (Row V)) (r : Row V) (u w : Cell V) (k : ℕ) (v : V) →
        slice_get u k ≡ Some None →
        IsTrue (covers V.eq u r) → has_value V.eq k v r ≡ false →
        closure V.eq (xs ++ ys) u ≡ Some w →
        (slice_get w k ≡ Some (Some v))
        ↔ (suc (count V.eq (xs ++ r ∷ ys) (with_value u k v)) ≡ count V.eq (xs ++ r ∷ ys) u) }
    ensures ruled_out { (xs ys : List (Row V)) (r : Row V) (u w d : Cell V) (k : ℕ) (v t : V) →
        closure V.eq (xs ++ r ∷ ys) u ≡ Some u → slice_get u k ≡ Some None →
        IsTrue (covers V.eq u r) →
        closure V.eq (xs ++ ys) u ≡ Some w → slice_get w k ≡ Some (Some v) →
        slice_get r.tuple k ≡ Some t → IsTrue (leq V.eq (with_value u k t) d) →
        count V.eq (xs ++ ys) d ≡ 0 }
{}

/// A class stays a class when a row is deleted, if no value of a witness is shared by all its other
/// rows (own).
pub fn class_that_stays<V: Value>()
    ensures { (n : ℕ) (xs ys : List (Row V)) (r : Row V) (u c z : Cell V) →
        ((s : Row V) → Among s (xs ++ r ∷ ys) → length s.tuple ≡ n) →
        closure V.eq (xs ++ r ∷ ys) u ≡ Some u → IsTrue (covers V.eq u r) →
        IsTrue (leq V.eq u c) → covers V.eq c r ≡ false → closure V.eq (xs ++ r ∷ ys) c ≡ Some z →
        ((k : ℕ) (v : V) → slice_get u k ≡ Some None → slice_get z k ≡ Some (Some v) →
        has_value V.eq k v r ≡ false →
        suc (count V.eq (xs ++ r ∷ ys) (with_value u k v)) ≡ count V.eq (xs ++ r ∷ ys) u → ⊥) →
        closure V.eq (xs ++ ys) u ≡ Some u }
{}
