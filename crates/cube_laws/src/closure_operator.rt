//! The closure of a cell: the values that all its covered rows share.
ghost use Rattle.std.specs.Prelude.{IsTrue, List, slice_get, ℕ, ◌↔◌, ◌≡◌};
ghost use Rattle.cube_defs.specs.Cell.{Cell, leq};
ghost use Rattle.cube_defs.specs.Rows.{Row, agg, closure, cov, covers};
ghost use Rattle.cube_laws.specs.Lists.{Among};

use super::values::Value;

/// A cell generalizes its closure. A closure is its own closure. The closure of a cell generalizes
/// the closures of all cells that specialize the cell (Lakshmanan, Pei, Han, VLDB 2002).
pub fn closure_is_a_closure_operator<V: Value>()
    ensures above { (rows : List (Row V)) (c u : Cell V) →
        closure V.eq rows c ≡ Some u → IsTrue (leq V.eq c u) }
    ensures idempotent { (rows : List (Row V)) (c u : Cell V) →
        closure V.eq rows c ≡ Some u → closure V.eq rows u ≡ Some u }
    ensures monotone { (rows : List (Row V)) (c d u w : Cell V) → IsTrue (leq V.eq c d) →
        closure V.eq rows c ≡ Some u → closure V.eq rows d ≡ Some w → IsTrue (leq V.eq u w) }
{}

/// A cell has a closure if and only if it covers a row (own).
pub fn closure_is_where_a_row_is_covered<V: Value>()
    ensures { (rows : List (Row V)) (c : Cell V) →
        ((u : Cell V) × (closure V.eq rows c ≡ Some u))
        ↔ ((r : Row V) × Among r rows × IsTrue (covers V.eq c r)) }
{}

/// The closure covers the rows that the cell covers. Each cell that covers all of them generalizes
/// the closure (Lakshmanan, Pei, Han, VLDB 2002).
pub fn closure_is_the_greatest_shared_cell<V: Value>()
    ensures shared { (rows : List (Row V)) (c u : Cell V) (r : Row V) →
        closure V.eq rows c ≡ Some u →
        Among r rows → IsTrue (covers V.eq c r) → IsTrue (covers V.eq u r) }
    ensures greatest { (rows : List (Row V)) (c d u : Cell V) → closure V.eq rows c ≡ Some u →
        ((r : Row V) → Among r rows → IsTrue (covers V.eq c r) → IsTrue (covers V.eq d r)) →
        IsTrue (leq V.eq d u) }
{}

/// The closure has a value in a dimension if and only if each covered row has it there (Lakshmanan,
/// Pei, Han, VLDB 2002).
pub fn closure_by_columns<V: Value>()
    ensures { (rows : List (Row V)) (c u : Cell V) (i : ℕ) (v : V) → closure V.eq rows c ≡ Some u →
        (slice_get u i ≡ Some (Some v))
        ↔ ((r : Row V) → Among r (cov V.eq rows c) → slice_get r.tuple i ≡ Some v) }
{}

/// Two cells with the same closure cover the same rows, so they have the same aggregates
/// (Lakshmanan, Pei, Han, VLDB 2002).
pub fn one_closure_is_one_answer<V: Value>()
    ensures rows { (rows : List (Row V)) (c d u : Cell V) →
        closure V.eq rows c ≡ Some u → closure V.eq rows d ≡ Some u →
        cov V.eq rows c ≡ cov V.eq rows d }
    ensures aggregates { (measures : ℕ) (rows : List (Row V)) (c d u : Cell V) →
        closure V.eq rows c ≡ Some u → closure V.eq rows d ≡ Some u →
        agg V.eq measures rows c ≡ agg V.eq measures rows d }
{}
