//! Cells ordered by generalization. Each two cells have a greatest lower bound.
ghost use Rattle.std.specs.Prelude.{IsTrue, List, [], length, suc, ℕ, ◌++◌, ◌↔◌, ◌∷◌, ◌≡◌, ◌≤◌};
ghost use Rattle.cube_defs.specs.Cell.{Cell, cell_eq, depth, cell_prefix, last, leq, meet};
ghost use Rattle.cube_defs.specs.Rows.{meet_all, meet_with};

use super::values::Value;

/// Generalization is a partial order of cells, and the test for equal cells is exact (Lakshmanan,
/// Pei, Han, VLDB 2002).
pub fn cells_are_ordered<V: Value>()
    ensures reflexive { (c : Cell V) → IsTrue (leq V.eq c c) }
    ensures transitive { (c d e : Cell V) →
        IsTrue (leq V.eq c d) → IsTrue (leq V.eq d e) → IsTrue (leq V.eq c e) }
    ensures antisymmetric { (c d : Cell V) → IsTrue (leq V.eq c d) → IsTrue (leq V.eq d c) → c ≡ d }
    ensures told_apart { (c d : Cell V) → IsTrue (cell_eq V.eq c d) ↔ (c ≡ d) }
{}

/// The meet of two cells is the most specific cell that generalizes both (Lakshmanan, Pei, Han,
/// VLDB 2002).
pub fn meet_is_the_greatest_lower_bound<V: Value>()
    ensures left { (c d : Cell V) → IsTrue (leq V.eq (meet V.eq c d) c) }
    ensures right { (c d : Cell V) → IsTrue (leq V.eq (meet V.eq c d) d) }
    ensures greatest { (b c d : Cell V) →
        IsTrue (leq V.eq b c) → IsTrue (leq V.eq b d) → IsTrue (leq V.eq b (meet V.eq c d)) }
{}

/// The meet is commutative, associative and idempotent. A cell generalizes another if and only if
/// it is the meet of both.
pub fn meet_of_cells<V: Value>()
    ensures commutative { (c d : Cell V) → meet V.eq c d ≡ meet V.eq d c }
    ensures associative { (c d e : Cell V) →
        meet V.eq (meet V.eq c d) e ≡ meet V.eq c (meet V.eq d e) }
    ensures idempotent { (c : Cell V) → meet V.eq c c ≡ c }
    ensures order { (c d : Cell V) → IsTrue (leq V.eq c d) ↔ (meet V.eq c d ≡ c) }
{}

/// The prefix of a cell generalizes the cell. If a cell generalizes another, its prefix generalizes
/// the other's. A cell is its own prefix through its last value (Lakshmanan, Pei, Zhao, SIGMOD
/// 2003).
pub fn prefixes_of_cells<V: Value>()
    ensures below { (n : ℕ) (c : Cell V) → IsTrue (leq V.eq (cell_prefix n c) c) }
    ensures monotone { (n : ℕ) (c d : Cell V) →
        IsTrue (leq V.eq c d) → IsTrue (leq V.eq (cell_prefix n c) (cell_prefix n d)) }
    ensures whole { (c : Cell V) → cell_prefix (depth c) c ≡ c }
{}

/// The depth of a cell is one more than its last dimension with a value, or 0 if it has no value. A
/// prefix is also the cell's prefix at the prefix's own depth (own).
pub fn depth_of_cells<V: Value>()
    ensures last { (c : Cell V) (j : ℕ) → last c ≡ Some j → depth c ≡ suc j }
    ensures none { (c : Cell V) → last c ≡ None → depth c ≡ 0 }
    ensures within { (c : Cell V) → depth c ≤ length c }
    ensures front { (n : ℕ) (c : Cell V)
        → cell_prefix (depth (cell_prefix n c)) c ≡ cell_prefix n c }
{}

/// The meet of a list with one more cell at its end is the list's meet, met with the cell (own).
pub fn meet_of_one_cell_more<V: Value>()
    ensures { (cs : List (Cell V)) (c : Cell V) →
        meet_all V.eq (cs ++ c ∷ []) ≡ Some (meet_with V.eq (meet_all V.eq cs) c) }
{}
