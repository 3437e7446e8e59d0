//! The parts of the rows that a cell with Any in a dimension covers, by their values in the
//! dimension.
ghost use Rattle.std.specs.Prelude.{IsTrue, List, length, slice_get, ℕ, ◌<◌, ◌≡◌};
ghost use Rattle.std.specs.List.{IsDistinct};
ghost use Rattle.cube_defs.specs.Cell.{Cell, leq, with_value};
ghost use Rattle.cube_defs.specs.Rows.{Row, agg, closure};
ghost use Rattle.cube_defs.specs.Tree.{values_at};
ghost use Rattle.cube_laws.specs.Lists.{Among};
ghost use Rattle.cube_laws.specs.Parts.{HasAll};
ghost use Rattle.cube_laws.specs.Total.{agg_at, join_aggs, join_cells, total};

use super::values::Value;

/// The closure of a cell with Any in a dimension is the meet of the closures of its parts. Parts
/// without rows are left out (own).
pub fn closure_by_parts<V: Value>()
    ensures { (rows : List (Row V)) (u : Cell V) (i : ℕ) (vs : List V) → slice_get u i ≡ Some None →
        IsDistinct V.eq vs → HasAll V.eq rows u i vs →
        closure V.eq rows u
        ≡ total (join_cells V.eq) None (λ v. closure V.eq rows (with_value u i v)) vs }
{}

/// The aggregate of a cell with Any in a dimension combines those of its parts. COUNT and SUM are
/// added, and the least MIN and the greatest MAX are taken (own).
pub fn aggregate_by_parts<V: Value>()
    ensures { (measures : ℕ) (rows : List (Row V)) (u : Cell V) (i : ℕ) (vs : List V) →
        slice_get u i ≡ Some None →
        IsDistinct V.eq vs → HasAll V.eq rows u i vs →
        agg_at V.eq measures rows u
        ≡ total join_aggs None (λ v. agg_at V.eq measures rows (with_value u i v)) vs }
{}

/// The aggregate by parts is that of the cell if it covers a row, and none if it covers no row.
pub fn aggregate_where_rows_are_covered<V: Value>()
    ensures covered { (measures : ℕ) (rows : List (Row V)) (c u : Cell V) →
        closure V.eq rows c ≡ Some u →
        agg_at V.eq measures rows c ≡ Some (agg V.eq measures rows c) }
    ensures none { (measures : ℕ) (rows : List (Row V)) (c : Cell V) → closure V.eq rows c ≡ None →
        agg_at V.eq measures rows c ≡ None }
{}

/// The values that the rows have in a dimension, each once, give such parts. They also do for each
/// more specific cell, and for fewer rows (own).
pub fn column_parts_the_rows<V: Value>()
    ensures once { (rows : List (Row V)) (p : Cell V) (i : ℕ)
        → IsDistinct V.eq (values_at V.cmp rows p i) }
    ensures enough { (rows some : List (Row V)) (p u : Cell V) (i : ℕ) → IsTrue (leq V.eq p u) →
        ((s : Row V) → Among s some → Among s rows) →
        ((s : Row V) → Among s rows → i < length s.tuple) →
        HasAll V.eq some u i (values_at V.cmp rows p i) }
{}
