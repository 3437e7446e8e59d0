//! Recoding replaces the values of each dimension by others, such as texts by codes. If no two
//! known values of a dimension have one code, facts about cells hold for their codes too.
ghost use Rattle.std.specs.Prelude.{Bool, List, map, ℕ, ◌↔◌, ◌≡◌};
ghost use Rattle.cube_defs.specs.Answers.{Ask, Box, ClassHit, Hit, iceberg, lower_bounds, range};
ghost use Rattle.cube_defs.specs.Cell.{Cell, leq, meet};
ghost use Rattle.cube_defs.specs.Rows.{Row, agg, closure, cov, is_class, is_lower_bound, is_node};
ghost use Rattle.cube_defs.specs.Tree.{classes, covered, nodes};
ghost use Rattle.cube_laws.specs.Lists.{Among};
ghost use Rattle.cube_laws.specs.Recoding.{AreKnown, BoxIsKnown, IsCodedClass, RowsAreKnown, TellsApart, coded_cell, coded_box, coded_hit, coded_row, known_box};
ghost use Rattle.std.specs.Option.{option_map};

use super::values::Value;

/// The codes of cells have the order and the meets of the cells (own).
pub fn cells_under_recoding<A: Value, B: Value>()
    ensures order { (known : ℕ → A → Bool) (codes : ℕ → A → B) → TellsApart known codes →
        (c d : Cell A) → AreKnown known 0 c → AreKnown known 0 d →
        leq B.eq (coded_cell codes 0 c) (coded_cell codes 0 d) ≡ leq A.eq c d }
    ensures meet { (known : ℕ → A → Bool) (codes : ℕ → A → B) → TellsApart known codes →
        (c d : Cell A) → AreKnown known 0 c → AreKnown known 0 d →
        meet B.eq (coded_cell codes 0 c) (coded_cell codes 0 d) ≡ coded_cell codes 0
        (meet A.eq c d) }
    ensures apart { (known : ℕ → A → Bool) (codes : ℕ → A → B) → TellsApart known codes →
        (c d : Cell A) → AreKnown known 0 c → AreKnown known 0 d →
        coded_cell codes 0 c ≡ coded_cell codes 0 d → c ≡ d }
{}

/// The code of a cell covers exactly the codes of the rows that the cell covers. The closure of the
/// code is the code of the closure (own).
pub fn closure_under_recoding<A: Value, B: Value>()
    ensures rows { (known : ℕ → A → Bool) (codes : ℕ → A → B) → TellsApart known codes →
        (rows : List (Row A)) (c : Cell A) → RowsAreKnown known rows → AreKnown known 0 c →
        cov B.eq (map (coded_row codes) rows) (coded_cell codes 0 c)
        ≡ map (coded_row codes) (cov A.eq rows c) }
    ensures closure { (known : ℕ → A → Bool) (codes : ℕ → A → B) → TellsApart known codes →
        (rows : List (Row A)) (c : Cell A) → RowsAreKnown known rows → AreKnown known 0 c →
        closure B.eq (map (coded_row codes) rows) (coded_cell codes 0 c)
        ≡ option_map (coded_cell codes 0) (closure A.eq rows c) }
    ensures aggregate { (known : ℕ → A → Bool) (codes : ℕ → A → B) → TellsApart known codes →
        (measures : ℕ) (rows : List (Row A)) (c : Cell A) → RowsAreKnown known rows →
        AreKnown known 0 c →
        agg B.eq measures (map (coded_row codes) rows) (coded_cell codes 0 c)
        ≡ agg A.eq measures rows c }
{}

/// The code of a cell is an upper bound, a node or a lower bound if and only if the cell is (own).
pub fn classes_under_recoding<A: Value, B: Value>()
    ensures upper_bound { (known : ℕ → A → Bool) (codes : ℕ → A → B) → TellsApart known codes →
        (rows : List (Row A)) (u : Cell A) → RowsAreKnown known rows → AreKnown known 0 u →
        is_class B.eq (map (coded_row codes) rows) (coded_cell codes 0 u) ≡ is_class A.eq rows u }
    ensures node { (known : ℕ → A → Bool) (codes : ℕ → A → B) → TellsApart known codes →
        (rows : List (Row A)) (p : Cell A) → RowsAreKnown known rows → AreKnown known 0 p →
        is_node B.eq (map (coded_row codes) rows) (coded_cell codes 0 p) ≡ is_node A.eq rows p }
    ensures lower_bound { (known : ℕ → A → Bool) (codes : ℕ → A → B) → TellsApart known codes →
        (rows : List (Row A)) (u c : Cell A) → RowsAreKnown known rows →
        AreKnown known 0 u → AreKnown known 0 c →
        is_lower_bound B.eq (map (coded_row codes) rows) (coded_cell codes 0 u)
        (coded_cell codes 0 c)
        ≡ is_lower_bound A.eq rows u c }
{}

/// The cells that cover coded rows are the codes of the cells that cover the rows. The same holds
/// for upper bounds, nodes and the lower bounds of a class. Their order is that of the codes (own).
pub fn lists_under_recoding<A: Value, B: Value>()
    ensures covered { (known : ℕ → A → Bool) (codes : ℕ → A → B) → TellsApart known codes →
        (rows : List (Row A)) (d : Cell B) → RowsAreKnown known rows →
        Among d (covered B.cmp (map (coded_row codes) rows))
        ↔ ((c : Cell A) × Among c (covered A.cmp rows) × (d ≡ coded_cell codes 0 c)) }
    ensures upper_bounds { (known : ℕ → A → Bool) (codes : ℕ → A → B) → TellsApart known codes →
        (rows : List (Row A)) (d : Cell B) → RowsAreKnown known rows →
        Among d (classes B.cmp (map (coded_row codes) rows))
        ↔ ((c : Cell A) × Among c (classes A.cmp rows) × (d ≡ coded_cell codes 0 c)) }
    ensures nodes { (known : ℕ → A → Bool) (codes : ℕ → A → B) → TellsApart known codes →
        (rows : List (Row A)) (d : Cell B) → RowsAreKnown known rows →
        Among d (nodes B.cmp (map (coded_row codes) rows))
        ↔ ((c : Cell A) × Among c (nodes A.cmp rows) × (d ≡ coded_cell codes 0 c)) }
    ensures lower_bounds { (known : ℕ → A → Bool) (codes : ℕ → A → B) → TellsApart known codes →
        (rows : List (Row A)) (u : Cell A) (d : Cell B) → RowsAreKnown known rows →
        AreKnown known 0 u →
        Among d (lower_bounds B.cmp (map (coded_row codes) rows) (coded_cell codes 0 u))
        ↔ ((c : Cell A) × Among c (lower_bounds A.cmp rows u) × (d ≡ coded_cell codes 0 c)) }
{}

/// If a cell covers a row, and all values of the rows are known, the cell has known values only. So
/// unknown values can be left out of a box (own).
pub fn unknown_values_cover_nothing<A: Value>()
    ensures cells { (known : ℕ → A → Bool) (rows : List (Row A)) (c u : Cell A) →
        RowsAreKnown known rows → closure A.eq rows c ≡ Some u → AreKnown known 0 c }
    ensures boxes { (known : ℕ → A → Bool) (measures : ℕ) (rows : List (Row A)) (box : Box A) →
        RowsAreKnown known rows →
        range A.cmp measures rows (known_box known 0 box) ≡ range A.cmp measures rows box }
    ensures known { (known : ℕ → A → Bool) (box : Box A) →
        BoxIsKnown known 0 (known_box known 0 box) }
{}

/// If the values of a box are known, the hits of the coded box are the codes of the box's hits.
/// Their order is that of the codes (own).
pub fn range_under_recoding<A: Value, B: Value>()
    ensures { (known : ℕ → A → Bool) (codes : ℕ → A → B) → TellsApart known codes →
        (measures : ℕ) (rows : List (Row A)) (box : Box A) (hit : Hit B) →
        RowsAreKnown known rows → BoxIsKnown known 0 box →
        Among hit (range B.cmp measures (map (coded_row codes) rows) (coded_box codes 0 box))
        ↔ ((found : Hit A) × Among found (range A.cmp measures rows box)
        × (hit ≡ coded_hit codes found)) }
{}

/// An iceberg answer over coded rows has the same classes and aggregates as the answer over the
/// rows, and the codes of the same lower bounds. Classes of equal value, and lower bounds, may be
/// in another order (own).
pub fn iceberg_under_recoding<A: Value, B: Value>()
    ensures no_more { (known : ℕ → A → Bool) (codes : ℕ → A → B) → TellsApart known codes →
        (measures : ℕ) (rows : List (Row A)) (ask : Ask) (hit : ClassHit B) →
        RowsAreKnown known rows →
        Among hit (iceberg B.cmp measures (map (coded_row codes) rows) ask) →
        (found : ClassHit A) × Among found (iceberg A.cmp measures rows ask)
        × IsCodedClass codes found hit }
    ensures no_less { (known : ℕ → A → Bool) (codes : ℕ → A → B) → TellsApart known codes →
        (measures : ℕ) (rows : List (Row A)) (ask : Ask) (found : ClassHit A) →
        RowsAreKnown known rows →
        Among found (iceberg A.cmp measures rows ask) →
        (hit : ClassHit B) × Among hit (iceberg B.cmp measures (map (coded_row codes) rows) ask)
        × IsCodedClass codes found hit }
{}
