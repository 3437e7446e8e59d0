//! The rows determine the canonical tree, except for the numbers of its nodes.
ghost use Rattle.std.specs.List.{AllByRecursion};
ghost use Rattle.std.specs.Option.{option_map};
ghost use Rattle.std.specs.Ordering.{eq_by_cmp};
ghost use Rattle.std.specs.Prelude.{List, length, ℕ, ◌↔◌, ◌≡◌};
ghost use Rattle.cube_defs.specs.Cell.{Cell};
ghost use Rattle.cube_defs.specs.Rows.{Row, agg};
ghost use Rattle.cube_defs.specs.Tree.{IsCanonical, Tree, node_of};
ghost use Rattle.cube_laws.specs.Lists.{Reordered};
ghost use Rattle.cube_laws.specs.Tuples.{TuplesAmong};
ghost use Rattle.tree_laws.specs.Renaming.{IsRenaming, shape};

use cube_laws::values::Value;

/// Two canonical trees of the same rows are equal, except for the numbers of their nodes
/// (Lakshmanan, Pei, Zhao, SIGMOD 2003).
pub fn trees_of_the_same_rows<V: Value>()
    ensures { (measures : ℕ) (rows : List (Row V)) (tree other : Tree V) →
        IsCanonical V.cmp measures rows tree → IsCanonical V.cmp measures rows other →
        (name : ℕ → ℕ) × IsRenaming name tree other }
{}

/// Rows with the same tuples, in any order and with any repetition, have the same records except
/// for the aggregates. If the aggregates are the same too, so are the whole records (own).
pub fn records_of_the_same_tuples<V: Value>()
    ensures shapes { (measures : ℕ) (rows more : List (Row V)) (p : Cell V) → TuplesAmong rows more
        → TuplesAmong more rows →
        option_map shape (node_of V.cmp measures rows p) ≡ option_map shape
        (node_of V.cmp measures more p) }
    ensures records { (measures : ℕ) (rows more : List (Row V)) (p : Cell V) → TuplesAmong rows more
        → TuplesAmong more rows →
        agg (eq_by_cmp V.cmp) measures rows p ≡ agg (eq_by_cmp V.cmp) measures more p →
        node_of V.cmp measures rows p ≡ node_of V.cmp measures more p }
{}

/// Rows in any order have the same records and the same canonical trees (own).
pub fn rows_in_any_order<V: Value>()
    ensures records { (measures : ℕ) (rows more : List (Row V)) (p : Cell V) → Reordered rows more →
        node_of V.cmp measures rows p ≡ node_of V.cmp measures more p }
    ensures trees { (measures : ℕ) (rows more : List (Row V)) (tree : Tree V)
        → Reordered rows more →
        IsCanonical V.cmp measures rows tree ↔ IsCanonical V.cmp measures more tree }
{}

/// If all rows have as many values as there are dimensions, they have a canonical tree (own).
pub fn rows_have_a_tree<V: Value>()
    ensures { (dims measures : ℕ) (rows : List (Row V))
        → AllByRecursion (λ row. length row.tuple ≡ dims) rows →
        (tree : Tree V) × IsCanonical V.cmp measures rows tree }
{}
