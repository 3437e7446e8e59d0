//! The rows alone determine the numbers of classes, nodes and edges of a canonical tree.
ghost use Rattle.std.specs.FinMap as map;
ghost use Rattle.std.specs.List.{AllByRecursion};
ghost use Rattle.std.specs.Prelude.{List, length, suc, ℕ, ◌++◌, ◌≤◌, ◌∷◌, ◌≡◌};
ghost use Rattle.cube_defs.specs.Rows.{Row};
ghost use Rattle.cube_defs.specs.Tree.{IsCanonical, Tree, classes, links, nodes, tree_edges};
ghost use Rattle.cube_laws.specs.Lists.{Among};
ghost use Rattle.tree_laws.specs.Counts.{classes_in, links_in, tree_edges_in};

use cube_laws::values::Value;

/// A canonical tree has one record for each node of the rows, and one aggregate for each class. It
/// has as many edges of both kinds as the rows have tree edges and links (own).
pub fn counts_of_a_tree<V: Value>()
    ensures nodes { (dims measures : ℕ) (rows : List (Row V)) (tree : Tree V) →
        AllByRecursion (λ row. length row.tuple ≡ dims) rows
        → IsCanonical V.cmp measures rows tree →
        map.len tree ≡ length (nodes V.cmp rows) }
    ensures classes { (dims measures : ℕ) (rows : List (Row V)) (tree : Tree V) →
        AllByRecursion (λ row. length row.tuple ≡ dims) rows
        → IsCanonical V.cmp measures rows tree →
        classes_in V.cmp tree ≡ length (classes V.cmp rows) }
    ensures tree_edges { (dims measures : ℕ) (rows : List (Row V)) (tree : Tree V) →
        AllByRecursion (λ row. length row.tuple ≡ dims) rows
        → IsCanonical V.cmp measures rows tree →
        tree_edges_in V.cmp tree ≡ tree_edges V.cmp rows }
    ensures links { (dims measures : ℕ) (rows : List (Row V)) (tree : Tree V) →
        AllByRecursion (λ row. length row.tuple ≡ dims) rows
        → IsCanonical V.cmp measures rows tree →
        links_in V.cmp tree ≡ links V.cmp rows }
{}

/// After an insertion there are at least as many classes and nodes as before. So after a deletion
/// there are at most as many (own).
pub fn counts_with_one_row_more<V: Value>()
    ensures classes { (xs ys : List (Row V)) (r : Row V)
        → length (classes V.cmp (xs ++ ys)) ≤ length (classes V.cmp (xs ++ r ∷ ys)) }
    ensures nodes { (xs ys : List (Row V)) (r : Row V)
        → length (nodes V.cmp (xs ++ ys)) ≤ length (nodes V.cmp (xs ++ r ∷ ys)) }
{}

/// If there are rows, there is one more node than tree edges: each node but the root is the child
/// of one node (Lakshmanan, Pei, Zhao, SIGMOD 2003).
pub fn tree_edges_make_one_tree<V: Value>()
    ensures { (dims : ℕ) (rows : List (Row V)) (r : Row V)
        → AllByRecursion (λ row. length row.tuple ≡ dims) rows →
        Among r rows → suc (tree_edges V.cmp rows) ≡ length (nodes V.cmp rows) }
{}
