//! A search in the canonical tree. It goes from the root through the dimensions in order. If the
//! node's forced child is in the dimension, the search goes there, unless another value is asked.
//! Else it stays for Any, and follows the edge with the asked value. This search is this project's
//! own; trees of classes are those of Lakshmanan, Pei, Zhao, SIGMOD 2003.
ghost use Rattle.std.specs.FinMap as map;
ghost use Rattle.std.specs.List.{AllByRecursion};
ghost use Rattle.std.specs.Option.{option_map};
ghost use Rattle.std.specs.Ordering.{eq_by_cmp};
ghost use Rattle.std.specs.Prelude.{IsTrue, List, None, Option, Some, filter, length, replicate, slice_get, suc, ℕ, ◌<◌, ◌↔◌, ◌≡◌, ◌≢◌};
ghost use Rattle.cube_defs.specs.Answers.{lower_bounds};
ghost use Rattle.cube_defs.specs.Cell.{Cell, depth, cell_prefix, leq};
ghost use Rattle.cube_defs.specs.Rows.{Row, agg, closure, is_lower_bound};
ghost use Rattle.cube_defs.specs.Tree.{IsCanonical, Node, Tree, cell_at};
ghost use Rattle.cube_laws.specs.Lists.{Among};
ghost use Rattle.tree_laws.specs.GeneralizingCells.{below};
ghost use Rattle.tree_laws.specs.Walk.{climb, closure_prefix, walk, walk_on};

use cube_laws::values::Value;

/// A search from the root finds the node of the cell's closure. It finds none if and only if the
/// cell covers no row. If there is no root, no cell covers a row.
pub fn search_finds_the_closure<V: Value>()
    ensures found { (dims measures : ℕ) (rows : List (Row V)) (tree : Tree V) (root : ℕ)
        (c : Cell V) →
        AllByRecursion (λ row. length row.tuple ≡ dims) rows
        → IsCanonical V.cmp measures rows tree →
        length c ≡ dims → cell_at tree root ≡ Some (replicate dims None) →
        option_map (cell_at tree) (walk (eq_by_cmp V.cmp) tree c root 0)
        ≡ option_map (λ u. Some u) (closure (eq_by_cmp V.cmp) rows c) }
    ensures no_root { (dims measures : ℕ) (rows : List (Row V)) (tree : Tree V) (c : Cell V) →
        AllByRecursion (λ row. length row.tuple ≡ dims) rows
        → IsCanonical V.cmp measures rows tree →
        length c ≡ dims → ((k : ℕ) → cell_at tree k ≢ Some (replicate dims None)) →
        closure (eq_by_cmp V.cmp) rows c ≡ None }
{}

/// One step of a search goes from the prefix of the closure of the cell's first entries to the
/// prefix with one dimension more. It finds none if and only if those entries cover no row.
pub fn one_dimension_of_a_search<V: Value>()
    ensures { (dims measures : ℕ) (rows : List (Row V)) (tree : Tree V) (k : ℕ) (n : Node V ℕ)
        (c : Cell V) (i : ℕ) (a : Option V) →
        AllByRecursion (λ row. length row.tuple ≡ dims) rows
        → IsCanonical V.cmp measures rows tree →
        length c ≡ dims → slice_get c i ≡ Some a → i < dims →
        map.get tree k ≡ Some n → Some n.cell ≡ closure_prefix (eq_by_cmp V.cmp) rows c i →
        option_map (cell_at tree) (walk_on (eq_by_cmp V.cmp) k n i a)
        ≡ option_map (λ d. Some d) (closure_prefix (eq_by_cmp V.cmp) rows c (suc i)) }
{}

/// The node of a cell's closure has the cell's aggregate.
pub fn answer_at_the_closure<V: Value>()
    ensures { (dims measures : ℕ) (rows : List (Row V)) (tree : Tree V) (k : ℕ) (n : Node V ℕ)
        (c : Cell V) →
        AllByRecursion (λ row. length row.tuple ≡ dims) rows
        → IsCanonical V.cmp measures rows tree →
        map.get tree k ≡ Some n → closure (eq_by_cmp V.cmp) rows c ≡ Some n.cell →
        n.class ≡ Some (agg (eq_by_cmp V.cmp) measures rows c) }
{}

/// On the way up from a node, the last values of the nodes make up the node's cell. Each parent has
/// the cell without its last value, and the root has no parent.
pub fn way_up_to_the_root<V: Value>()
    ensures cell { (dims measures : ℕ) (rows : List (Row V)) (tree : Tree V) (k : ℕ) (n : Node V ℕ)
        →
        AllByRecursion (λ row. length row.tuple ≡ dims) rows
        → IsCanonical V.cmp measures rows tree →
        map.get tree k ≡ Some n → climb tree dims k (replicate dims None) ≡ n.cell }
    ensures parent { (dims measures : ℕ) (rows : List (Row V)) (tree : Tree V) (k : ℕ)
        (n : Node V ℕ) (i : ℕ) →
        AllByRecursion (λ row. length row.tuple ≡ dims) rows
        → IsCanonical V.cmp measures rows tree →
        map.get tree k ≡ Some n → depth n.cell ≡ suc i →
        option_map (cell_at tree) n.parent ≡ Some (Some (cell_prefix i n.cell)) }
    ensures root { (dims measures : ℕ) (rows : List (Row V)) (tree : Tree V) (k : ℕ) (n : Node V ℕ)
        →
        AllByRecursion (λ row. length row.tuple ≡ dims) rows
        → IsCanonical V.cmp measures rows tree →
        map.get tree k ≡ Some n → depth n.cell ≡ 0 → n.parent ≡ None }
{}

/// The lower bounds of a class are the cells that generalize it and pass the test, in cell order.
pub fn lower_bounds_among_generalizations<V: Value>()
    ensures bounds { (dims : ℕ) (rows : List (Row V)) (u : Cell V)
        → AllByRecursion (λ row. length row.tuple ≡ dims) rows →
        length u ≡ dims →
        lower_bounds V.cmp rows u ≡ filter (is_lower_bound (eq_by_cmp V.cmp) rows u) (below u) }
    ensures below { (c u : Cell V) → Among c (below u)
        ↔ ((length c ≡ length u) × IsTrue (leq (eq_by_cmp V.cmp) c u)) }
{}
