//! Rows of n dimensions that all get the value v in dimension n. The new classes are the old ones
//! with v. The new nodes are the old ones with Any, and the classes with v.
ghost use Rattle.std.specs.Option.{option_map};
ghost use Rattle.std.specs.Ordering.{eq_by_cmp};
ghost use Rattle.std.specs.Prelude.{List, length, true, ℕ, ◌≡◌, ◌⊎◌};
ghost use Rattle.std.specs.List.{AllByRecursion};
ghost use Rattle.cube_defs.specs.Cell.{Cell};
ghost use Rattle.cube_defs.specs.Rows.{Row, closure, is_class, is_node};
ghost use Rattle.cube_defs.specs.Tree.{IsCanonical, Tree, node_of};
ghost use Rattle.widen_laws.specs.Widened.{IsWidened, all_longer, and_any, and_value, child_of, widened};

use cube_laws::values::Value;

/// The closure of a cell, with Any or the value in the new dimension, is the old closure with the
/// value.
pub fn closures_get_the_value<V: Value>()
    ensures any { (n : ℕ) (rows : List (Row V)) (v : V) (c : Cell V)
        → AllByRecursion (λ row. length row.tuple ≡ n) rows → length c ≡ n →
        closure (eq_by_cmp V.cmp) (all_longer v rows) (and_any c) ≡ option_map (and_value v)
        (closure (eq_by_cmp V.cmp) rows c) }
    ensures value { (n : ℕ) (rows : List (Row V)) (v : V) (c : Cell V)
        → AllByRecursion (λ row. length row.tuple ≡ n) rows → length c ≡ n →
        closure (eq_by_cmp V.cmp) (all_longer v rows) (and_value v c) ≡ option_map (and_value v)
        (closure (eq_by_cmp V.cmp) rows c) }
{}

/// A cell with Any in the new dimension is a node if and only if it was one. A cell with the value
/// is a node if and only if it was a class.
pub fn nodes_are_the_old_ones_and_the_classes<V: Value>()
    ensures any { (n : ℕ) (rows : List (Row V)) (v : V) (p : Cell V)
        → AllByRecursion (λ row. length row.tuple ≡ n) rows → length p ≡ n →
        is_node (eq_by_cmp V.cmp) (all_longer v rows) (and_any p)
        ≡ is_node (eq_by_cmp V.cmp) rows p }
    ensures value { (n : ℕ) (rows : List (Row V)) (v : V) (u : Cell V)
        → AllByRecursion (λ row. length row.tuple ≡ n) rows → length u ≡ n →
        is_node (eq_by_cmp V.cmp) (all_longer v rows) (and_value v u)
        ≡ is_class (eq_by_cmp V.cmp) rows u }
    ensures class { (n : ℕ) (rows : List (Row V)) (v : V) (u : Cell V)
        → AllByRecursion (λ row. length row.tuple ≡ n) rows → length u ≡ n →
        is_class (eq_by_cmp V.cmp) (all_longer v rows) (and_value v u)
        ≡ is_class (eq_by_cmp V.cmp) rows u }
{}

/// There are no other nodes.
pub fn each_node_is_an_old_one_or_a_class<V: Value>()
    ensures { (n : ℕ) (rows : List (Row V)) (v : V) (c : Cell V)
        → AllByRecursion (λ row. length row.tuple ≡ n) rows →
        is_node (eq_by_cmp V.cmp) (all_longer v rows) c ≡ true →
        (p : Cell V) × (length p ≡ n)
        × (((c ≡ and_any p) × (is_node (eq_by_cmp V.cmp) rows p ≡ true))
        ⊎ ((c ≡ and_value v p) × (is_class (eq_by_cmp V.cmp) rows p ≡ true))) }
{}

/// An old node keeps its record, with Any in the new dimension, unless it is a class. A class gets
/// the label with the value as its last one. It leads to the class with the value, which is its
/// forced child and takes over the aggregate.
pub fn records_are_kept_or_handed_on<V: Value>()
    ensures any { (n measures : ℕ) (rows : List (Row V)) (v : V) (p : Cell V)
        → AllByRecursion (λ row. length row.tuple ≡ n) rows →
        length p ≡ n → is_node (eq_by_cmp V.cmp) rows p ≡ true →
        node_of V.cmp measures (all_longer v rows) (and_any p) ≡ option_map (widened n v)
        (node_of V.cmp measures rows p) }
    ensures value { (n measures : ℕ) (rows : List (Row V)) (v : V) (u : Cell V)
        → AllByRecursion (λ row. length row.tuple ≡ n) rows →
        length u ≡ n → is_class (eq_by_cmp V.cmp) rows u ≡ true →
        node_of V.cmp measures (all_longer v rows) (and_value v u) ≡ option_map (child_of v)
        (node_of V.cmp measures rows u) }
{}

/// If the records change so, and the new children get numbers of their own, the old canonical tree
/// becomes the canonical tree of the longer rows. Each old node keeps its number.
pub fn a_widened_tree_is_canonical<V: Value>()
    ensures { (n measures : ℕ) (rows : List (Row V)) (v : V) (child : ℕ → ℕ) (tree wide : Tree V) →
        AllByRecursion (λ row. length row.tuple ≡ n) rows → IsCanonical V.cmp measures rows tree →
        IsWidened n v child tree wide → IsCanonical V.cmp measures (all_longer v rows) wide }
{}
