//! The canonical tree of the shop's rows, and that of these rows with a fourth.

ghost use Rattle.std.specs.Prelude.{◌≡◌, ◌∷◌, [], length, pos, negsuc};
ghost use Rattle.std.specs.Ordering.{nat_cmp};
ghost use Rattle.cube_defs.specs.Tree.{classes, nodes, tree_edges, links, tree, affected_size, renamed, IsCanonical};
ghost use Rattle.cube_examples.specs.Shop.{base, plus4, base_table, plus4_table, row, store_record};
ghost use Rattle.cube_examples.specs.Codes.{shop_codes, s_first, table, place_from, numbered_table, numbered_store, no_tree, doubled_table, altered_table};

/// The rows have six classes, eleven nodes, ten tree edges and five links.
pub fn base_counts()
    ensures classes { length (classes nat_cmp (base shop_codes)) ≡ 6 }
    ensures nodes { length (nodes nat_cmp (base shop_codes)) ≡ 11 }
    ensures tree_edges { tree_edges nat_cmp (base shop_codes) ≡ 10 }
    ensures links { links nat_cmp (base shop_codes) ≡ 5 }
{}

/// With the fourth row there are nine classes, 15 nodes, 14 tree edges and six links.
pub fn plus4_counts()
    ensures classes { length (classes nat_cmp (plus4 shop_codes)) ≡ 9 }
    ensures nodes { length (nodes nat_cmp (plus4 shop_codes)) ≡ 15 }
    ensures tree_edges { tree_edges nat_cmp (plus4 shop_codes) ≡ 14 }
    ensures links { links nat_cmp (plus4 shop_codes) ≡ 6 }
{}

/// Two rows with the same tuple make one class, and four nodes in a line.
pub fn twin_counts()
    ensures classes { length (classes nat_cmp (row 1 0 0 0 (pos 5) ∷ row 2 0 0 0 (negsuc 4) ∷ []))
        ≡ 1 }
    ensures nodes { length (nodes nat_cmp (row 1 0 0 0 (pos 5) ∷ row 2 0 0 0 (negsuc 4) ∷ [])) ≡ 4 }
    ensures tree_edges { tree_edges nat_cmp (row 1 0 0 0 (pos 5) ∷ row 2 0 0 0 (negsuc 4) ∷ [])
        ≡ 3 }
    ensures links { links nat_cmp (row 1 0 0 0 (pos 5) ∷ row 2 0 0 0 (negsuc 4) ∷ []) ≡ 0 }
{}

/// Each record of the rows' tree.
pub fn base_records()
    ensures { tree nat_cmp 1 (base shop_codes) ≡ base_table shop_codes s_first }
{}

/// Each record of the tree with the fourth row.
pub fn plus4_records()
    ensures { tree nat_cmp 1 (plus4 shop_codes) ≡ plus4_table shop_codes s_first }
{}

/// Before the fourth row is inserted, two nodes with seven edges generalize its tuple. Afterwards
/// six nodes with twelve edges do.
pub fn generalizations_of_the_fourth()
    ensures { affected_size nat_cmp (base shop_codes) (plus4 shop_codes)
        (shop_codes.S2 ∷ shop_codes.P2 ∷ shop_codes.f ∷ []) ≡ 27 }
{}

/// The records, with their places as numbers, are the canonical tree.
#[tactic(auto, using(crate::proofs::Numbered::numbered_is_canonical))]
pub fn canonical_base()
    ensures { IsCanonical nat_cmp 1 (base shop_codes) numbered_table }
{}

/// A record has the numbers of its parent, its forced child and its targets.
pub fn record_with_numbers()
    ensures { renamed (place_from 0 table) (store_record shop_codes) ≡ numbered_store }
{}

/// A map in which a node is missing isn't canonical.
#[tactic(auto, using(crate::proofs::Refused::lacks_nodes))]
pub fn missing_node()
    ensures { IsCanonical nat_cmp 1 (base shop_codes) no_tree → ⊥ }
{}

/// A map with a node under two numbers isn't canonical.
#[tactic(auto, using(crate::proofs::Refused::has_a_node_twice))]
pub fn node_twice()
    ensures { IsCanonical nat_cmp 1 (base shop_codes) doubled_table → ⊥ }
{}

/// A map with a record that isn't the node's isn't canonical.
#[tactic(auto, using(crate::proofs::Refused::has_a_wrong_record))]
pub fn wrong_record()
    ensures { IsCanonical nat_cmp 1 (base shop_codes) altered_table → ⊥ }
{}
