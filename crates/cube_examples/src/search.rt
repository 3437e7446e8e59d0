//! Searches in the tree of the shop's rows, from the root, which has the number 0.

ghost use Rattle.std.specs.Prelude.{◌≡◌, Some, None};
ghost use Rattle.std.specs.Ordering.{nat_cmp, eq_by_cmp};
ghost use Rattle.cube_examples.specs.Codes.{shop_codes, code_cell, numbered_table};
ghost use Rattle.tree_laws.specs.Walk.{climb, walk};

/// The edge from the root to the first store, and then its forced child s.
#[tactic(auto, using(crate::proofs::Searches::to_store))]
pub fn search_for_a_store()
    ensures { walk (eq_by_cmp nat_cmp) numbered_table (code_cell (Some shop_codes.S1) None None)
        0 0 ≡ Some 3 }
{}

/// The root is its own closure.
#[tactic(auto, using(crate::proofs::Searches::to_all))]
pub fn search_for_all()
    ensures { walk (eq_by_cmp nat_cmp) numbered_table (code_cell None None None) 0 0 ≡ Some 0 }
{}

/// The link P2 from the root to the first store with P2, and then its forced child s.
#[tactic(auto, using(crate::proofs::Searches::along_link))]
pub fn search_along_a_link()
    ensures { walk (eq_by_cmp nat_cmp) numbered_table (code_cell None (Some shop_codes.P2) None)
        0 0 ≡ Some 7 }
{}

/// The link P2 from the root leads to a node with the forced value s. A search for f finds nothing
/// there.
#[tactic(auto, using(crate::proofs::Searches::against_forced))]
pub fn search_against_a_forced_value()
    ensures { walk (eq_by_cmp nat_cmp) numbered_table
        (code_cell None (Some shop_codes.P2) (Some shop_codes.f)) 0 0 ≡ None }
{}

/// No edge of the second store has P2.
#[tactic(auto, using(crate::proofs::Searches::without_edge))]
pub fn search_without_an_edge()
    ensures { walk (eq_by_cmp nat_cmp) numbered_table
        (code_cell (Some shop_codes.S2) (Some shop_codes.P2) None) 0 0 ≡ None }
{}

/// The way up from the first store's P2 and s to the root.
#[tactic(auto, using(crate::proofs::Searches::upwards))]
pub fn way_up()
    ensures { climb numbered_table 3 7 (code_cell None None None) ≡ code_cell (Some shop_codes.S1)
        (Some shop_codes.P2) (Some shop_codes.s) }
{}

/// The first store's forced child is in a later dimension than the asked product. So the edge P1
/// comes first.
#[tactic(auto, using(crate::proofs::Searches::past_forced))]
pub fn search_past_a_forced_child()
    ensures { walk (eq_by_cmp nat_cmp) numbered_table
        (code_cell (Some shop_codes.S1) (Some shop_codes.P1) None) 0 0 ≡ Some 5 }
{}

/// The root has no edge to a third store.
#[tactic(auto, using(crate::proofs::Searches::to_no_store))]
pub fn search_for_no_store()
    ensures { walk (eq_by_cmp nat_cmp) numbered_table (code_cell (Some 2) None None) 0 0 ≡ None }
{}
