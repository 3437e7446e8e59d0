//! A cube of four dimensions: 73 cells that cover a row, 27 classes, 41 nodes, 40 tree edges and 18
//! links.

ghost use Rattle.std.specs.Prelude.{◌≡◌, map, length};
ghost use Rattle.std.specs.Ordering.{nat_cmp, eq_by_cmp};
ghost use Rattle.cube_defs.specs.Rows.{agg, closure};
ghost use Rattle.cube_defs.specs.Tree.{covered, classes, nodes, tree_edges, links};
ghost use Rattle.cube_examples.specs.Sales.{sales, groups};

/// Each cell that covers a sale, with the aggregate and the closure.
pub fn sales_groups()
    ensures { map (λ c. record {
      cell = c;
      agg = agg (eq_by_cmp nat_cmp) 1 sales c;
      closure
          = closure (eq_by_cmp nat_cmp) sales c;
    })
        (covered nat_cmp sales) ≡ groups }
{}

/// The numbers of classes, nodes, tree edges and links.
pub fn sales_counts()
    ensures classes { length (classes nat_cmp sales) ≡ 27 }
    ensures nodes { length (nodes nat_cmp sales) ≡ 41 }
    ensures tree_edges { tree_edges nat_cmp sales ≡ 40 }
    ensures links { links nat_cmp sales ≡ 18 }
{}
