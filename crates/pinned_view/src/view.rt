// The tree of a version, read over the present tree.
ghost use Rattle.std.specs.FinMap as map;
ghost use Rattle.std.specs.Prelude.{IfNone, IfSome, IsSome, Some, length, ◌+◌, ◌<◌, ◌≡◌, ◌≤◌};
ghost use Rattle.qc_arena.specs.Looks.{look_of_image};
ghost use Rattle.pinned_view.specs.Past.{first_image, with_all_images};
ghost use Rattle.pinned_view.specs.Views.{IsRootOf, SaysOf};

use aggregates::Agg;
use cell_core::{Code, NodeNo, Steps};
use qc_arena::{Forced, Images, Look, Nodes, QcArena, Record};
use std::marker::{Brand, Model};
use std::sync::ledger::{Blank, Ledger};
use warehouse::Stats;

/// The tree of a pinned version, and its counts. It is the present tree under the before-images
/// that were stored since, the oldest first. A read looks through them, each by two binary
/// searches, up to the first that has the node. Making and reading a view take no memory.
#[derive(Drop)]
pub struct PinnedView<'a> {
    tree: &'a QcArena,
    over: &'a [Images],
    root: Option<NodeNo>,
    stats: Stats,
}

impl<'a> Model for PinnedView<'a> {
    ghost use Rattle.std.specs.Coded.{codes};
    ghost use Rattle.qc_arena.specs.Codes.{tree_code};
    ghost use Rattle.qc_arena.specs.Map.{images_code};
    ghost use Rattle.pinned_view.specs.Past.{with_all_images};
    ghost use Rattle.pinned_view.specs.Views.{CountedTree, IsRootOf};

    ghost Value = { CountedTree };

    ghost coded = { Prim.hlevel (codes, tree_code, images_code) };

    ghost view = { λ v. record {
      width = v.tree.now.width;
      tree
          = with_all_images v.over.now v.tree.now.now;
      stats = v.stats;
      lists = v.over.now;
    } };

    ghost invariant = { λ v. IsRootOf v.tree.now.width
        (with_all_images v.over.now v.tree.now.now) v.root };
}

impl<'a> PinnedView<'a> {
    // The view of a tree under before-images, with its root and its counts.
    pub(crate) fn over(
        tree: &'a QcArena,
        over: &'a [Images],
        root: Option<NodeNo>,
        stats: Stats,
    ) -> PinnedView<'a>
        requires { IsRootOf tree.now.width (with_all_images over.now tree.now.now) root }
        ensures tree { result.tree ≡ with_all_images over.now tree.now.now }
        ensures width { result.width ≡ tree.now.width }
        ensures stats { result.stats ≡ stats }
        ensures lists { result.lists ≡ over.now }
    {
        PinnedView {
            tree,
            over,
            root,
            stats,
        }
    }

    /// The counts of the rows and of their tree at the pin.
    pub fn stats(&self) -> Stats
        ensures { result ≡ self.now.stats }
    {
        self.stats
    }

    /// What the lists of before-images say of a number: what the first that has it says, or Same if
    /// none has it. Then the node is as it is now. Each list that is looked at is a step, of two
    /// binary searches.
    pub fn look<L: Ledger>(&self, node: NodeNo, looks: &mut Steps<L>) -> Look<'a>
        ensures first { look_of_image result ≡ first_image self.now.lists node.0 }
        ensures says { SaysOf self.now.tree node.0 result }
        ensures looks { looks.new ≤ looks.old + length self.now.lists }
    {
        look_in(self.over, node, looks)
    }
}

// What the first before-images that have the number say of it. Each list that is looked at is a
// step.
fn look_in<'a, L: Ledger>(over: &'a [Images], node: NodeNo, looks: &mut Steps<L>) -> Look<'a>
    ensures value { look_of_image result ≡ first_image over.now node.0 }
    ensures looks { looks.new ≤ looks.old + length over.now }
{
    'images: for images in over {
        looks.tick();
        match images.look(node) {
            Look::Same => {}
            look => return look,
        }
    }
    Look::Same
}

// The same, with a count that the blank begins.
fn look_from<'a, L: Ledger>(over: &'a [Images], node: NodeNo, blank: Blank) -> Look<'a>
    requires name { blank.name ≡ L.name }
    requires parts { blank.parts ≡ L.parts }
    requires some { 0 < L.parts }
    ensures { look_of_image result ≡ first_image over.now node.0 }
{
    let mut looks = Steps::<L>::start(blank);
    look_in(over, node, &mut looks)
}

// The same, with a count of its own, which takes neither memory nor time.
fn first_look<'a>(over: &'a [Images], node: NodeNo) -> Look<'a>
    ensures { look_of_image result ≡ first_image over.now node.0 }
{
    look_from::<Brand>(over, node, Blank::new(1))
}

// The record that a node had, if it isn't the present one.
fn image_of<'a>(tree: &QcArena, over: &'a [Images], node: NodeNo) -> Option<&'a Record>
    requires { IsSome (map.get (with_all_images over.now tree.now.now) node.0) }
    ensures some { IfSome result (λ r. map.get (with_all_images over.now tree.now.now) node.0
        ≡ Some r.now) }
    ensures none { IfNone result (map.get (with_all_images over.now tree.now.now) node.0
        ≡ map.get tree.now.now node.0) }
{
    match first_look(over, node) {
        Look::Same => None,
        Look::Was(record) => Some(record),
        Look::Gone => unreachable!(),
    }
}

impl<'a> Nodes for PinnedView<'a> {
    ghost width = { λ v. v.width };

    ghost tree = { λ v. v.tree };

    fn dims(&self) -> u8 {
        self.tree.dims()
    }

    fn root<L: Ledger>(&self, steps: &mut Steps<L>) -> Option<NodeNo> {
        steps.tick();
        self.root
    }

    fn end_of<L: Ledger>(&self, node: NodeNo, steps: &mut Steps<L>) -> Option<(u8, Code)> {
        match image_of(self.tree, self.over, node) {
            Some(record) => {
                steps.tick();
                record.end_of()
            }
            None => self.tree.end_of(node, steps),
        }
    }

    fn parent<L: Ledger>(&self, node: NodeNo, steps: &mut Steps<L>) -> Option<NodeNo> {
        match image_of(self.tree, self.over, node) {
            Some(record) => {
                steps.tick();
                record.parent()
            }
            None => self.tree.parent(node, steps),
        }
    }

    fn forced<L: Ledger>(&self, node: NodeNo, steps: &mut Steps<L>) -> Option<Forced> {
        match image_of(self.tree, self.over, node) {
            Some(record) => {
                steps.tick();
                record.forced()
            }
            None => self.tree.forced(node, steps),
        }
    }

    fn edge<L: Ledger>(
        &self,
        node: NodeNo,
        dim: u8,
        code: Code,
        steps: &mut Steps<L>,
    ) -> Option<NodeNo> {
        match image_of(self.tree, self.over, node) {
            Some(record) => {
                steps.tick();
                record.edge(dim, code)
            }
            None => self.tree.edge(node, dim, code, steps),
        }
    }

    fn edge_count<L: Ledger>(&self, node: NodeNo, steps: &mut Steps<L>) -> u32 {
        match image_of(self.tree, self.over, node) {
            Some(record) => {
                steps.tick();
                record.edge_count()
            }
            None => self.tree.edge_count(node, steps),
        }
    }

    fn edge_at<L: Ledger>(&self, node: NodeNo, k: u32, steps: &mut Steps<L>) -> (u8, Code, NodeNo) {
        match image_of(self.tree, self.over, node) {
            Some(record) => {
                steps.tick();
                record.edge_at(k)
            }
            None => self.tree.edge_at(node, k, steps),
        }
    }

    fn class<L: Ledger>(&self, node: NodeNo, steps: &mut Steps<L>) -> Option<Agg> {
        match image_of(self.tree, self.over, node) {
            Some(record) => {
                steps.tick();
                record.class()
            }
            None => self.tree.class(node, steps),
        }
    }
}
