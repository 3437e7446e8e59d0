// The children of a node in a dimension. They are read edge by edge, if the node has few edges, and
// taken in the order of the codes that the box allows.
ghost use Rattle.std.specs.FinMap as map;
ghost use Rattle.std.specs.Prelude.{IfNone, IfSome, IsSome, IsTrue, None, Some, [], false, length, slice_get, take, ℕ, ◌++◌, ◌+◌, ◌<◌, ◌≡◌, ◌≢◌, ◌≤◌, ◌∷◌};
ghost use Rattle.qc_arena.specs.RecordReaders.{record_at};
ghost use Rattle.range_query.specs.Children.{AreDistinct, AreRead, IsFirst, NoneBetween};
ghost use Rattle.range_query.specs.declared.children.TheConstants.{MAX_READ};

use cell_core::{Code, NodeNo, Steps};
use qc_arena::Nodes;
use std::sync::ledger::Ledger;

/// At most so many edges of a node are read one by one.
pub(crate) const MAX_READ: u32 = 24;

/// Places in a list of at most so many codes are numbers of 32 bits.
pub(crate) const MAX_PLACES: u32 = u32::MAX;

/// A child, and the place of its value among the codes that the box allows.
#[derive(Clone, Copy)]
pub(crate) struct Child {
    pub(crate) place: u32,
    pub(crate) node: NodeNo,
}

/// The children with values that the box allows.
#[derive(Clone, Copy)]
pub(crate) struct Children {
    pub(crate) items: [Child; MAX_READ as usize],
    pub(crate) len: usize,
    ghost few: { len ≤ MAX_READ },
}

// The place of a code in a list.
fn place_in(codes: &[Code], code: Code) -> Option<u32>
    requires { length codes.now ≤ MAX_PLACES }
    ensures found { IfSome result (λ k. slice_get codes.now k ≡ Some code) }
    ensures none { IfNone result ((k : ℕ) → slice_get codes.now k ≢ Some code) }
{
    'places: for k in 0..codes.len() {
        if codes[k] == code {
            return Some(k as u32);
        }
    }
    None
}

impl Children {
    pub(crate) fn none() -> Children
        ensures { result.len ≡ 0 }
    {
        let nothing = Child {
            place: 0,
            node: NodeNo(0),
        };
        Children {
            items: [nothing; MAX_READ as usize],
            len: 0,
        }
    }

    fn push(&mut self, child: Child)
        requires { self.old.len < MAX_READ }
        ensures items { take self.new.len self.new.items
            ≡ take self.old.len self.old.items ++ child ∷ [] }
        ensures len { self.new.len ≡ self.old.len + 1 }
    {
        self.items[self.len] = child;
        self.len += 1;
    }

    /// Reads the node's children in a dimension with values that the box allows. False if the node
    /// has too many edges, or more than the box allows values.
    pub(crate) fn read<T: Nodes, L: Ledger>(
        &mut self,
        tree: &T,
        node: NodeNo,
        dim: u8,
        codes: &[Code],
        steps: &mut Steps<L>,
    ) -> bool
        requires empty { self.old.len ≡ 0 }
        requires node { IsSome (map.get (T.tree tree.now) node.0) }
        requires distinct { AreDistinct codes.now }
        ensures children { IsTrue result → AreRead codes.now dim
            (record_at (T.tree tree.now) node.0).edges (take self.new.len self.new.items) }
        ensures read { IsTrue result → steps.new ≤ steps.old + (1 + length codes.now) }
        ensures left { result ≡ false → steps.new ≡ steps.old + 1 }
    {
        let count = tree.edge_count(node, steps);
        if count > MAX_READ || count as usize > codes.len() || codes.len() > MAX_PLACES as usize {
            return false;
        }
        'edges: for k in 0..count {
            let (at, code, node) = tree.edge_at(node, k, steps);
            if at == dim {
                if let Some(place) = place_in(codes, code) {
                    self.push(Child { place, node });
                }
            }
        }
        true
    }

    /// The child with the first place from one on and before an end.
    pub(crate) fn next(&self, from: u32, end: u32) -> Option<Child>
        ensures some { IfSome result (λ child.
            IsFirst from (take self.now.len self.now.items) child.place child.node.0) }
        ensures before { IfSome result (λ child.
            NoneBetween from child.place (take self.now.len self.now.items)) }
        ensures end { IfSome result (λ child. child.place < end) }
        ensures none { IfNone result (NoneBetween from end (take self.now.len self.now.items)) }
    {
        let mut place = end;
        let mut node = NodeNo(0);
        'children: for k in 0..self.len {
            let child = self.items[k];
            if from <= child.place && child.place < place {
                place = child.place;
                node = child.node;
            }
        }
        if place < end {
            Some(Child { place, node })
        } else {
            None
        }
    }
}
