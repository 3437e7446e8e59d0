// The class of a node that moves to a new child, and back.
ghost use Rattle.std.specs.Prelude.{IfOk, IsSome, None, OnErr, Some, is_some, length, ℕ, ◌<◌, ◌≡◌, ◌≢◌, ◌≤◌};
ghost use Rattle.slab.specs.Slab as slots;
ghost use Rattle.cube_defs.specs.Cell.{depth, with_value};
ghost use Rattle.qc_arena.specs.Inside.{join};
ghost use Rattle.qc_arena.specs.Lowered.{heir_of, with_class_back, with_forced_child};
ghost use Rattle.qc_arena.specs.Map.{bare};
ghost use Rattle.qc_arena.specs.RecordReaders.{record_or};

use crate::Memory;
use crate::node_store::NodeStore;
use crate::nodes::Forced;
use cell_core::NodeNo;

/// The new child that has the class of its parent, and how many edges the parent had and has.
#[derive(Clone, Copy)]
pub(crate) struct HandedDown {
    pub child: u32,
    pub had: u32,
    pub has: u32,
}

/// Whether a node and its child were classes before the child gave its class back, how many edges
/// the child had, and how many the node had and has.
#[derive(Clone, Copy)]
pub(crate) struct TakenBack {
    pub was_class: bool,
    pub child_is_class: bool,
    pub child_edges: u32,
    pub had: u32,
    pub has: u32,
}

// Moves the class of a node to a new child of it, with the code 0 in the dimension. Gives the
// child, and how many edges the node had and has. If memory runs out, all is as it was.
pub(crate) fn hand_down_at(nodes: &mut NodeStore, node: u32, dim: u8) -> Result<HandedDown, Memory>
    requires node { IsSome (join (slots.get nodes.old node)) }
    requires behind { depth (record_or (join (slots.get nodes.old node))).cell ≤ dim }
    requires dim { dim < length (record_or (join (slots.get nodes.old node))).cell }
    ensures here { IfOk result (λ r. slots.get nodes.new node
        ≡ Some (Some (with_forced_child dim r.child
        (record_or (join (slots.get nodes.old node)))))) }
    ensures child { IfOk result (λ r. slots.get nodes.new r.child
        ≡ Some (Some (heir_of dim node (record_or (join (slots.get nodes.old node)))))) }
    ensures free { IfOk result (λ r. slots.get nodes.old r.child ≡ None) }
    ensures others { IfOk result (λ r. (q : ℕ) → q ≢ node → q ≢ r.child
        → slots.get nodes.new q ≡ slots.get nodes.old q) }
    ensures had { IfOk result
        (λ r. r.had ≡ length (record_or (join (slots.get nodes.old node))).edges) }
    ensures has { IfOk result (λ r. r.has ≡ length (with_forced_child dim r.child
        (record_or (join (slots.get nodes.old node)))).edges) }
    ensures err { OnErr result ((q : ℕ) → slots.get nodes.new q ≡ slots.get nodes.old q) }
{
    let bare = nodes.child_of(node, dim, 0);
    let child = match nodes.insert(bare) {
        Ok(child) => child,
        Err(error) => return Err(error),
    };
    let had = nodes.edge_count(node);
    match nodes.set_edge(node, dim, 0, child) {
        Ok(_) => {
            let has = nodes.edge_count(node);
            nodes.move_class(node, child);
            let forced = Forced {
                dim,
                code: 0,
                child: NodeNo(child),
            };
            nodes.set_forced(node, Some(forced));
            Ok(HandedDown { child, had, has })
        }
        Err(error) => {
            nodes.remove(child);
            Err(error)
        }
    }
}

// Gives the class of a child back to its parent, and frees the child's place. Gives whether the two
// were classes, how many edges the child had, and how many the parent had and has.
pub(crate) fn take_back_at(nodes: &mut NodeStore, node: u32, child: u32, dim: u8) -> TakenBack
    requires child { IsSome (join (slots.get nodes.old child)) }
    requires node { IsSome (join (slots.get nodes.old node)) }
    requires apart { node ≢ child }
    ensures here { slots.get nodes.new node ≡ Some (Some (with_class_back dim
        (record_or (join (slots.get nodes.old child))).class
        (record_or (join (slots.get nodes.old node))))) }
    ensures gone { slots.get nodes.new child ≡ None }
    ensures others { (q : ℕ) → q ≢ node → q ≢ child
        → slots.get nodes.new q ≡ slots.get nodes.old q }
    ensures was_class { result.was_class
        ≡ is_some (record_or (join (slots.get nodes.old node))).class }
    ensures child_is_class { result.child_is_class
        ≡ is_some (record_or (join (slots.get nodes.old child))).class }
    ensures child_edges { result.child_edges
        ≡ length (record_or (join (slots.get nodes.old child))).edges }
    ensures had { result.had ≡ length (record_or (join (slots.get nodes.old node))).edges }
    ensures has { result.has ≡ length (with_class_back dim
        (record_or (join (slots.get nodes.old child))).class
        (record_or (join (slots.get nodes.old node)))).edges }
{
    let was_class = nodes.is_class(node);
    let child_is_class = nodes.is_class(child);
    let child_edges = nodes.edge_count(child);
    nodes.move_class(child, node);
    nodes.set_forced(node, None);
    let (had, has) = nodes.drop_edge(node, dim, 0);
    nodes.remove(child);
    TakenBack {
        was_class,
        child_is_class,
        child_edges,
        had,
        has,
    }
}
