// Adding, restoring and freeing nodes, and comparing their cells.
ghost use Rattle.std.specs.Prelude.{IfOk, IfSome, IsSome, None, OnErr, Some, [], if◌then◌else◌, length, nat_eq, ℕ, ◌<◌, ◌≡◌, ◌≢◌, ◌≤◌};
ghost use Rattle.std.specs.FinMap as map;
ghost use Rattle.std.specs.Option.{option_map};
ghost use Rattle.std.specs.Ordering.{nat_cmp};
ghost use Rattle.slab.specs.Slab as slots;
ghost use Rattle.cube_defs.specs.Cell.{cell_eq, depth};
ghost use Rattle.tree_laws.specs.Counts.{is_parent_of};
ghost use Rattle.qc_arena.specs.Inside.{IsRooted, image_at, image_or, join, now_of};
ghost use Rattle.qc_arena.specs.Resized.{resized};
ghost use Rattle.qc_arena.specs.RecordReaders.{record_or};

use crate::Memory;
use crate::image::Image;
use crate::kept_record::KeptRecord;
use crate::node_store::NodeStore;
use crate::touched::Touched;

// Restores a node from its before-image: the record that it had, or none.
fn put_image(nodes: &mut NodeStore, node: u32, image: Image)
    requires { slots.ContainsKey nodes.old node }
    ensures now { join (slots.get nodes.new node) ≡ image }
    ensures here { slots.get nodes.new node ≢ Some None }
    ensures others { (q : ℕ) → q ≢ node → slots.get nodes.new q ≡ slots.get nodes.old q }
{
    match image.into_record() {
        Some(was) => nodes.restore(node, was),
        None => nodes.remove(node),
    }
}

// Frees the place of a killed node.
fn clear_killed(nodes: &mut NodeStore, node: u32)
    requires { slots.ContainsKey nodes.old node }
    ensures now { (q : ℕ) → join (slots.get nodes.new q) ≡ join (slots.get nodes.old q) }
    ensures here { slots.get nodes.new node ≢ Some None }
    ensures others { (q : ℕ) → q ≢ node → slots.get nodes.new q ≡ slots.get nodes.old q }
{
    if nodes.is_killed(node) {
        nodes.remove(node);
    }
}

// Restores each touched node from its before-image, and removes the new nodes.
pub(crate) fn restore_all(nodes: &mut NodeStore, images: &mut Touched)
    requires placed { (q : ℕ) → IsSome (image_at images.old q) → slots.ContainsKey nodes.old q }
    requires killed { (q : ℕ) → slots.get nodes.old q ≡ Some None → IsSome (image_at images.old q) }
    ensures nodes { (q : ℕ) → join (slots.get nodes.new q) ≡ image_or nodes.old images.old q }
    ensures none_killed { (q : ℕ) → slots.get nodes.new q ≢ Some None }
    ensures images { images.new ≡ [] }
{
    'images: while let Some((node, image)) = images.pop() {
        put_image(nodes, node, image);
    }
}

// Frees the places of the killed nodes. Stops when there are no more places in use than nodes.
pub(crate) fn free_places(nodes: &mut NodeStore, images: &Touched, live: u32)
    requires placed { (q : ℕ) → IsSome (image_at images.now q) → slots.ContainsKey nodes.old q }
    requires killed { (q : ℕ) → slots.get nodes.old q ≡ Some None → IsSome (image_at images.now q) }
    requires live { live ≡ map.len (now_of nodes.old) }
    ensures nodes { (q : ℕ) → join (slots.get nodes.new q) ≡ join (slots.get nodes.old q) }
    ensures none_killed { (q : ℕ) → slots.get nodes.new q ≢ Some None }
{
    'images: for k in 0..images.len() {
        if nodes.len() == live as usize {
            return;
        }
        clear_killed(nodes, images.number(k));
    }
}

// Gives each cell another number of dimensions.
pub(crate) fn resize_all(nodes: &mut NodeStore, dims: u8)
    requires none_killed { (q : ℕ) → slots.get nodes.old q ≢ Some None }
    requires deep { (q : ℕ) → IfSome (join (slots.get nodes.old q)) (λ n. depth n.cell ≤ dims) }
    ensures nodes { (q : ℕ)
        → join (slots.get nodes.new q) ≡ option_map (resized dims) (join (slots.get nodes.old q)) }
    ensures none_killed { (q : ℕ) → slots.get nodes.new q ≢ Some None }
{
    'places: for place in 0..nodes.capacity() {
        nodes.set_width(place, dims);
    }
}

// Adds a node that is no class, and marks it as new. Its number was free.
pub(crate) fn add_record(
    nodes: &mut NodeStore,
    images: &mut Touched,
    new: KeptRecord,
) -> Result<u32, Memory>
    requires class { new.node.class ≡ None }
    requires edges { new.node.edges ≡ [] }
    requires placed { (q : ℕ) → IsSome (image_at images.old q) → slots.ContainsKey nodes.old q }
    ensures free { IfOk result (λ k. slots.get nodes.old k ≡ None) }
    ensures here { IfOk result (λ k. slots.get nodes.new k ≡ Some (Some new.node)) }
    ensures others { IfOk result (λ k. (q : ℕ) → q ≢ k
        → slots.get nodes.new q ≡ slots.get nodes.old q) }
    ensures images { IfOk result (λ k. (q : ℕ)
        → image_at images.new q ≡ (if nat_eq k q then Some None else image_at images.old q)) }
    ensures err_nodes { OnErr result ((q : ℕ) → slots.get nodes.new q ≡ slots.get nodes.old q) }
    ensures err_images { OnErr result (images.new ≡ images.old) }
{
    let node = match nodes.insert(new) {
        Ok(node) => node,
        Err(error) => return Err(error),
    };
    match images.add_new(node) {
        Ok(()) => Ok(node),
        Err(error) => {
            nodes.remove(node);
            Err(error)
        }
    }
}

// Whether two nodes have the same cell. Compares the labels on the way up.
fn same_cell(nodes: &NodeStore, node: u32, other: u32) -> bool
    requires node { IsSome (join (slots.get nodes.now node)) }
    requires other { IsSome (join (slots.get nodes.now other)) }
    requires cells { (k : ℕ) → IsSome (join (slots.get nodes.now k)) →
        length (record_or (join (slots.get nodes.now k))).cell
        ≡ length (record_or (join (slots.get nodes.now node))).cell }
    requires rooted { IsRooted nodes.now }
    ensures { result ≡ cell_eq nat_eq (record_or (join (slots.get nodes.now node))).cell
        (record_or (join (slots.get nodes.now other))).cell }
{
    let mut left = node;
    let mut right = other;
    'up: while left != right {
        if !nodes.shares_end(left, right) {
            return false;
        }
        let Some(above) = nodes.parent(left) else {
            return true;
        };
        let Some(beside) = nodes.parent(right) else {
            return true;
        };
        left = above.0;
        right = beside.0;
    }
    true
}

// Whether an edge between two nodes is a tree edge.
pub(crate) fn is_child(nodes: &NodeStore, node: u32, target: u32) -> bool
    requires node { IsSome (join (slots.get nodes.now node)) }
    requires target { IsSome (join (slots.get nodes.now target)) }
    requires cells { (k : ℕ) → IsSome (join (slots.get nodes.now k)) →
        length (record_or (join (slots.get nodes.now k))).cell
        ≡ length (record_or (join (slots.get nodes.now node))).cell }
    requires rooted { IsRooted nodes.now }
    ensures { result ≡ is_parent_of nat_cmp (record_or (join (slots.get nodes.now node))).cell
        (Some (record_or (join (slots.get nodes.now target))).cell) }
{
    match nodes.parent(target) {
        None => false,
        Some(parent) => same_cell(nodes, parent.0, node),
    }
}
