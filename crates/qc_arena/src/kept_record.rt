// The record of a node.
ghost use Rattle.std.specs.Prelude.{IfNone, IfSome, IsTrue, None, Some, [], false, is_some, length, replicate, slice_get, true, ℕ, ◌<◌, ◌∷◌, ◌≡◌, ◌≢◌, ◌≤◌};
ghost use Rattle.cell_core.specs.Entry.{IsCode};
ghost use Rattle.std.specs.Option.{option_map};
ghost use Rattle.aggregates.specs.Views.{agg_in};
ghost use Rattle.cube_defs.specs.Cell.{depth, with_value};
ghost use Rattle.std.specs.Ordering.{eq_by_cmp, nat_cmp};
ghost use Rattle.tree_laws.specs.Walk.{last_label, target_at};
ghost use Rattle.qc_arena.specs.Changes.{count_in};
ghost use Rattle.qc_arena.specs.Edges.{code_of, edge_in, edge_to, rises};
ghost use Rattle.qc_arena.specs.KeptSlot.{CanForce, with_edges};
ghost use Rattle.qc_arena.specs.NodeRecord.{IsTrail, cell_on, label_in, parent_in};
ghost use Rattle.qc_arena.specs.Map.{bare, with_class, with_forced};
ghost use Rattle.qc_arena.specs.Resized.{resized};
ghost use Rattle.qc_arena.specs.RecordReaders.{edge_of, label_lt, number};

use crate::edge::{PlainEdge, StoredEdge};
use crate::label_path::LabelPath;
use crate::nodes::Forced;
use aggregates::Agg;
use cell_core::{Code, NodeNo};
use cube_defs::MAX_MEASURES;
use std::marker::Model;

/// The dimension of the last value in the root's record, since the root has no value.
const ROOT: u8 = 255;

/// In place of a list's place: the record has one edge, which it keeps itself.
const ONE_EDGE: u32 = 4_294_967_294;

/// In place of a list's place: the record has no edges.
const NO_EDGES: u32 = 4_294_967_295;

/// The record of a node. Its cell isn't stored: it follows from the labels on the way down from the
/// root. `up` has the last label and the parent. For a class there are COUNT and the number of
/// measures; COUNT is 0 in other nodes. `first` is the forced child, if there is one, and the only
/// edge, if there is one edge in the record. More edges lie in a list elsewhere, and `list` is its
/// place. A killed node keeps its record under a mark.
#[derive(Drop)]
pub(crate) struct KeptRecord {
    trail: LabelPath<u8, u32>,
    noted: LabelPath<u32, Agg>,
    up: StoredEdge,
    count: u32,
    first: StoredEdge,
    list: u32,
    measures: u8,
    has_forced: bool,
    is_killed: bool,
}

const _: () = prove!(size_of::<KeptRecord>() == 28);

impl Model for KeptRecord {
    ghost use Rattle.qc_arena.specs.KeptSlot.{Kept, kept_code};

    ghost Value = { Kept };

    ghost coded = { kept_code };

    ghost use Rattle.qc_arena.specs.NodeRecord.{cell_on, class_on, parent_in};
    ghost use Rattle.qc_arena.specs.KeptRecord.{IsKeptRecord, edges_by, forced_by, place_by};

    ghost view = { λ r. record {
      node
          = record {
            cell = cell_on r.trail.items;
            parent = parent_in r.up.dim r.up.target;
            class
                = class_on r.noted.items;
            forced = forced_by r.has_forced r.first;
            edges = edges_by r.list r.first;
          };
      place = place_by r.list;
      is_killed = r.is_killed;
    } };

    ghost invariant = { λ r. IsKeptRecord r.trail.items r.noted.items r.up r.count
        r.measures };
}

// Whether a kept edge has this label and this target.
fn is_same(kept: StoredEdge, dim: u8, code: Code, target: u32) -> bool
    ensures { IsTrue result → edge_to kept ≡ record { dim = dim; value = code; target = target } }
{
    kept.dim == dim && kept.code() == code && kept.target == target
}

impl KeptRecord {
    // A record with these labels, and nothing else.
    fn new(trail: LabelPath<u8, u32>, up: StoredEdge) -> KeptRecord
        requires end { last_label (cell_on trail.items) ≡ label_in up.dim (code_of up) }
        requires few { length (cell_on trail.items) ≤ 255 }
        requires begun { trail.items ≢ [] }
        requires within { IsTrail trail.items }
        ensures node { result.node ≡ bare (cell_on trail.items) (parent_in up.dim up.target) }
        ensures place { result.place ≡ None }
    {
        KeptRecord {
            trail,
            noted: LabelPath::<u32, Agg>::new(),
            up,
            first: StoredEdge::default(),
            count: 0,
            list: NO_EDGES,
            measures: 0,
            has_forced: false,
            is_killed: false,
        }
    }

    // The record of the root, whose cell has no value.
    pub(crate) fn root(dims: u8) -> KeptRecord
        ensures node { result.node ≡ bare (replicate dims None) None }
        ensures place { result.place ≡ None }
    {
        let nothing = LabelPath::<u8, u32>::new();
        let up = PlainEdge {
            dim: ROOT,
            code: 0,
            target: 0,
        };
        KeptRecord::new(nothing.and(&dims, &0), StoredEdge::of(up))
    }

    // The record of the child of a node, with one more value.
    pub(crate) fn child(&self, node: NodeNo, dim: u8, code: Code) -> KeptRecord
        requires behind { depth self.now.node.cell ≤ dim }
        requires dim { dim < length self.now.node.cell }
        requires code { IsCode code }
        ensures node { result.node ≡ bare (with_value self.now.node.cell dim code) (Some node.0) }
        ensures place { result.place ≡ None }
    {
        let up = PlainEdge {
            dim,
            code,
            target: node.0,
        };
        KeptRecord::new(self.trail.and(&dim, &code), StoredEdge::of(up))
    }

    // A copy without edges. The forced child and the class stay.
    pub(crate) fn copy(&self) -> KeptRecord
        ensures node { result.node ≡ with_edges [] self.now.node }
        ensures place { result.place ≡ None }
        ensures alive { result.is_killed ≡ false }
    {
        KeptRecord {
            trail: self.trail.copy(),
            noted: self.noted.copy(),
            up: self.up,
            first: self.first,
            count: self.count,
            list: NO_EDGES,
            measures: self.measures,
            has_forced: self.has_forced,
            is_killed: false,
        }
    }

    // The place of the list of edges, if there is one.
    pub(crate) fn place(&self) -> Option<u32>
        ensures { result ≡ self.now.place }
    {
        if self.list >= ONE_EDGE {
            return None;
        }
        Some(self.list)
    }

    // The only edge, if it lies in the record.
    pub(crate) fn only(&self) -> Option<PlainEdge>
        ensures some { IfSome result (λ e. (self.now.node.edges ≡ edge_in e ∷ [])
            × (self.now.place ≡ None)) }
        ensures none { IfNone result (self.now.node.edges ≡ []) }
    {
        if self.list != ONE_EDGE {
            return None;
        }
        Some(self.first.plain())
    }

    // The number of edges in the record.
    pub(crate) fn own_count(&self) -> u32
        ensures value { result ≡ length self.now.node.edges }
        ensures rising { (i j : ℕ) (e f : _) → i < j → slice_get self.now.node.edges i ≡ Some e
            → slice_get self.now.node.edges j ≡ Some f →
            label_lt e f ≡ true }
    {
        if self.list == ONE_EDGE { 1 } else { 0 }
    }

    // The target of the edge in the record, if its label is this one.
    pub(crate) fn own_target(&self, dim: u8, code: Code) -> Option<NodeNo>
        ensures value { option_map number result
            ≡ target_at (eq_by_cmp nat_cmp) dim code self.now.node.edges }
        ensures rising { rises self.now.node.edges ≡ true }
    {
        if self.list == ONE_EDGE && self.first.dim == dim && self.first.code() == code {
            return Some(NodeNo(self.first.target));
        }
        None
    }

    // Leaves the edges to a list at a place.
    pub(crate) fn set_place(&mut self, place: u32)
        requires { place < 4294967294 }
        ensures { self.new ≡ record self.old {
          node = with_edges [] self.old.node;
          place = Some place;
        } }
    {
        self.list = place;
    }

    // Removes the edges, and the place of a list.
    pub(crate) fn clear_edges(&mut self)
        ensures { self.new ≡ record self.old {
          node = with_edges [] self.old.node;
          place = None;
        } }
    {
        self.list = NO_EDGES;
    }

    // Takes an edge as the only one, if it can: if there is no forced child, or the edge leads to
    // it, and if there are no edges yet.
    pub(crate) fn try_only(&mut self, edge: PlainEdge) -> bool
        ensures taken { result ≡ true → self.new ≡ record self.old {
          node
              = with_edges (edge_in edge ∷ []) self.old.node;
        } }
        ensures place { self.new.place ≡ self.old.place }
        ensures free { result ≡ true → self.old.node.edges ≡ [] }
        ensures unlisted { result ≡ true → self.old.place ≡ None }
        ensures left { result ≡ false → self.new ≡ self.old }
    {
        if self.list != NO_EDGES {
            return false;
        }
        if self.has_forced && !is_same(self.first, edge.dim, edge.code, edge.target) {
            return false;
        }
        self.first = StoredEdge::of(edge);
        self.list = ONE_EDGE;
        true
    }

    // Whether the record can have this forced child and its edge, too.
    pub(crate) fn can_force(&self, forced: Option<Forced>) -> bool
        ensures can { result ≡ true → CanForce self.now forced }
        ensures only { result ≡ false → self.now.place ≡ None }
    {
        match forced {
            None => true,
            Some(edge) => {
                self.list != ONE_EDGE || is_same(self.first, edge.dim, edge.code, edge.child.0)
            }
        }
    }

    pub(crate) fn set_forced(&mut self, forced: Option<Forced>)
        requires code { IfSome forced (λ f. IsCode f.code) }
        requires can { CanForce self.old forced }
        ensures { self.new ≡ record self.old {
          node
              = with_forced (option_map edge_of forced) self.old.node;
        } }
    {
        match forced {
            Some(edge) => {
                let to_child = PlainEdge {
                    dim: edge.dim,
                    code: edge.code,
                    target: edge.child.0,
                };
                self.first = StoredEdge::of(to_child);
                self.has_forced = true;
            }
            None => self.has_forced = false,
        }
    }

    // Sets COUNT and the number of measures. The other parts of the aggregate are stored elsewhere.
    pub(crate) fn set_class(&mut self, class: &Option<Agg>)
        requires { IfSome class.now (λ a. length a.parts ≡ MAX_MEASURES) }
        ensures { self.new ≡ record self.old {
          node
              = with_class (option_map agg_in class.now) self.old.node;
        } }
    {
        let none = LabelPath::<u32, Agg>::new();
        match class {
            Some(agg) => {
                self.noted = none.and(&0, agg);
                self.count = agg.count;
                self.measures = agg.measures;
            }
            None => {
                self.noted = none;
                self.count = 0;
            }
        }
    }

    // Gives the cell another number of dimensions. The new ones are Any.
    pub(crate) fn set_width(&mut self, dims: u8)
        requires { depth self.old.node.cell ≤ dims }
        ensures { self.new ≡ record self.old { node = resized dims self.old.node } }
    {
        self.trail = self.trail.behind(&dims, &0);
    }

    // Marks the node as killed.
    pub(crate) fn kill(&mut self)
        ensures { self.new ≡ record self.old { is_killed = true } }
    {
        self.is_killed = true;
    }

    pub(crate) fn is_killed(&self) -> bool
        ensures { result ≡ self.now.is_killed }
    {
        self.is_killed
    }

    pub(crate) fn end_of(&self) -> Option<(u8, Code)>
        ensures value { result ≡ last_label self.now.node.cell }
        ensures small { IfSome result (λ label. IsCode label.1) }
    {
        if self.up.dim == ROOT {
            return None;
        }
        Some((self.up.dim, self.up.code()))
    }

    // Whether two nodes have the same last value, or none each.
    pub(crate) fn shares_end(&self, other: &KeptRecord) -> bool
        ensures same { result ≡ true
            → last_label self.now.node.cell ≡ last_label other.now.node.cell }
        ensures apart { result ≡ false
            → last_label self.now.node.cell ≢ last_label other.now.node.cell }
    {
        match self.end_of() {
            None => other.end_of().is_none(),
            Some(end) => match other.end_of() {
                None => false,
                Some(other_end) => end.0 == other_end.0 && end.1 == other_end.1,
            },
        }
    }

    pub(crate) fn parent(&self) -> Option<NodeNo>
        ensures { option_map number result ≡ self.now.node.parent }
    {
        if self.up.dim == ROOT {
            return None;
        }
        Some(NodeNo(self.up.target))
    }

    pub(crate) fn forced(&self) -> Option<Forced>
        ensures value { option_map edge_of result ≡ self.now.node.forced }
        ensures small { IfSome result (λ edge. IsCode edge.code) }
    {
        if !self.has_forced {
            return None;
        }
        Some(Forced {
            dim: self.first.dim,
            code: self.first.code(),
            child: NodeNo(self.first.target),
        })
    }

    pub(crate) fn is_class(&self) -> bool
        ensures { result ≡ is_some self.now.node.class }
    {
        self.count != 0
    }

    // COUNT. 0 if the node is no class.
    pub(crate) fn count(&self) -> u32
        ensures { result ≡ count_in self.now.node.class }
    {
        self.count
    }

    // COUNT and the number of measures. None if the node is no class.
    pub(crate) fn heading(&self) -> Option<(u32, u8)>
        ensures count { option_map (λ h. h.0) result
            ≡ option_map (λ a. a.count) self.now.node.class }
        ensures measures { option_map (λ h. h.1) result
            ≡ option_map (λ a. length a.parts) self.now.node.class }
    {
        if self.count == 0 {
            return None;
        }
        Some((self.count, self.measures))
    }
}
