// What a batch changes: rows, texts and tree. A batch is opened on them, and then committed or
// rolled back.
ghost use Rattle.std.specs.Prelude.{is_some, length, map, take, true, ◌≡◌};
ghost use Rattle.qc_arena.specs.Map.{is_open};
ghost use Rattle.warehouse.specs.Changing.{IsBegun, IsCommitted, IsRolledBack, begun};
ghost use Rattle.warehouse.specs.Stored.{IsStored, IsTreeOfTable};

use crate::learning::lengths;
use base_table::Table;
use cube_defs::MAX_DIMS;
use qc_arena::QcArena;
use qc_schema::Schema;
use std::alloc::Global;
use value_dict::Dict;

/// The rows of a warehouse, their texts, and the tree of the rows.
#[derive(Drop)]
pub(crate) struct Cube {
    pub(crate) table: Table,
    pub(crate) dict: Dict,
    pub(crate) tree: QcArena,
    pub(crate) alloc: Global,
}

impl Cube {
    /// Opens a batch. Returns the number of texts of each dimension, to which a rollback cuts them.
    pub(crate) fn begin(&mut self, schema: &Schema) -> [u32; MAX_DIMS as usize]
        requires stored { IsStored schema.now self.old.dict self.old.table }
        requires kept { IsTreeOfTable schema.now self.old.table self.old.tree }
        ensures opened { self.new ≡ begun self.old }
        ensures begun { IsBegun schema.now self.new }
        ensures lens { take (length schema.now.dims) result ≡ map length self.old.dict.lists }
    {
        self.table.begin();
        self.tree.begin();
        lengths(&self.dict, schema.dims())
    }

    /// Commits the batch. The before-images of the touched nodes stay until they are moved out.
    pub(crate) fn commit(&mut self)
        requires rows { is_some self.old.table.was ≡ true }
        requires tree { is_open self.old.tree ≡ true }
        ensures { IsCommitted self.old self.new }
    {
        self.table.commit();
        self.table.recall_invariant();
        self.tree.commit();
    }

    /// Rolls the batch back: rows and tree are again those at its begin, and each dimension is cut
    /// to so many texts.
    pub(crate) fn roll_back(&mut self, lens: &[u32])
        requires rows { is_some self.old.table.was ≡ true }
        requires tree { is_open self.old.tree ≡ true }
        requires lens { length lens.now ≡ length self.old.dict.lists }
        ensures { IsRolledBack lens.now self.old self.new }
    {
        self.table.rollback();
        self.table.recall_invariant();
        self.dict.cut_back(lens);
        self.tree.rollback();
    }
}
