// What a snapshot has.
ghost use Rattle.std.specs.Prelude.{All, length, ◌<◌, ◌^◌, ◌≤◌};
ghost use Rattle.cube_defs.specs.declared.limits.TheConstants.{MAX_TEXT};

use base_table::Table;
use value_dict::Dict;

/// The parts of a state that a snapshot has: the text of the schema, whose length takes four bytes,
/// the texts of the dimensions, whose lengths take a byte each, and the rows.
#[derive(Drop)]
pub(crate) struct Contents<'a> {
    pub schema: &'a Vec<u8>,
    pub dict: &'a Dict,
    pub table: &'a Table,
    pub ghost spelled: { length schema.now.items < 2 ^ 32 },
    pub ghost short: { All (All (λ t. length t ≤ MAX_TEXT)) dict.now.lists },
}
