// What is asked for so far.
ghost use Rattle.std.specs.Prelude.{length, ◌≤◌};

use crate::record::Shape;
use cell_core::Fields;

/// What the fields of a record ask for so far: at most one field for each of so many dimensions.
#[derive(Drop)]
pub(crate) struct AskedFields {
    pub shape: Shape,
    pub dims: u8,
    pub fields: Fields,
    pub ghost few: { length fields ≤ dims },
}
