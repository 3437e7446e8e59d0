// A record of a file, with the columns of the file's header.
ghost use Rattle.std.specs.Prelude.{length, ◌<◌, ◌≡◌};
ghost use Rattle.csv.specs.Records.{fields_of};
ghost use Rattle.csv_load.specs.Columns.{AreColumns};

use crate::columns::Columns;
use csv::ByteRecord;
use qc_schema::Schema;
use text_lines::field;

/// A record under its number. It has as many fields as the header, in which the needed columns of
/// the schema stand.
#[derive(Drop)]
pub struct FileRow<'a> {
    pub schema: &'a Schema,
    pub columns: &'a Columns,
    pub fields: &'a ByteRecord,
    pub number: u32,
    pub ghost are: { AreColumns schema.now columns.now },
    pub ghost wide: { length (fields_of fields.now) ≡ columns.now.width },
}

impl<'a> FileRow<'a> {
    ghost use Rattle.std.specs.Prelude.{[], slice_index_or};
    ghost use Rattle.csv_load.specs.FileRows.{needed_of};

    /// The field in a needed column, counted from 0 in the schema's order.
    pub fn needed(&self, column: usize) -> &'a [u8]
        requires { column < length self.now.columns.now.places.items }
        ensures { result.now ≡ slice_index_or (needed_of self.now) column [] }
    {
        field(self.fields, self.columns.places[column])
    }
}
