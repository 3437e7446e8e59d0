// The limits of a schema, by its version.
ghost use Rattle.std.specs.Prelude.{◌≡◌};
ghost use Rattle.qc_schema.specs.Schema.{max_dims, max_measures, version_number, version_word};

use cube_defs::{MAX_DIMS, MAX_MEASURES};

/// The most dimensions of a schema of version 1.
pub const VERSION_1_DIMS: u8 = 12;

/// The most measures of a schema of version 1.
pub const VERSION_1_MEASURES: u8 = 1;

/// The most nodes of a tree whose schema has no line `nodes`.
pub const DEFAULT_NODES: u32 = 1_000_000;

/// The version of a schema, which its first line names.
#[derive(Clone, Copy)]
pub enum SchemaVersion {
    /// 1 to 12 dimensions and at most one measure.
    One,
    /// As many dimensions and measures as a cube may have: 1 to 16 and up to 4.
    Two,
}

impl SchemaVersion {
    /// The number of the version: 1 or 2.
    pub fn number(self) -> u8
        ensures { result ≡ version_number self }
    {
        match self {
            SchemaVersion::One => 1,
            SchemaVersion::Two => 2,
        }
    }

    /// The word that names the version.
    pub fn word(self) -> &'static str
        ensures { result.now ≡ version_word self }
    {
        match self {
            SchemaVersion::One => "1",
            SchemaVersion::Two => "2",
        }
    }

    /// The most dimensions of a schema of the version.
    pub fn max_dims(self) -> u8
        ensures { result ≡ max_dims self }
    {
        match self {
            SchemaVersion::One => VERSION_1_DIMS,
            SchemaVersion::Two => MAX_DIMS,
        }
    }

    /// The most measures of a schema of the version.
    pub fn max_measures(self) -> u8
        ensures { result ≡ max_measures self }
    {
        match self {
            SchemaVersion::One => VERSION_1_MEASURES,
            SchemaVersion::Two => MAX_MEASURES,
        }
    }
}
