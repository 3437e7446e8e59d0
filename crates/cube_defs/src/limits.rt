// The limits of a cube.

/// The greatest number of dimensions of a cube.
pub const MAX_DIMS: u8 = 16;

/// The greatest number of measures of a cube.
pub const MAX_MEASURES: u8 = 4;

/// The greatest number of digits after the point of a measure.
pub const MAX_SCALE: u8 = 6;

/// The greatest magnitude of an amount, in units of its measure's last digit.
pub const MAX_AMOUNT: u64 = 999_999_999_999;

/// The greatest length of a text, in bytes.
pub const MAX_TEXT: usize = 255;

/// The greatest number of texts of a dimension. Each code of a text is smaller.
pub const MAX_CODES: u32 = 4_000_000;

/// The greatest number of nodes of a tree.
pub const MAX_NODES: u32 = 4_000_000;

/// The greatest number of rows of a table.
pub const MAX_ROWS: u32 = 1_000_000;

/// The greatest size of a file, in bytes.
pub const MAX_FILE: usize = 268_435_456;
