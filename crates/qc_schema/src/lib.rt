//! Reads and writes schemas: the names of a cube's columns, its limits, and its indexes.
#![tactic(auto)]

mod draft;
mod law;
mod limits;
mod lines;
mod reader;
mod refusal;
mod schema;
mod spelling;
mod words;

pub use cube_defs::Memory;
pub use law::a_schema_is_read_from_its_text;
pub use limits::{DEFAULT_NODES, SchemaVersion, VERSION_1_DIMS, VERSION_1_MEASURES};
pub use refusal::{SchemaCause, SchemaRefused};
pub use schema::{Schema, read_schema};
pub use spelling::schema_text;
pub use words::is_good_name;
