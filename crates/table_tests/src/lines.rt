// Lines that no script has: one of no bytes, and one with an LF in it.

use qc_schema::read_schema;
use query_script::{Command, LineRefused, Query, read_line};
use std::alloc::Global;

const SHOP: &[u8] = b"qcube 1\nid order\ndim store\ndim product\ndim season\n";

// How many fields a command asks for as a point, and none where it is another.
fn fields_of(command: Command) -> u32 {
    let fields = match &command {
        Command::Ask(Query::Point(fields)) => fields.len(),
        _ => 0,
    };
    drop(command);
    fields
}

// How many fields the line asks for as a point, or its refusal.
fn read(alloc: Global, line: &[u8]) -> Result<u32, LineRefused> {
    if line.len() > 1000 {
        return Ok(0);
    }
    let Ok(schema) = read_schema(alloc, SHOP) else {
        return Ok(0);
    };
    let read = read_line(alloc, &schema, line);
    drop(schema);
    match read {
        Ok(command) => Ok(fields_of(command)),
        Err(refused) => Err(refused),
    }
}

/// Whether they are read.
pub(crate) fn are_right(alloc: Global) -> bool {
    read(alloc, b"") == Err(LineRefused::Command) && read(alloc, b"point a\nb,c") == Ok(3)
}
