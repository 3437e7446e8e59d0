// What a schema says.

use aggregates::AggKind;
use qc_schema::{Schema, read_schema};
use std::alloc::Global;

fn is_dim(schema: &Schema, dim: u8, name: &str) -> bool {
    dim < schema.dims() && schema.dim_name(dim) == name
}

fn is_measure(schema: &Schema, measure: u8, name: &str, scale: u8) -> bool {
    measure < schema.measures()
        && schema.measure_name(measure) == name
        && schema.scale(measure) == scale
}

// Whether a schema has one index, of this kind.
fn has_index(schema: &Schema, kind: AggKind) -> bool {
    schema.indexes() == [kind].as_slice()
}

fn has_limits(schema: &Schema, nodes: u32, rows: u32, values: u32) -> bool {
    schema.nodes() == nodes && schema.rows() == rows && schema.values() == values
}

fn has_names(schema: &Schema) -> bool {
    schema.dims() == 2
        && schema.measures() == 1
        && schema.id_name() == "order"
        && is_dim(schema, 0, "store")
        && is_dim(schema, 1, "product")
        && is_measure(schema, 0, "sale", 2)
}

fn is_read(alloc: Global) -> bool {
    let text =
        b"qcube 1\nid order\ndim store\ndim product\nmeasure sale 2\nindex sum sale\nnodes 11\nrows 12\nvalues 13\n";
    let Ok(schema) = read_schema(alloc, text) else {
        return false;
    };
    let is_right = has_names(&schema)
        && has_index(&schema, AggKind::Sum(0))
        && has_limits(&schema, 11, 12, 13)
        && schema.version() == 1;
    drop(schema);
    is_right
}

// The scale of a measure that is named, and 99 where none is.
fn scale_named(schema: &Schema, name: &[u8]) -> u8 {
    match schema.measure_named(name) {
        Some(measure) if measure < schema.measures() => schema.scale(measure),
        _ => 99,
    }
}

static SCALES: [(&[u8], u8); 5] = [
    (b"sale", 2),
    (b"tax", 1),
    (b"count", 0),
    (b"share", 6),
    (b"store", 99),
];

fn has_scales(schema: &Schema) -> bool {
    'names: for (name, scale) in &SCALES {
        if scale_named(schema, *name) != *scale {
            return false;
        }
    }
    true
}

fn are_scales_read(alloc: Global) -> bool {
    let text =
        b"qcube 2\nid order\ndim store\nmeasure sale 2\nmeasure tax 1\nmeasure count 0\nmeasure share 6\nindex mean share\n";
    let Ok(schema) = read_schema(alloc, text) else {
        return false;
    };
    let is_right = schema.version() == 2
        && schema.measures() == 4
        && has_index(&schema, AggKind::Mean(3))
        && has_scales(&schema);
    drop(schema);
    is_right
}

/// Whether schemas are read.
pub(crate) fn are_right(alloc: Global) -> bool {
    is_read(alloc) && are_scales_read(alloc)
}
