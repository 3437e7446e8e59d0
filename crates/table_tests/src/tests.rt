use crate::{
    cells, closures, drawn_files, fields, files, lines, numbers, outside, records, rows, schemas,
    texts, wider, widths,
};
use std::alloc::Global;
use std::test::Fail;

// Which of the modules are right.
fn all_modules(alloc: Global) -> [bool; 14] {
    [
        cells::are_right(alloc),
        closures::are_right(alloc),
        drawn_files::are_right(alloc),
        fields::are_right(alloc),
        files::are_right(alloc),
        lines::are_right(alloc),
        numbers::are_right(),
        outside::are_right(alloc),
        records::are_right(alloc),
        rows::are_right(alloc),
        schemas::are_right(alloc),
        texts::are_right(alloc),
        wider::are_right(alloc),
        widths::are_right(alloc),
    ]
}

#[test]
fn all_cases(rt: HostRuntime) -> Result<(), Fail> {
    assert!(rt; all_modules(rt.alloc()) == [true; 14]);
    assert!(rt; outside::is_system_file_read(&rt)?);
    Ok(())
}
