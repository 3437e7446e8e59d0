// The files of some folders that are too long to be kept: as many values as a range may have cells,
// with the reply that has them all; half a million rows of one dimension, with as many points and
// their replies; and values that share their hash if it has no keys.

use std::alloc::{AllocError, Global};
use std::{fs, io};

/// What stands in a line with a number.
#[derive(Clone, Copy)]
enum Line {
    /// A row whose value is its number.
    Row,
    /// A cell of that value.
    Cell,
    /// A row whose value is its number's last three digits.
    ShortRow,
    /// A point of that value.
    Point,
    /// The reply to the point.
    Reply,
    /// A row whose value has the same hash as the others under the kit's default hasher: after the
    /// first 24 bytes its state is 0, and the next 8 don't change it.
    OneHash,
}

// A file: its first lines, the numbers of those in its middle, and its last lines.
struct Long {
    path: &'static str,
    first: &'static str,
    line: Line,
    from: u32,
    to: u32,
    last: &'static str,
}

// In the second folder each value stands in 500 rows. The root and the values are the nodes, and
// each is a class.
static FILES: [Long; 6] = [
    Long {
        path: "runs/as-many-cells-as-a-range-answers/base.csv",
        first: "id,v\n",
        line: Line::Row,
        from: 1,
        to: 100_000,
        last: "",
    },
    Long {
        path: "runs/as-many-cells-as-a-range-answers/stdout",
        first: "applied,1,100000,100001\n",
        line: Line::Cell,
        from: 1,
        to: 100_000,
        last: "end,2,100000\napplied,3,1,100002\nrefused,4,too-many-cells\n",
    },
    Long {
        path: "runs/many-points-over-many-rows/base.csv",
        first: "id,v\n",
        line: Line::ShortRow,
        from: 1,
        to: 500_000,
        last: "",
    },
    Long {
        path: "runs/many-points-over-many-rows/script",
        first: "load base.csv\n",
        line: Line::Point,
        from: 2,
        to: 500_001,
        last: "stats\n",
    },
    Long {
        path: "runs/many-points-over-many-rows/stdout",
        first: "applied,1,500000,1001\n",
        line: Line::Reply,
        from: 2,
        to: 500_001,
        last: "stats,500002,500000,1001,1001,1000,0\n",
    },
    // A load that hashed these without keys would take some minutes.
    Long {
        path: "runs/texts-of-one-hash/base.csv",
        first: "id,v\n",
        line: Line::OneHash,
        from: 1,
        to: 200_000,
        last: "",
    },
];

fn line_of(alloc: Global, line: Line, k: u32) -> Result<String, AllocError> {
    let short = k % 1000;
    match line {
        Line::Row => format!(in alloc; "{k},v{k:06}\n"),
        Line::Cell => format!(in alloc; "cell,2,v{k:06},1\n"),
        Line::ShortRow => format!(in alloc; "{k},v{short:03}\n"),
        Line::Point => format!(in alloc; "point v{short:03}\n"),
        Line::Reply => format!(in alloc; "point,{k},v{short:03},500\n"),
        Line::OneHash => {
            format!(in alloc; "{k},mkgxarrvlzqyfacdcacSq50N{k:08}zzzzzzzzzzzzzzzz\n")
        }
    }
}

fn push_line(alloc: Global, text: &mut String, line: Line, k: u32) -> Result<(), AllocError> {
    let line = line_of(alloc, line, k)?;
    let is_pushed = text.push_str(line.as_str());
    drop(line);
    is_pushed
}

fn push_file(alloc: Global, text: &mut String, file: &Long) -> Result<(), AllocError> {
    text.push_str(file.first)?;
    'lines: for k in file.from..=file.to {
        push_line(alloc, text, file.line, k)?;
    }
    text.push_str(file.last)
}

fn write_file(rt: &HostRuntime, file: &Long) -> io::Result<()> {
    let mut text = String::new(rt.alloc());
    let is_written = match push_file(rt.alloc(), &mut text, file) {
        Ok(()) => fs::write(rt, file.path, text.as_str()),
        Err(error) => Err(error.into()),
    };
    drop(text);
    is_written
}

/// Writes them.
pub fn write(rt: &HostRuntime) -> io::Result<()> {
    'files: for file in &FILES {
        write_file(rt, file)?;
    }
    Ok(())
}
