// Files of few rows, beside those worked out by another program.
use cube_defs::MAX_ROWS;
use row_generator::{BATCHES, Draws, write_base, write_batch};
use std::alloc::Global;

// Rows, a seed, their base file, how many batches come before the one that follows, and the draws
// after it.
type Drawn = (u32, u64, &'static str, u32, &'static str, u64);

static FILES: [Drawn; 5] = [
    (
        1,
        0,
        "id,a,b,c,d,e,amount\n1,a7,b4,c7,d1,e1,-4.99\n",
        0,
        "op,id,a,b,c,d,e,amount\n-,1,,,,,,\n+,2,a11,b4,c5,d4,e3,-4.98\n",
        8237903092696572954,
    ),
    (
        1,
        0,
        "id,a,b,c,d,e,amount\n1,a7,b4,c7,d1,e1,-4.99\n",
        39,
        "op,id,a,b,c,d,e,amount\n-,40,,,,,,\n+,41,a11,b4,c5,d4,e3,-4.59\n",
        8237903092696572954,
    ),
    (
        2,
        7,
        "id,a,b,c,d,e,amount\n1,a38,b11,c3,d3,e1,-4.99\n2,a19,b4,c4,d4,e2,-4.98\n",
        0,
        "op,id,a,b,c,d,e,amount\n-,1,,,,,,\n-,2,,,,,,\n+,3,a35,b15,c2,d0,e1,-4.97\n+,4,a2,b5,c9,d1,e3,-4.96\n",
        17707926404581321531,
    ),
    (
        3,
        18446744073709551615,
        "id,a,b,c,d,e,amount\n1,a8,b3,c7,d2,e0,-4.99\n2,a27,b5,c7,d0,e0,-4.98\n3,a3,b2,c0,d3,e2,-4.97\n",
        0,
        "op,id,a,b,c,d,e,amount\n-,1,,,,,,\n-,2,,,,,,\n-,3,,,,,,\n+,4,a0,b1,c2,d3,e2,-4.96\n+,5,a1,b0,c1,d0,e1,-4.95\n+,6,a37,b5,c9,d0,e3,-4.94\n",
        5824012723461022309,
    ),
    (
        3,
        18446744073709551615,
        "id,a,b,c,d,e,amount\n1,a8,b3,c7,d2,e0,-4.99\n2,a27,b5,c7,d0,e0,-4.98\n3,a3,b2,c0,d3,e2,-4.97\n",
        39,
        "op,id,a,b,c,d,e,amount\n-,118,,,,,,\n-,119,,,,,,\n-,120,,,,,,\n+,121,a0,b1,c2,d3,e2,-3.79\n+,122,a1,b0,c1,d0,e1,-3.78\n+,123,a37,b5,c9,d0,e3,-3.77\n",
        5824012723461022309,
    ),
];

// Rows, and how their base file ends. The amounts begin again at each multiple of 1001.
static ENDS: [(u32, &str); 3] = [
    (500, "\n500,a39,b15,c6,d3,e1,0.00\n"),
    (1001, "\n1001,a38,b2,c1,d1,e0,-5.00\n"),
    (
        1002,
        "\n1001,a38,b2,c1,d1,e0,-5.00\n1002,a16,b0,c4,d1,e2,-4.99\n",
    ),
];

fn is_base(file: &mut Vec<u8>, rows: u32, draws: &mut Draws, text: &str) -> bool {
    rows <= MAX_ROWS && write_base(file, rows, draws).is_ok() && file.as_slice() == text.as_bytes()
}

fn is_batch(file: &mut Vec<u8>, rows: u32, before: u32, draws: &mut Draws, text: &str) -> bool {
    rows <= MAX_ROWS
        && before < BATCHES
        && write_batch(file, rows, before, draws).is_ok()
        && file.as_slice() == text.as_bytes()
}

fn are_files_right(alloc: Global, case: &Drawn) -> bool {
    let (rows, seed, base, before, batch, end) = *case;
    let mut draws = Draws { state: seed };
    let mut file = Vec::new(alloc);
    let are_right = is_base(&mut file, rows, &mut draws, base)
        && is_batch(&mut file, rows, before, &mut draws, batch);
    drop(file);
    are_right && draws.state == end
}

fn is_end(file: &mut Vec<u8>, rows: u32, end: &str) -> bool {
    let mut draws = Draws { state: 7 };
    rows <= MAX_ROWS
        && write_base(file, rows, &mut draws).is_ok()
        && file.as_slice().ends_with(end.as_bytes())
}

fn is_end_right(alloc: Global, case: &(u32, &str)) -> bool {
    let (rows, end) = *case;
    let mut file = Vec::new(alloc);
    let is_end = is_end(&mut file, rows, end);
    drop(file);
    is_end
}

/// Whether files of few rows and the last rows of others are right.
pub(crate) fn are_right(alloc: Global) -> bool {
    'cases: for case in &FILES {
        if !are_files_right(alloc, case) {
            return false;
        }
    }
    'ends: for case in &ENDS {
        if !is_end_right(alloc, case) {
            return false;
        }
    }
    true
}
