// Scripts of base files, batches and new dimensions. Each has its answer, and a base file of the
// rows after it.

use crate::shops::{File, base, batch, change, filled};
use crate::tree_text::push_tree;
use cell_core::Steps;
use std::alloc::Global;
use std::str;
use std::sync::ledger::Ledger;
use tree_records::{Line, are_kept, are_same, cells};
use warehouse::{Refused, Warehouse, WidenRefused};

// What a script begins with: its schema, the schema of warehouses that load the rows after a step,
// and a base file and a batch by which the values in these get their codes.
#[derive(Clone, Copy)]
struct Start<'a> {
    schema: &'a str,
    wide: &'a str,
    texts: &'a str,
    gone: &'a str,
}

// A command with its answer. Base files of the rows that stay, and of the rows after it; the texts
// of the dimensions; and the tree.
#[derive(Clone, Copy)]
struct Step<'a> {
    command: &'a str,
    answer: &'a str,
    file: &'a str,
    between: Option<&'a str>,
    after: Option<&'a str>,
    texts: Option<&'a str>,
    tree: Option<&'a str>,
}

fn read_start(text: &str) -> Option<Start<'_>> {
    let mut parts = text.split("\n--\n");
    Some(Start {
        schema: parts.next()?,
        wide: parts.next()?,
        texts: parts.next()?,
        gone: parts.next()?,
    })
}

fn read_step(text: &str) -> Option<Step<'_>> {
    let mut parts = text.split("\n--\n");
    Some(Step {
        command: parts.next()?,
        answer: parts.next()?,
        file: parts.next()?,
        between: parts.next(),
        after: parts.next(),
        texts: parts.next(),
        tree: parts.next(),
    })
}

// A word and two numbers.
type Answer = (&'static str, u32, u32);

fn refusal(refused: Refused) -> Answer {
    match refused {
        Refused::NotEmpty => ("not-empty", 0, 0),
        Refused::Header => ("header", 0, 0),
        Refused::Op(k) => ("op", k, 0),
        Refused::Amount(k) => ("amount", k, 0),
        Refused::Twice(k) => ("twice", k, 0),
        Refused::Missing(k) => ("missing", k, 0),
        Refused::Present(k) => ("present", k, 0),
        Refused::RowsFull => ("rows", 0, 0),
        Refused::ValuesFull(dim) => ("values", u32::from(dim), 0),
        Refused::NodesFull => ("nodes", 0, 0),
        _ => ("other", 0, 0),
    }
}

// How many records and then classes there are, or why the file is refused.
fn changed<L: Ledger>(shop: &mut Warehouse, file: File<'_>, steps: &mut Steps<L>) -> Answer {
    match change(shop, file, steps) {
        Ok(applied) => ("applied", applied.records, applied.classes),
        Err(refused) => refusal(refused),
    }
}

// Whether a dimension of this name and value comes.
fn widened<L: Ledger>(shop: &mut Warehouse, words: &str, steps: &mut Steps<L>) -> Answer {
    let (name, value) = words.split_once(' ').unwrap_or(("", ""));
    if value.len() > 255 || !shop.schema().may_name(name.as_bytes()) {
        return ("other", 0, 0);
    }
    match shop.widen(name, value, steps) {
        Ok(_) => ("widened", 0, 0),
        Err(WidenRefused::NodesFull) => ("nodes", 0, 0),
        Err(_) => ("other", 0, 0),
    }
}

// Whether a step has its answer.
fn answers<L: Ledger>(
    alloc: Global,
    shop: &mut Warehouse,
    step: &Step<'_>,
    steps: &mut Steps<L>,
) -> bool {
    let bytes = step.file.as_bytes();
    let (word, first, second) = match step.command {
        "load" => changed(shop, base(bytes), steps),
        "apply" => changed(shop, batch(bytes), steps),
        _ => widened(shop, step.file, steps),
    };
    match format!(in alloc; "{word} {first} {second}") {
        Ok(answer) => answer.as_str() == step.answer,
        Err(_) => false,
    }
}

// A warehouse that loads these rows.
fn anew<L: Ledger>(
    alloc: Global,
    start: &Start<'_>,
    rows: &str,
    steps: &mut Steps<L>,
) -> Option<Warehouse> {
    let files = [
        base(start.texts.as_bytes()),
        batch(start.gone.as_bytes()),
        base(rows.as_bytes()),
    ];
    filled(alloc, start.wide.as_bytes(), &files, steps)
}

// Whether the counts and the tree are those of a warehouse that loads just these rows.
fn has_rows<L: Ledger>(
    alloc: Global,
    start: &Start<'_>,
    shop: &Warehouse,
    rows: Option<&str>,
    steps: &mut Steps<L>,
) -> bool {
    let Some(rows) = rows else {
        return true;
    };
    let Some(anew) = anew(alloc, start, rows, steps) else {
        return false;
    };
    let is_same = shop.stats() == anew.stats() && are_same(shop.tree(), anew.tree(), steps);
    anew.discard();
    is_same
}

// Whether each node that a warehouse of these rows has too keeps its number.
fn keeps_numbers<L: Ledger>(
    alloc: Global,
    start: &Start<'_>,
    shop: &Warehouse,
    before: &[Option<Line>],
    rows: Option<&str>,
    steps: &mut Steps<L>,
) -> bool {
    let Some(rows) = rows else {
        return true;
    };
    let Some(between) = anew(alloc, start, rows, steps) else {
        return false;
    };
    let are_kept = are_kept(before, between.tree(), shop.tree(), steps);
    between.discard();
    are_kept
}

// Whether a dimension has just the texts of a line, in the order of their codes.
fn has_line(shop: &Warehouse, dim: u8, line: &str) -> bool {
    if dim >= shop.dict().dims() {
        return false;
    }
    let mut code = 0u32;
    'texts: for text in line.split(',') {
        if code >= shop.dict().len(dim) || shop.dict().text(dim, code) != text {
            return false;
        }
        code = code.wrapping_add(1);
    }
    code == shop.dict().len(dim)
}

fn has_texts(shop: &Warehouse, texts: Option<&str>) -> bool {
    let Some(texts) = texts else {
        return true;
    };
    let mut dim = 0u8;
    'dims: for line in texts.lines() {
        if !has_line(shop, dim, line) {
            return false;
        }
        dim = dim.wrapping_add(1);
    }
    dim == shop.dict().dims()
}

fn has_tree<L: Ledger>(
    alloc: Global,
    shop: &Warehouse,
    tree: Option<&str>,
    steps: &mut Steps<L>,
) -> bool {
    let Some(tree) = tree else {
        return true;
    };
    let mut text = String::new(alloc);
    let is_right = push_tree(alloc, &mut text, shop, steps).is_ok() && text.as_str() == tree;
    drop(text);
    is_right
}

// Whether a step goes as it says.
fn goes<L: Ledger>(
    alloc: Global,
    start: &Start<'_>,
    shop: &mut Warehouse,
    step: &Step<'_>,
    steps: &mut Steps<L>,
) -> bool {
    let Ok(before) = cells(alloc, shop.tree(), steps) else {
        return false;
    };
    let is_made = answers(alloc, shop, step, steps)
        && keeps_numbers(alloc, start, shop, &before, step.between, steps);
    drop(before);
    is_made
        && has_rows(alloc, start, shop, step.after, steps)
        && has_texts(shop, step.texts)
        && has_tree(alloc, shop, step.tree, steps)
}

fn all_go<L: Ledger>(
    alloc: Global,
    start: &Start<'_>,
    shop: &mut Warehouse,
    text: &str,
    steps: &mut Steps<L>,
) -> bool {
    'steps: for part in text.split("\n====\n") {
        let Some(step) = read_step(part) else {
            return false;
        };
        if !goes(alloc, start, shop, &step, steps) {
            return false;
        }
    }
    true
}

fn script<L: Ledger>(alloc: Global, bytes: &[u8], steps: &mut Steps<L>) -> Option<bool> {
    let (start, rest) = str::from_utf8(bytes).ok()?.split_once("\n====\n")?;
    let start = read_start(start)?;
    let mut shop = filled(alloc, start.schema.as_bytes(), &[], steps)?;
    let go = all_go(alloc, &start, &mut shop, rest, steps);
    shop.discard();
    Some(go)
}

/// Whether each step of a script goes as it says.
pub fn is_right<L: Ledger>(alloc: Global, bytes: &[u8], steps: &mut Steps<L>) -> bool {
    script(alloc, bytes, steps) == Some(true)
}
