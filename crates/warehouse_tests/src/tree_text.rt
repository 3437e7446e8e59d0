// The tree of a warehouse of up to six dimensions as a text: the counts, and a line for each node,
// in the order of bytes.
ghost use Rattle.std.specs.FinMap as map;
ghost use Rattle.std.specs.Prelude.{IsSome, length, ◌≡◌, ◌≤◌};

use aggregates::Agg;
use cell_core::{Cell, Entry, NodeNo, Steps};
use qc_arena::{Nodes, QcArena};
use std::alloc::{AllocError, Global};
use std::sync::ledger::Ledger;
use tree_records::{ANY, Line, NUMBERS, cell_at};
use tree_search::find;
use value_dict::Dict;
use warehouse::{Stats, Warehouse};

// The text of a code, where there is one.
fn text_at(dict: &Dict, dim: u8, code: u32) -> &str {
    if dim < dict.dims() && code < dict.len(dim) {
        dict.text(dim, code)
    } else {
        "?"
    }
}

// Writes the texts of a cell, with `*` for Any.
fn push_cell(text: &mut String, dict: &Dict, cell: &Line) -> Result<(), AllocError> {
    'dims: for dim in 0..6u8 {
        if dim == dict.dims() {
            break;
        }
        let value = cell[usize::from(dim)];
        let entry = if value == ANY {
            "*"
        } else {
            text_at(dict, dim, u32::from(value))
        };
        text.push_str(entry)?;
        text.push_str(",")?;
    }
    Ok(())
}

// Writes the cell of a node.
fn push_node<L: Ledger>(
    text: &mut String,
    tree: &QcArena,
    dict: &Dict,
    node: Option<NodeNo>,
    steps: &mut Steps<L>,
) -> Result<(), AllocError> {
    let cell = match node {
        Some(node) => cell_at(tree, node, steps),
        None => None,
    };
    match cell {
        Some(cell) => push_cell(text, dict, &cell),
        None => text.push_str("-"),
    }
}

// Writes the count, the sum, the least and the greatest amount of a class.
fn push_class(alloc: Global, text: &mut String, class: Option<Agg>) -> Result<(), AllocError> {
    let Some(agg) = class else {
        return text.push_str("|-|");
    };
    let (count, part) = (agg.count, agg.parts[0]);
    let (sum, least, greatest) = (part.sum, part.least, part.greatest);
    let numbers = format!(in alloc; "|{count} {sum} {least} {greatest}|")?;
    let is_pushed = text.push_str(numbers.as_str());
    drop(numbers);
    is_pushed
}

// Writes the dimension and the text of an edge.
fn push_label(alloc: Global, text: &mut String, dim: u8, value: &str) -> Result<(), AllocError> {
    let label = format!(in alloc; "|{dim} {value} ")?;
    let is_pushed = text.push_str(label.as_str());
    drop(label);
    is_pushed
}

// Writes the dimension and the text of each edge, and the cell to which it leads.
fn push_edges<L: Ledger>(
    alloc: Global,
    text: &mut String,
    tree: &QcArena,
    dict: &Dict,
    node: NodeNo,
    steps: &mut Steps<L>,
) -> Result<(), AllocError>
    requires { IsSome (map.get tree.now.now node.0) }
{
    let count = tree.edge_count(node, steps);
    'edges: for k in 0..count {
        let (dim, code, target) = tree.edge_at(node, k, steps);
        push_label(alloc, text, dim, text_at(dict, dim, code))?;
        push_node(text, tree, dict, Some(target), steps)?;
    }
    Ok(())
}

// Writes a node's record: its cell, that of its parent, its class, the cell of its forced child,
// and its edges.
fn push_record<L: Ledger>(
    alloc: Global,
    text: &mut String,
    tree: &QcArena,
    dict: &Dict,
    node: NodeNo,
    steps: &mut Steps<L>,
) -> Result<(), AllocError>
    requires { IsSome (map.get tree.now.now node.0) }
{
    let (parent, class) = (tree.parent(node, steps), tree.class(node, steps));
    let forced = match tree.forced(node, steps) {
        Some(forced) => Some(forced.child),
        None => None,
    };
    push_node(text, tree, dict, Some(node), steps)?;
    text.push_str("|")?;
    push_node(text, tree, dict, parent, steps)?;
    push_class(alloc, text, class)?;
    push_node(text, tree, dict, forced, steps)?;
    push_edges(alloc, text, tree, dict, node, steps)
}

fn cell_of(alloc: Global, line: &Line, dims: u8) -> Cell
    requires { dims ≤ 6 }
    ensures { length result ≡ dims }
{
    let mut cell = Cell::any(alloc, dims);
    'dims: for dim in 0..dims {
        let value = line[usize::from(dim)];
        if value != ANY {
            cell.set(dim, Entry::Is(u32::from(value)));
        }
    }
    cell
}

// Whether a node is found by its cell.
fn is_found<L: Ledger>(
    alloc: Global,
    shop: &Warehouse,
    node: NodeNo,
    steps: &mut Steps<L>,
) -> bool {
    let dims = shop.schema().dims();
    if dims > 6 {
        return false;
    }
    match cell_at(shop.tree(), node, steps) {
        Some(line) => find(shop.tree(), &cell_of(alloc, &line, dims), steps) == Some(node),
        None => false,
    }
}

// Writes the record of a node, and whether it is found by its cell.
fn push_line<L: Ledger>(
    alloc: Global,
    line: &mut String,
    shop: &Warehouse,
    node: NodeNo,
    steps: &mut Steps<L>,
) -> Result<(), AllocError> {
    if !shop.tree().has(node) {
        return Ok(());
    }
    push_record(alloc, line, shop.tree(), shop.dict(), node, steps)?;
    let end = if is_found(alloc, shop, node, steps) {
        "|found\n"
    } else {
        "|\n"
    };
    line.push_str(end)
}

// The line of a node. Nothing where no node is.
fn line_of<L: Ledger>(
    alloc: Global,
    shop: &Warehouse,
    node: NodeNo,
    steps: &mut Steps<L>,
) -> Result<String, AllocError> {
    let mut line = String::new(alloc);
    match push_line(alloc, &mut line, shop, node, steps) {
        Ok(()) => Ok(line),
        Err(error) => {
            drop(line);
            Err(error)
        }
    }
}

// The lines of all nodes, sorted.
fn push_lines<L: Ledger>(
    alloc: Global,
    lines: &mut Vec<String>,
    shop: &Warehouse,
    steps: &mut Steps<L>,
) -> Result<(), AllocError> {
    'nodes: for number in 0..NUMBERS {
        lines.push(line_of(alloc, shop, NodeNo(number), steps)?)?;
    }
    lines.sort()
}

fn push_all(text: &mut String, lines: &[String]) -> Result<(), AllocError> {
    'lines: for line in lines {
        text.push_str(line.as_str())?;
    }
    Ok(())
}

// Writes the counts.
fn push_counts(alloc: Global, text: &mut String, stats: Stats) -> Result<(), AllocError> {
    let Stats {
        rows,
        classes,
        nodes,
        tree_edges,
        links,
    } = stats;
    let counts = format!(in alloc; "{rows} {classes} {nodes} {tree_edges} {links}\n")?;
    let is_pushed = text.push_str(counts.as_str());
    drop(counts);
    is_pushed
}

/// Writes the counts and the records.
pub fn push_tree<L: Ledger>(
    alloc: Global,
    text: &mut String,
    shop: &Warehouse,
    steps: &mut Steps<L>,
) -> Result<(), AllocError> {
    push_counts(alloc, text, shop.stats())?;
    let mut lines = Vec::new(alloc);
    let mut are_pushed = push_lines(alloc, &mut lines, shop, steps);
    if are_pushed.is_ok() {
        are_pushed = push_all(text, &lines);
    }
    drop(lines);
    are_pushed
}
