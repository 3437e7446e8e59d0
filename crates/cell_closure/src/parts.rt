// Groups of rows by code.
ghost use Rattle.std.specs.Prelude.{All, IfOk, OnErr, [], length, map, slice_index_or, ℕ, ◌+◌, ◌<◌, ◌≡◌, ◌≤◌};
ghost use Rattle.base_table.specs.Places.{AreThere};
ghost use Rattle.cell_closure.specs.Parts.{no_part, parted};
ghost use Rattle.cell_closure.specs.Runs.{no_row, pieces, runs};

use crate::Memory;
use crate::by_code::{Keyed, Sorter, read_codes, sort_by_code};
use crate::coded_rows::CodedRows;
use crate::table_rows::TableRows;
use base_table::{RowNo, Table};
use cell_core::Code;
use std::alloc::Global;
use std::marker::Model;

/// The range of a part among the rows.
#[derive(Clone, Copy, Drop)]
struct Cut {
    code: Code,
    start: usize,
    end: usize,
}

/// Rows grouped by their codes in a dimension, in rising order of codes. Its room is reused by each
/// grouping.
#[derive(Drop)]
pub struct Parts {
    cuts: Vec<Cut>,
    rows: Vec<RowNo>,
    sorter: Sorter,
}

impl Model for Parts {
    ghost use Rattle.std.specs.Prelude.{List};
    ghost use Rattle.cell_closure.specs.Parts.{PartOf};
    ghost use Rattle.cell_closure.specs.Runs.{AreCuts, pieces};

    ghost Value = { List PartOf };

    ghost view = { λ p. pieces p.cuts.items p.rows.items };

    ghost invariant = { λ p. AreCuts p.cuts.items p.rows.items };
}

impl Parts {
    /// No parts. Takes no memory.
    pub fn new(alloc: Global) -> Parts
        ensures { result ≡ [] }
    {
        Parts {
            cuts: Vec::new(alloc),
            rows: Vec::new(alloc),
            sorter: Sorter::new(alloc),
        }
    }

    /// The number of parts.
    pub fn len(&self) -> u32
        ensures { result ≡ length self.now }
    {
        self.cuts.len() as u32
    }

    /// The code of a part, counted from 0.
    pub fn code(&self, k: u32) -> Code
        requires { k < length self.now }
        ensures { result ≡ (slice_index_or self.now k no_part).code }
    {
        self.cuts[k as usize].code
    }

    /// The rows of a part, counted from 0.
    pub fn rows(&self, k: u32) -> &[RowNo]
        requires { k < length self.now }
        ensures { result.now ≡ (slice_index_or self.now k no_part).rows }
    {
        let cut = self.cuts[k as usize];
        &self.rows[cut.start..cut.end]
    }

    /// Groups rows by their codes in a dimension, in place of the earlier groups. Each part has its
    /// rows in the given order. After a refusal there are no parts.
    pub fn regroup<R: CodedRows>(&mut self, rows: &TableRows<'_, R>, dim: u8) -> Result<(), Memory>
        requires { dim < (R.rows rows.now.table.now).dims }
        ensures ok { IfOk result
            (λ _. self.new ≡ parted (R.rows rows.now.table.now) rows.now.numbers.now dim) }
        ensures err { OnErr result (self.new ≡ []) }
    {
        self.cuts.clear();
        let most = read_codes(&mut self.sorter.keyed, rows, dim)?;
        sort_by_code(&mut self.sorter, most)?;
        list_rows(&mut self.rows, &self.sorter.keyed)?;
        list_cuts(&mut self.cuts, &self.sorter.keyed)?;
        Ok(())
    }
}

/// Groups rows by their codes in the dimension. Each part has its rows in the given order.
pub fn part(alloc: Global, table: &Table, rows: &[RowNo], dim: u8) -> Result<Parts, Memory>
    requires there { AreThere table.now rows.now }
    requires dim { dim < table.now.dims }
    ensures { IfOk result (λ parts. parts ≡ parted table.now rows.now dim) }
{
    let mut parts = Parts::new(alloc);
    let rows = TableRows {
        table,
        numbers: rows,
    };
    parts.regroup(&rows, dim)?;
    Ok(parts)
}

/// Lists the rows without their codes.
pub(crate) fn list_rows(rows: &mut Vec<RowNo>, keyed: &[Keyed]) -> Result<(), Memory>
    ensures { IfOk result (λ _. rows.new.items ≡ map (λ k. k.row) keyed.now) }
{
    rows.clear();
    rows.reserve(keyed.len())?;
    'rows: for k in keyed {
        rows.push_reserved(k.row);
    }
    Ok(())
}

/// The end of the run of equal codes that begins at a row.
fn run_end(keyed: &[Keyed], start: usize) -> usize
    requires { start < length keyed.now }
    ensures within { (start < result) × (result ≤ length keyed.now) }
    ensures same { (k : ℕ) → start ≤ k → k < result →
        (slice_index_or keyed.now k no_row).code ≡ (slice_index_or keyed.now start no_row).code }
    ensures other { result < length keyed.now →
        (slice_index_or keyed.now result no_row).code ≡ (slice_index_or keyed.now start no_row).code
        → ⊥ }
{
    let code = keyed[start].code;
    'rows: for i in start + 1..keyed.len() {
        if keyed[i].code != code {
            return i;
        }
    }
    keyed.len()
}

/// Makes a cut for each run of equal codes. After a refusal there are none.
fn list_cuts(cuts: &mut Vec<Cut>, keyed: &[Keyed]) -> Result<(), Memory>
    ensures runs { IfOk result (λ _. pieces cuts.new.items (map (λ k. k.row) keyed.now)
        ≡ runs keyed.now) }
    ensures within { IfOk result
        (λ _. All (λ c. (c.start ≤ c.end) × (c.end ≤ length keyed.now)) cuts.new.items) }
    ensures err { OnErr result (cuts.new.items ≡ []) }
{
    cuts.clear();
    let mut start = 0;
    'cuts: while start < keyed.len() {
        let end = run_end(keyed, start);
        let cut = Cut {
            code: keyed[start].code,
            start,
            end,
        };
        if cuts.push(cut).is_err() {
            cuts.clear();
            return Err(std::alloc::AllocError);
        }
        start = end;
    }
    Ok(())
}
