// Tests whether a cell that generalizes a class is a lower bound of it.
ghost use Rattle.std.specs.Prelude.{IsTrue, false, length, ℕ, ◌*◌, ◌+◌, ◌<◌, ◌^◌, ◌≡◌, ◌≤◌};
ghost use Rattle.tree_search.specs.Found.{IsTreeOf, TreeRows};
ghost use Rattle.cells_below.specs.Closed.{AreNeeded, IsMarkedBefore, bounds, closes};
ghost use Rattle.cells_below.specs.Marks.{is_marked};
ghost use Rattle.cells_below.specs.Numbers.{cell_of_number};
ghost use Rattle.cells_below.specs.Search.{IsOnWay};

use crate::marks::Marks;
use crate::pruned::is_minimal;
use crate::search::CellSearch;
use crate::upper::UpperBound;
use crate::without::has_all_bits;
use cell_core::Steps;
use qc_arena::Nodes;
use std::sync::ledger::Ledger;

/// Goes over to the cell of a number. True if its closure is the upper bound.
pub(crate) fn closes_at<T: Nodes, L: Ledger>(
    upper: &UpperBound<T>,
    m: u32,
    search: &mut CellSearch,
    steps: &mut Steps<L>,
) -> bool
    requires { IsOnWay upper.now.tree.now.width upper.now.tree.now.tree upper.now.cell.now
        search.old }
    ensures value { (source : TreeRows) →
        IsTreeOf upper.now.tree.now.width upper.now.tree.now.tree source →
        result ≡ closes source upper.now.cell.now m }
    ensures cell { search.new.cell ≡ cell_of_number upper.now.cell.now m }
    ensures way { IsOnWay upper.now.tree.now.width upper.now.tree.now.tree upper.now.cell.now
        search.new }
    ensures steps { steps.new ≤ steps.old + (2 * length upper.now.cell.now + 2) }
{
    search.write(upper, m);
    search.leads_to(upper, steps)
}

// The same for a number of as many bits as there are values. The cell of the largest is the upper
// bound itself.
fn closes_for_number<T: Nodes, L: Ledger>(
    upper: &UpperBound<T>,
    m: u32,
    search: &mut CellSearch,
    steps: &mut Steps<L>,
) -> bool
    requires way { IsOnWay upper.now.tree.now.width upper.now.tree.now.tree upper.now.cell.now
        search.old }
    requires number { m < 2 ^ upper.now.values }
    ensures value { (source : TreeRows) →
        IsTreeOf upper.now.tree.now.width upper.now.tree.now.tree source →
        result ≡ closes source upper.now.cell.now m }
    ensures cell { search.new.cell ≡ cell_of_number upper.now.cell.now m }
    ensures way { IsOnWay upper.now.tree.now.width upper.now.tree.now.tree upper.now.cell.now
        search.new }
    ensures steps { steps.new ≤ steps.old + (2 * length upper.now.cell.now + 2) }
{
    if m + 1 == 1 << upper.values {
        search.write(upper, m);
        return true;
    }
    closes_at(upper, m, search, steps)
}

/// Whether the cell of a number is a lower bound of the class; the search then has that cell. Marks
/// the number if its cell is in the class. The smaller numbers must be marked already. Each cell
/// between one of the class and the upper bound is in the class too. So no search is made if a
/// number with one bit less is marked, if a needed bit is missing, or for the upper bound itself.
pub fn bounds_at<T: Nodes, L: Ledger>(
    upper: &UpperBound<T>,
    needed: u32,
    marks: &mut Marks,
    m: u32,
    search: &mut CellSearch,
    steps: &mut Steps<L>,
) -> bool
    requires needed { (source : TreeRows) →
        IsTreeOf upper.now.tree.now.width upper.now.tree.now.tree source →
        AreNeeded source upper.now.cell.now needed }
    requires way { IsOnWay upper.now.tree.now.width upper.now.tree.now.tree upper.now.cell.now
        search.old }
    requires number { m < 2 ^ upper.now.values }
    requires room { 2 ^ upper.now.values ≤ length marks.old }
    requires below { (source : TreeRows) →
        IsTreeOf upper.now.tree.now.width upper.now.tree.now.tree source →
        IsMarkedBefore source upper.now.cell.now marks.old m }
    requires above { (j : ℕ) → m ≤ j → is_marked marks.old j ≡ false }
    ensures value { (source : TreeRows) →
        IsTreeOf upper.now.tree.now.width upper.now.tree.now.tree source →
        result ≡ bounds source upper.now.cell.now m }
    ensures cell { IsTrue result → search.new.cell ≡ cell_of_number upper.now.cell.now m }
    ensures way { IsOnWay upper.now.tree.now.width upper.now.tree.now.tree upper.now.cell.now
        search.new }
    ensures room { length marks.new ≡ length marks.old }
    ensures below { (source : TreeRows) →
        IsTreeOf upper.now.tree.now.width upper.now.tree.now.tree source →
        IsMarkedBefore source upper.now.cell.now marks.new (m + 1) }
    ensures above { (j : ℕ) → m + 1 ≤ j → is_marked marks.new j ≡ false }
    ensures steps { steps.new ≤ steps.old + (2 * length upper.now.cell.now + 2) }
{
    if !has_all_bits(m, needed) {
        return false;
    }
    if !is_minimal(marks, upper.values, m) {
        marks.set(m);
        return false;
    }
    if !closes_for_number(upper, m, search, steps) {
        return false;
    }
    marks.set(m);
    true
}
