ghost use Rattle.std.specs.Prelude.{◌≡◌, ◌+◌, ◌≤◌, ◌<◌, ◌⊎◌, ℕ, List, length, slice_index_or, IfOk, OnOk, IsPermutation};
ghost use Rattle.item_hierarchy.specs.declared.edges.EdgeRow.{EdgeRow};
ghost use Rattle.item_hierarchy.specs.Edges.{AreWithin};
ghost use Rattle.item_hierarchy.specs.ByChild.{AreByChild, AreSorted};

use super::edges::{EdgeRow, Edges};
use mine_model::NoMemory;
use std::alloc::Global;

/// Rows that are sorted by child: those of item number n stand from `starts[n]` up to `starts[n + 1]`.
#[derive(Debug, Drop)]
pub(crate) struct ByChild {
    pub(crate) starts: Vec<usize>,
    pub(crate) rows: Vec<EdgeRow>,
}

// Sorts the rows.
pub(crate) fn by_child(alloc: Global, edges: Edges) -> Result<ByChild, NoMemory>
    requires { AreWithin edges.items edges.rows.items }
    ensures sorted { IfOk result (λ sorted. AreByChild edges.items sorted.starts.items sorted.rows.items) }
    ensures rows { IfOk result (λ sorted. IsPermutation edges.rows.items sorted.rows.items) }
{
    // Most files give long runs of rows that are sorted, since new names get rising numbers.
    let mut rows = edges.rows;
    rows.sort_by_key(|row| row.child.0)?;
    let starts = starts_of(alloc, edges.items, rows.as_slice())?;
    Ok(ByChild { starts, rows })
}

// Where the rows of each item begin, and at last where all rows end.
fn starts_of(alloc: Global, items: u32, rows: &[EdgeRow]) -> Result<Vec<usize>, NoMemory>
    requires sorted { AreSorted rows.now }
    requires within { AreWithin items rows.now }
    ensures { IfOk result (λ starts. AreByChild items starts.items rows.now) }
{
    let mut starts = Vec::with_capacity(alloc, items as usize + 1)?;
    starts.push(0)?;
    let mut at = 0;
    for number in 0..items {
        at = end_of_run(rows, at, number);
        starts.push(at)?;
    }
    Ok(starts)
}

// The first place from `from` on where no row of this child stands.
fn end_of_run(rows: &[EdgeRow], from: usize, child: u32) -> usize
    requires { from ≤ length rows.now }
    ensures range { (from ≤ result) × (result ≤ length rows.now) }
    ensures run { (k : ℕ) (d : EdgeRow) → from ≤ k → k < result
        → (slice_index_or rows.now k d).child.0 ≡ child }
    ensures end { (d : EdgeRow) → result < length rows.now
        → (slice_index_or rows.now result d).child.0 ≡ child → ⊥ }
{
    let mut at = from;
    while at < rows.len() && rows[at].child.0 == child {
        at += 1;
    }
    at
}
