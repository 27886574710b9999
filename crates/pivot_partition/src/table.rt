//! Up to which rank a path has to write from each state at each position of a sequence, from its end.

ghost use Rattle.std.specs.Prelude.{◌≡◌, ℕ, ◌+◌, ◌-◌, ◌^◌, ◌≤◌, ◌<◌, ◌↔◌, ◌++◌, [], ◌∷◌, max, length, drop, slice_index, slice_get, Some, OnOk};
ghost use Rattle.mine_model.specs.declared.item.Item.{Item};
ghost use Rattle.state_bits.specs.Members.{Has};
ghost use Rattle.fst_compile.specs.Transducer.{Leads};
ghost use Rattle.sequence_grids.specs.Grids.{items_at, rest_at};
ghost use Rattle.sequence_grids.specs.Readings.{HasOutputs};
ghost use Rattle.pivot_partition.specs.Tops.{no_rank, IsRowOf, IsEnteredRow, IsTableFrom, row_at, GoesUpTo};

use super::edges::least_behind;
use super::reading::{NONE, least_output};
use fst_compile::{Fst, State};
use mine_model::NoMemory;
use mining_job::Job;
use sequence_grids::{Grids, Reading};

/// Fills the table of the first grid, whose sequence has so many items. The grids allow all ranks.
pub(crate) fn fill_table(
    job: &Job,
    grids: &Grids,
    count: u32,
    entered: &mut [u32],
    table: &mut Vec<u32>,
) -> Result<(), NoMemory>
    requires problem { grids.now.problem ≡ job.now }
    requires bound { grids.now.bound.top ≡ length job.now.ranking.order }
    requires few { length job.now.ranking.order < no_rank }
    requires grid { 0 < length grids.now.sequences }
    requires count { count ≡ length (items_at grids.now 0) }
    requires entered { length entered.old ≡ length job.now.transducer.labels + 1 }
    ensures long { length entered.new ≡ length entered.old }
    ensures table { OnOk result (IsTableFrom job.now (items_at grids.now 0) 0 table.new.items) }
{
    let fst = job.fst();
    let states = fst.states() as usize;
    table.clear();
    push_last(fst, table)?;
    let mut position = count;
    while 0 < position {
        position -= 1;
        let reading = grids.reading(0, position);
        let start = table.len() - states;
        enter(&reading, &table[start..], entered);
        push_row(fst, entered, table)?;
    }
    Ok(())
}

/// Appends the row of the end: a path that ends there writes nothing.
fn push_last(fst: &Fst, table: &mut Vec<u32>) -> Result<(), NoMemory>
    ensures { OnOk result ((row : _) × (table.new.items ≡ table.old.items ++ row)
        × (length row ≡ length fst.now.labels + 1)
        × ((state p : ℕ) → state ≤ length fst.now.labels → p < no_rank
        → (slice_index row state ≤ p ↔ Has fst.now.finals state))) }
{
    for state in 0..fst.states() {
        table.push(if fst.is_final(State(state)) { 0 } else { NONE })?;
    }
    Ok(())
}

/// For each state up to which rank reading the item into it takes, and a path from there: the row below has
/// that of the path.
fn enter(reading: &Reading, below: &[u32], entered: &mut [u32])
    requires few { length entered.old < 2 ^ 32 }
    requires below { length below.now ≡ length entered.old }
    requires outputs { (state : ℕ) → 1 ≤ state → state < length entered.old → HasOutputs reading.now state }
    ensures long { length entered.new ≡ length entered.old }
    ensures least { (state p : ℕ) → 1 ≤ state → state < length entered.old → p < no_rank
        → (slice_index entered.new state ≤ p
        ↔ (GoesUpTo reading.now state p × (slice_index below.now state ≤ p))) }
{
    for state in 1..entered.len() {
        entered[state] = enter_state(reading, state as u32, below[state]);
    }
}

/// The same of one state.
fn enter_state(reading: &Reading, state: u32, below: u32) -> u32
    requires { HasOutputs reading.now state }
    ensures { (p : ℕ) → p < no_rank → (result ≤ p ↔ (GoesUpTo reading.now state p × (below ≤ p))) }
{
    if below == NONE {
        return NONE;
    }
    below.max(least_output(reading, state))
}

/// Appends the row of the position before, by the edges of each state.
fn push_row(fst: &Fst, entered: &[u32], table: &mut Vec<u32>) -> Result<(), NoMemory>
    requires { length entered.now ≡ length fst.now.labels + 1 }
    ensures { OnOk result ((row : _) × (table.new.items ≡ table.old.items ++ row)
        × (length row ≡ length fst.now.labels + 1)
        × ((state p : ℕ) → state ≤ length fst.now.labels → p < no_rank → (slice_index row state ≤ p
        ↔ ((to : ℕ) × Leads fst.now state to × (slice_index entered.now to ≤ p))))) }
{
    for state in 0..fst.states() {
        table.push(least_behind(fst.edges(State(state)), entered))?;
    }
    Ok(())
}
