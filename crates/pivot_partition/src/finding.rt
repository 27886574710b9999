//! The ranks that are the greatest ones of what paths write, found from the first position on.

ghost use Rattle.std.specs.Prelude.{◌≡◌, ℕ, ◌+◌, ◌-◌, ◌^◌, ◌≤◌, ◌<◌, ◌⊎◌, ◌↔◌, false, [], ◌∷◌, length, drop, slice_index, slice_get, Some, All, Contains, IfOk, OnOk};
ghost use Rattle.mine_model.specs.declared.item.Item.{Item};
ghost use Rattle.sequence_grids.specs.Grids.{Completes, items_at, rest_at};
ghost use Rattle.sequence_grids.specs.Readings.{HasOutputs, outputs_at};
ghost use Rattle.pivot_partition.specs.Marks.{AreMarked};
ghost use Rattle.pivot_partition.specs.Tops.{no_rank, bound_by, IsTableFrom, GoesUpTo};

use super::edges::spread;
use super::marks::mark_from;
use super::reading::{NONE, least_output};
use super::table::fill_table;
use fst_compile::State;
use mine_model::NoMemory;
use mining_job::Job;
use sequence_grids::{Grids, Reading};

/// Finds the ranks that a path over the first grid's sequence may write as its greatest, with room for a
/// table and two rows.
pub(crate) fn find_in(
    job: &Job,
    grids: &Grids,
    count: u32,
    table: &mut Vec<u32>,
    front: &mut [u32],
    entered: &mut [u32],
    marks: &mut [bool],
    found: &mut Vec<u32>,
) -> Result<(), NoMemory>
    requires problem { grids.now.problem ≡ job.now }
    requires bound { grids.now.bound.top ≡ length job.now.ranking.order }
    requires few { length job.now.ranking.order < no_rank }
    requires grid { 0 < length grids.now.sequences }
    requires count { count ≡ length (items_at grids.now 0) }
    requires front { length front.old ≡ length job.now.transducer.labels + 1 }
    requires entered { length entered.old ≡ length job.now.transducer.labels + 1 }
    requires marks { length marks.old ≡ length job.now.ranking.order + 1 }
    requires marked { AreMarked marks.old found.old.items }
    requires empty { found.old.items ≡ [] }
    ensures front_long { length front.new ≡ length front.old }
    ensures entered_long { length entered.new ≡ length entered.old }
    ensures marks_long { length marks.new ≡ length marks.old }
    ensures marked { AreMarked marks.new found.new.items }
    ensures found { OnOk result ((rank : ℕ) → Contains found.new.items rank ↔ ((1 ≤ rank)
        × (rank ≤ length job.now.ranking.order)
        × Completes job.now (bound_by rank) (items_at grids.now 0) 0 false)) }
{
    fill_table(job, grids, count, entered, table)?;
    find(
        job,
        grids,
        count,
        table.as_slice(),
        front,
        entered,
        marks,
        found,
    )
}

/// Finds the ranks that a path over the first grid's sequence may write as its greatest. The table says up to
/// which rank paths have to write from each position on; the front says it of those up to a position.
fn find(
    job: &Job,
    grids: &Grids,
    count: u32,
    table: &[u32],
    front: &mut [u32],
    entered: &mut [u32],
    marks: &mut [bool],
    found: &mut Vec<u32>,
) -> Result<(), NoMemory>
    requires problem { grids.now.problem ≡ job.now }
    requires bound { grids.now.bound.top ≡ length job.now.ranking.order }
    requires few { length job.now.ranking.order < no_rank }
    requires grid { 0 < length grids.now.sequences }
    requires count { count ≡ length (items_at grids.now 0) }
    requires table { IsTableFrom job.now (items_at grids.now 0) 0 table.now }
    requires front { length front.old ≡ length job.now.transducer.labels + 1 }
    requires entered { length entered.old ≡ length job.now.transducer.labels + 1 }
    requires marks { length marks.old ≡ length job.now.ranking.order + 1 }
    requires marked { AreMarked marks.old found.old.items }
    requires empty { found.old.items ≡ [] }
    ensures front_long { length front.new ≡ length front.old }
    ensures entered_long { length entered.new ≡ length entered.old }
    ensures marks_long { length marks.new ≡ length marks.old }
    ensures marked { AreMarked marks.new found.new.items }
    ensures found { OnOk result ((rank : ℕ) → Contains found.new.items rank ↔ ((1 ≤ rank)
        × (rank ≤ length job.now.ranking.order)
        × Completes job.now (bound_by rank) (items_at grids.now 0) 0 false)) }
{
    let fst = job.fst();
    let states = fst.states() as usize;
    let mut row = table.len() - states;
    begin(front);
    for position in 0..count {
        let reading = grids.reading(0, position);
        row -= states;
        spread(fst, front, entered);
        pass(&reading, &table[row..], entered, front, marks, found)?;
    }
    Ok(())
}

/// The start alone, where nothing was written.
fn begin(front: &mut [u32])
    requires { 1 ≤ length front.old }
    ensures long { length front.new ≡ length front.old }
    ensures first { slice_index front.new 0 ≡ 0 }
    ensures others { (state : ℕ) → 1 ≤ state → state < length front.old
        → slice_index front.new state ≡ no_rank }
{
    for top in front.iter_mut() {
        *top = NONE;
    }
    front[0] = 0;
}

/// Goes over the item: marks what edges write into each state that is entered, where a path to it and one
/// from it need no greater rank, and makes the front that behind the item.
fn pass(
    reading: &Reading,
    below: &[u32],
    entered: &[u32],
    front: &mut [u32],
    marks: &mut [bool],
    found: &mut Vec<u32>,
) -> Result<(), NoMemory>
    requires some { 1 ≤ length front.old }
    requires few { length front.old < 2 ^ 32 }
    requires below { length front.old ≤ length below.now }
    requires entered { length entered.now ≡ length front.old }
    requires outputs { (state : ℕ) → 1 ≤ state → state < length front.old → HasOutputs reading.now state }
    requires within { (state : ℕ) → 1 ≤ state → state < length front.old
        → All (λ rank. rank < length marks.old) (outputs_at reading.now state) }
    requires marked { AreMarked marks.old found.old.items }
    ensures front_long { length front.new ≡ length front.old }
    ensures marks_long { length marks.new ≡ length marks.old }
    ensures marked { AreMarked marks.new found.new.items }
    ensures found { OnOk result ((rank : ℕ) → rank < no_rank → (Contains found.new.items rank
        ↔ (Contains found.old.items rank ⊎ ((state : ℕ) × (1 ≤ state) × (state < length front.old)
        × (slice_index entered.now state ≤ rank) × (slice_index below.now state ≤ rank)
        × Contains (outputs_at reading.now state) rank)))) }
    ensures start { OnOk result (slice_index front.new 0 ≡ no_rank) }
    ensures least { OnOk result ((state p : ℕ) → 1 ≤ state → state < length front.old → p < no_rank
        → (slice_index front.new state ≤ p
        ↔ (GoesUpTo reading.now state p × (slice_index entered.now state ≤ p)))) }
{
    front[0] = NONE;
    for state in 1..entered.len() {
        front[state] = pass_state(
            reading,
            state as u32,
            entered[state],
            below[state],
            marks,
            found,
        )?;
    }
    Ok(())
}

/// Marks what edges write into the state, where a path to it and one from it need no greater rank; gives up
/// to which rank a path over the item into the state has to write.
fn pass_state(
    reading: &Reading,
    state: u32,
    top: u32,
    below: u32,
    marks: &mut [bool],
    found: &mut Vec<u32>,
) -> Result<u32, NoMemory>
    requires outputs { HasOutputs reading.now state }
    requires within { All (λ rank. rank < length marks.old) (outputs_at reading.now state) }
    requires marked { AreMarked marks.old found.old.items }
    ensures long { length marks.new ≡ length marks.old }
    ensures marked { AreMarked marks.new found.new.items }
    ensures found { OnOk result ((rank : ℕ) → rank < no_rank → (Contains found.new.items rank
        ↔ (Contains found.old.items rank
        ⊎ ((top ≤ rank) × (below ≤ rank) × Contains (outputs_at reading.now state) rank)))) }
    ensures least { IfOk result (λ after. (p : ℕ) → p < no_rank
        → (after ≤ p ↔ (GoesUpTo reading.now state p × (top ≤ p)))) }
{
    if top == NONE {
        return Ok(NONE);
    }
    mark_from(reading.outputs(State(state)), top.max(below), marks, found)?;
    Ok(top.max(least_output(reading, state)))
}
