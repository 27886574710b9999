//! Columns of a transducer: the states whose edges carry the same label, and so do the same at every item.

ghost use Rattle.std.specs.Prelude.{◌≡◌, ℕ, ◌+◌, ◌-◌, ◌≤◌, ◌<◌, length, slice_get, slice_index, Some, IfOk, IfSome, OnOk, IsTrue};
ghost use Rattle.sequence_grids.specs.Columns.{AreColumns, AreHeads, IsColumnOf};
ghost use Rattle.sequence_grids.specs.Kinds.{Extends};

use super::number::to_number;
use fst_compile::{Fst, State};
use mine_model::NoMemory;
use std::alloc::Global;

/// The columns of a transducer, numbered by their first states.
#[derive(Drop)]
pub struct Columns {
    // By the number of a state that of its column. The start, into which no edge leads, has the number 0.
    pub numbers: Vec<u32>,
    // By the number of a column its first state.
    pub heads: Vec<u32>,
}

impl Columns {
    /// The columns of the transducer.
    pub(crate) fn new(alloc: Global, fst: &Fst) -> Result<Columns, NoMemory>
        ensures { IfOk result (λ columns.
            AreColumns fst.now.labels columns.numbers.items columns.heads.items) }
    {
        let mut numbers = Vec::new(alloc);
        let mut heads = Vec::new(alloc);
        numbers.push(0)?;
        for k in 1..fst.states() {
            let number = column_of(fst, &mut heads, k)?;
            numbers.push(number)?;
        }
        Ok(Columns { numbers, heads })
    }
}

// The number of the column of state k, which is a new one if no other state before it carries its label.
fn column_of(fst: &Fst, heads: &mut Vec<u32>, k: u32) -> Result<u32, NoMemory>
    requires start { 0 < k }
    requires state { k ≤ length fst.now.labels }
    requires heads { AreHeads fst.now.labels heads.old.items }
    ensures heads { AreHeads fst.now.labels heads.new.items }
    ensures grow { Extends heads.old.items heads.new.items }
    ensures column { IfOk result (λ number. IsColumnOf fst.now.labels heads.new.items k number) }
{
    if let Some(known) = known_column(fst, heads.as_slice(), k) {
        return to_number(known);
    }
    let number = to_number(heads.len())?;
    heads.push(k)?;
    Ok(number)
}

// The number of the column whose first state carries the label of state k.
fn known_column(fst: &Fst, heads: &[u32], k: u32) -> Option<usize>
    requires start { 0 < k }
    requires state { k ≤ length fst.now.labels }
    requires heads { AreHeads fst.now.labels heads.now }
    ensures { IfSome result (IsColumnOf fst.now.labels heads.now k) }
{
    for number in 0..heads.len() {
        if carry_the_same(fst, heads[number], k) {
            return Some(number);
        }
    }
    None
}

// Whether the edges into both states carry the same label.
fn carry_the_same(fst: &Fst, one: u32, other: u32) -> bool
    requires one { (0 < one) × (one ≤ length fst.now.labels) }
    requires other { (0 < other) × (other ≤ length fst.now.labels) }
    ensures { IsTrue result → slice_get fst.now.labels (one - 1) ≡ slice_get fst.now.labels (other - 1) }
{
    fst.leaf(State(one)) == fst.leaf(State(other))
        && fst.is_captured(State(one)) == fst.is_captured(State(other))
}
