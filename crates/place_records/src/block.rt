//! The records of those sequences of a range that complete.

ghost use Rattle.std.specs.Prelude.{◌≡◌, ℕ, ◌+◌, ◌*◌, ◌≤◌, ◌<◌, ◌^◌, length, IfOk, OnOk};
ghost use Rattle.mining_job.specs.Problems.{items_of};
ghost use Rattle.sequence_grids.specs.Kinds.{AreMet};
ghost use Rattle.sequence_grids.specs.Places.{IsAlphabet};
ghost use Rattle.place_records.specs.Filled.{AreKnown};
ghost use Rattle.place_records.specs.Blocks.{IsOver, IsBlock};

use super::filling::fill_sequence;
use super::twins::{Twins, twins_over};
use mine_model::NoMemory;
use mining_job::{Bound, Job};
use sequence_grids::{Kinds, Place, Tables};
use std::alloc::Global;
use walk_places::Places;

/// Those sequences of a range that complete, and their records, which name what places do by numbers of the
/// block's own.
#[derive(Drop)]
pub(crate) struct Block<const W: usize> {
    pub(crate) twins: Twins<W>,
    pub(crate) sequences: Vec<u32>,
    pub(crate) places: Places,
}

/// The block of the sequences from this number to before that one. It also wants memory where it has more
/// than 2^32 - 1 places.
pub(crate) fn block_of<const W: usize>(
    alloc: Global,
    job: &Job,
    bound: Bound,
    tables: Tables,
    kinds: &Kinds,
    from: u32,
    to: u32,
) -> Result<Block<W>, NoMemory>
    requires width { W ≤ 17 }
    requires room { length job.now.transducer.labels < 64 * W }
    requires alphabet { IsAlphabet job.now bound tables kinds.now }
    requires range { (from ≤ to) × (to ≤ length job.now.sequences) }
    ensures { IfOk result (λ block. IsBlock job.now bound kinds.now from to block.twins.twins
        block.sequences.items block.places) }
{
    let mut block = no_sequences(alloc, job, bound, tables, kinds)?;
    add_range(alloc, job, bound, kinds, &mut block, from, to)?;
    Ok(block)
}

// A block of no sequences, over these tables.
fn no_sequences<const W: usize>(
    alloc: Global,
    job: &Job,
    bound: Bound,
    tables: Tables,
    kinds: &Kinds,
) -> Result<Block<W>, NoMemory>
    requires width { W ≤ 17 }
    requires room { length job.now.transducer.labels < 64 * W }
    requires alphabet { IsAlphabet job.now bound tables kinds.now }
    ensures over { IfOk result (λ block. IsOver job.now bound kinds.now block.twins) }
    ensures none { IfOk result (λ block. (from : ℕ) → IsBlock job.now bound kinds.now from from
        block.twins.twins block.sequences.items block.places) }
{
    let _kinds = kinds;
    Ok(Block {
        twins: twins_over(alloc, job, bound, tables)?,
        sequences: Vec::new(alloc),
        places: Places::new(alloc),
    })
}

// Adds the sequences from this number to before that one to a block that has none.
fn add_range<const W: usize>(
    alloc: Global,
    job: &Job,
    bound: Bound,
    kinds: &Kinds,
    block: &mut Block<W>,
    from: u32,
    to: u32,
) -> Result<(), NoMemory>
    requires width { W ≤ 17 }
    requires over { IsOver job.now bound kinds.now block.old.twins }
    requires met { (i : ℕ) → i < length job.now.sequences → AreMet kinds.now (items_of job.now i) }
    requires range { (from ≤ to) × (to ≤ length job.now.sequences) }
    requires none { IsBlock job.now bound kinds.now from from block.old.twins.twins
        block.old.sequences.items block.old.places }
    ensures { OnOk result (IsBlock job.now bound kinds.now from to block.new.twins.twins
        block.new.sequences.items block.new.places) }
{
    let mut room = Vec::new(alloc);
    for number in from..to {
        add_sequence(job, bound, kinds, block, &mut room, number)?;
    }
    Ok(())
}

// Adds the sequence with the number and its records, if it completes. The room is for its places.
fn add_sequence<const W: usize>(
    job: &Job,
    bound: Bound,
    kinds: &Kinds,
    block: &mut Block<W>,
    room: &mut Vec<Place>,
    number: u32,
) -> Result<(), NoMemory>
    requires width { W ≤ 17 }
    requires over { IsOver job.now bound kinds.now block.old.twins }
    requires number { number < length job.now.sequences }
    requires met { AreMet kinds.now (items_of job.now number) }
    requires few { length block.old.places < 2 ^ 32 }
    requires known { AreKnown block.old.twins.twins block.old.places }
    ensures over { IsOver job.now bound kinds.now block.new.twins }
    ensures block { OnOk result ((from : ℕ) → from ≤ number
        → IsBlock job.now bound kinds.now from number block.old.twins.twins block.old.sequences.items
        block.old.places
        → IsBlock job.now bound kinds.now from (number + 1) block.new.twins.twins block.new.sequences.items
        block.new.places) }
{
    let items = job.db().sequence(number);
    let found = block.twins.places_of(job, bound, kinds, items, room)?;
    if !found {
        return Ok(());
    }
    if block.places.len() + items.len() >= u32::MAX as usize {
        return Err(NoMemory);
    }
    let end = room.len();
    block.sequences.push(number)?;
    fill_sequence(
        job,
        bound,
        &mut block.twins,
        kinds,
        room.as_slice(),
        end,
        items,
        &mut block.places,
    )?;
    Ok(())
}
