//! The records of sequences, one behind another.

ghost use Rattle.std.specs.Prelude.{◌≡◌, ◌+◌, ◌≤◌, ◌<◌, [], ◌∷◌, ◌++◌, length, drop, slice_get, Some, IfOk, OnOk, OnErr};
ghost use Rattle.std.specs.List.{AllByRecursion};
ghost use Rattle.mine_model.specs.declared.item.Item.{Item};
ghost use Rattle.walk_places.specs.declared.places.Record.{Record};
ghost use Rattle.sequence_grids.specs.Kinds.{Extends};
ghost use Rattle.sequence_grids.specs.Places.{IsTableOf, AreKept, ArePlaces};
ghost use Rattle.place_records.specs.Records.{goes_with};
ghost use Rattle.place_records.specs.Numbers.{TwinsGrow};
ghost use Rattle.place_records.specs.Twins.{dead_twin};
ghost use Rattle.place_records.specs.Filled.{IsRecordBy, AreHere, AreKnown, AreFilled, wall_record};

use super::twins::Twins;
use mine_model::{Item, NoMemory};
use mining_job::{Bound, Job};
use sequence_grids::{Kinds, Place};
use std::alloc::Global;
use walk_places::{Places, Record};

/// The records of the sequences whose places were kept, from the last to the first. It also wants memory
/// where there are more than 2^32 - 1 places.
pub(crate) fn fill<const W: usize>(
    alloc: Global,
    job: &Job,
    bound: Bound,
    twins: &mut Twins<W>,
    kinds: &Kinds,
    kept: &[Place],
    ends: &[usize],
    sequences: &[u32],
) -> Result<Places, NoMemory>
    requires width { W ≤ 17 }
    requires needed { twins.old.needed ≡ goes_with bound.need }
    requires first { slice_get twins.old.twins 0 ≡ Some dead_twin }
    requires within { AllByRecursion (λ i. i < length job.now.sequences) sequences.now }
    requires kept { AreKept job.now bound twins.old.table kinds.now kept.now ends.now sequences.now }
    ensures twins { TwinsGrow twins.old twins.new }
    ensures places { IfOk result (AreFilled job.now bound twins.new.twins kinds.now sequences.now) }
{
    let mut places = Places::new(alloc);
    for grid in 0..sequences.len() {
        let items = job.db().sequence(sequences[grid]);
        if places.len() + items.len() >= u32::MAX as usize {
            return Err(NoMemory);
        }
        fill_sequence(
            job,
            bound,
            twins,
            kinds,
            kept,
            ends[grid],
            items,
            &mut places,
        )?;
    }
    Ok(places)
}

/// The records of the items of one sequence, whose places lie before the end, and a dead one behind them.
pub(crate) fn fill_sequence<const W: usize>(
    job: &Job,
    bound: Bound,
    twins: &mut Twins<W>,
    kinds: &Kinds,
    kept: &[Place],
    end: usize,
    items: &[Item],
    places: &mut Places,
) -> Result<(), NoMemory>
    requires width { W ≤ 17 }
    requires needed { twins.old.needed ≡ goes_with bound.need }
    requires table { IsTableOf job.now twins.old.table }
    requires kept { ArePlaces job.now bound twins.old.table kinds.now kept.now end items.now }
    requires first { slice_get twins.old.twins 0 ≡ Some dead_twin }
    requires known { AreKnown twins.old.twins places.old }
    ensures twins { TwinsGrow twins.old twins.new }
    ensures grow { Extends places.old places.new }
    ensures long { OnOk result (length places.new ≡ length places.old + length items.now + 1) }
    ensures known { OnOk result (AreKnown twins.new.twins places.new) }
    ensures here { OnOk result (AreHere job.now bound twins.new.twins kinds.now items.now places.new
        (length places.old)) }
{
    for position in 0..items.len() {
        let entry = record_at(job, bound, twins, kinds, kept, end, items, position)?;
        places.push(entry)?;
    }
    push_wall(places)?;
    Ok(())
}

// The record of a place where nothing is done.
fn push_wall(places: &mut Places) -> Result<(), NoMemory>
    ensures pushed { OnOk result (places.new ≡ places.old ++ wall_record ∷ []) }
    ensures same { OnErr result (places.new ≡ places.old) }
{
    places.push(Record { kind: 0, of: 0 })
}

// The record of the item at a position.
#[inline]
fn record_at<const W: usize>(
    job: &Job,
    bound: Bound,
    twins: &mut Twins<W>,
    kinds: &Kinds,
    kept: &[Place],
    end: usize,
    items: &[Item],
    position: usize,
) -> Result<Record, NoMemory>
    requires width { W ≤ 17 }
    requires needed { twins.old.needed ≡ goes_with bound.need }
    requires table { IsTableOf job.now twins.old.table }
    requires kept { ArePlaces job.now bound twins.old.table kinds.now kept.now end items.now }
    requires position { position < length items.now }
    ensures twins { TwinsGrow twins.old twins.new }
    ensures entry { IfOk result (λ entry. (t : Item) → slice_get items.now position ≡ Some t
        → IsRecordBy job.now bound twins.new.twins kinds.now t (drop (position + 1) items.now) entry) }
{
    let _job = job;
    let _bound = bound;
    let _items = items;
    let place = kept[end - 1 - position];
    let behind = kept[end - 2 - position];
    let class = kinds.kinds[place.kind as usize].class;
    let of = twins.number(class, behind.triple)?;
    Ok(Record {
        kind: place.kind,
        of,
    })
}
