//! For each pattern of an answer a list of the sequences that may have it.

ghost use Rattle.std.specs.Prelude.{◌≡◌, ℕ, ◌+◌, ◌≤◌, ◌<◌, true, false, length, slice_index, All, Contains, IfOk, OnOk};
ghost use Rattle.std.specs.List.{slice_index_or};
ghost use Rattle.mine_model.specs.declared.item.Item.{Item};
ghost use Rattle.mine_model.specs.Hierarchy.{IsAncestor};
ghost use Rattle.mine_model.specs.Ranks.{frequency_in};
ghost use Rattle.pattern_proof.specs.Listing.{AreLists, AreItemsOf, AreListed, BeginsAt, HasFirst, fronts_of};
ghost use Rattle.pattern_proof.specs.Writings.{AreOfAnswer};

use mine_model::{Item, NoMemory, Row};
use mining_job::Job;
use std::alloc::Global;

/// A sequence in a list, by its number. `next` is the number of the one behind it, counted from 1 among the
/// sequences of all lists, and 0 behind the last.
#[derive(Clone, Copy, Debug)]
pub(crate) struct Listed {
    pub(crate) place: u32,
    pub(crate) next: u32,
}

/// The lists of all rows: where that of each row begins, as in `Listed`.
#[derive(Drop)]
pub(crate) struct Lists {
    pub(crate) starts: Vec<u32>,
    pub(crate) listed: Vec<Listed>,
}

/// Lists that grow at their front: where that of each item begins, by its number.
#[derive(Drop)]
pub(crate) struct Lister {
    newest: Vec<u32>,
    listed: Vec<Listed>,
}

/// For each row the sequences that hold something at or below the rarest item of its pattern.
pub(crate) fn lists_of(alloc: Global, job: &Job, rows: &[Row]) -> Result<Lists, NoMemory>
    requires { AreOfAnswer job.now rows.now }
    ensures { IfOk result (λ lists. AreLists job.now lists rows.now) }
{
    let numbers = rarest_items(alloc, job, rows)?;
    let marked = marks(alloc, job.hierarchy().items(), numbers.as_slice())?;
    let lister = list_all(alloc, job, marked.as_slice())?;
    let mut starts = Vec::with_capacity(alloc, numbers.len())?;
    for number in &numbers {
        starts.push_reserved(lister.newest[*number as usize]);
    }
    Ok(Lists {
        starts,
        listed: lister.listed,
    })
}

/// The number of the rarest item of each row.
fn rarest_items(alloc: Global, job: &Job, rows: &[Row]) -> Result<Vec<u32>, NoMemory>
    requires { AreOfAnswer job.now rows.now }
    ensures { IfOk result (λ numbers. AreItemsOf job.now rows.now numbers.items) }
{
    // No link leads out of the items, so each pattern has items of the hierarchy alone.
    let _items = job.hierarchy().items();
    let mut numbers = Vec::with_capacity(alloc, rows.len())?;
    for row in rows {
        numbers.push_reserved(rarest(job, row.pattern.items()).0);
    }
    Ok(numbers)
}

/// The item of the pattern whose frequency is the least.
fn rarest(job: &Job, pattern: &[Item]) -> Item
    requires some { 0 < length pattern.now }
    requires known { All (λ item. item.0 < job.now.hierarchy.items) pattern.now }
    ensures held { Contains pattern.now result }
    ensures least { All (λ item. frequency_in job.now.ranking result ≤ frequency_in job.now.ranking item)
        pattern.now }
{
    let mut found = pattern[0];
    for item in pattern {
        if job.ranks().frequency(*item) < job.ranks().frequency(found) {
            found = *item;
        }
    }
    found
}

/// For so many items whether each is among the numbers.
fn marks(alloc: Global, items: u32, numbers: &[u32]) -> Result<Vec<bool>, NoMemory>
    requires { (k : ℕ) → k < length numbers.now → slice_index numbers.now k < items }
    ensures whole { IfOk result (λ marked. length marked.items ≡ items) }
    ensures marked { IfOk result (λ marked. (k : ℕ) → k < length numbers.now
        → slice_index_or marked.items (slice_index numbers.now k) false ≡ true) }
{
    let mut marked = vec![in alloc; false; items as usize]?;
    for number in numbers {
        marked[*number as usize] = true;
    }
    Ok(marked)
}

/// For each item that is marked the sequences that hold something at or below it.
fn list_all(alloc: Global, job: &Job, marked: &[bool]) -> Result<Lister, NoMemory>
    requires { length marked.now ≡ job.now.hierarchy.items }
    ensures { IfOk result (λ lister. AreListed job.now marked.now (fronts_of lister) 0 0) }
{
    let mut lister = Lister {
        newest: vec![in alloc; 0u32; marked.len()]?,
        listed: Vec::new(alloc),
    };
    let mut place = job.db().sequences();
    while place > 0 {
        place -= 1;
        list_sequence(job, marked, &mut lister, place)?;
    }
    Ok(lister)
}

/// Puts the sequence with this number at the front of the lists to which it belongs.
fn list_sequence(
    job: &Job,
    marked: &[bool],
    lister: &mut Lister,
    place: u32,
) -> Result<(), NoMemory>
    requires place { place < length job.now.sequences }
    requires marked { length marked.now ≡ job.now.hierarchy.items }
    requires listed { AreListed job.now marked.now (fronts_of lister.old) (place + 1) (place + 1) }
    ensures { OnOk result (AreListed job.now marked.now (fronts_of lister.new) place place) }
{
    for t in job.db().sequence(place) {
        list_under(job, marked, lister, place, *t)?;
    }
    Ok(())
}

/// The same of the lists of t and of what stands above it.
fn list_under(
    job: &Job,
    marked: &[bool],
    lister: &mut Lister,
    place: u32,
    t: Item,
) -> Result<(), NoMemory>
    requires place { place < length job.now.sequences }
    requires t { t.0 < job.now.hierarchy.items }
    requires marked { length marked.now ≡ job.now.hierarchy.items }
    requires listed { AreListed job.now marked.now (fronts_of lister.old) place (place + 1) }
    ensures listed { OnOk result (AreListed job.now marked.now (fronts_of lister.new) place (place + 1)) }
    ensures first { OnOk result ((w : Item) → IsAncestor job.now.hierarchy.links w t
        → slice_index_or marked.now w.0 false ≡ true → BeginsAt (fronts_of lister.new) place w) }
    ensures kept { OnOk result ((w : Item) → BeginsAt (fronts_of lister.old) place w
        → BeginsAt (fronts_of lister.new) place w) }
{
    for w in job.hierarchy().ancestors(t) {
        if marked[w.0 as usize] {
            list_place(lister, place, *w)?;
        }
    }
    Ok(())
}

/// The same of the list of w, if the list does not begin with it.
fn list_place(lister: &mut Lister, place: u32, w: Item) -> Result<(), NoMemory>
    requires w { w.0 < length lister.old.newest.items }
    requires head { slice_index lister.old.newest.items w.0 ≤ length lister.old.listed.items }
    ensures { OnOk result (HasFirst (fronts_of lister.old) place w (fronts_of lister.new)) }
{
    let next = lister.newest[w.0 as usize];
    if next > 0 && lister.listed[next as usize - 1].place == place {
        return Ok(());
    }
    // A list has no number for more.
    if lister.listed.len() >= u32::MAX as usize {
        return Err(NoMemory);
    }
    lister.listed.push(Listed { place, next })?;
    lister.newest[w.0 as usize] = lister.listed.len() as u32;
    Ok(())
}
