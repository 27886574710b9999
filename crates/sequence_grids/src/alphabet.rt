//! The kinds of at least all items that occur.

ghost use Rattle.std.specs.Prelude.{◌≡◌, ◌≤◌, ◌<◌, length, All, IfOk, OnOk};
ghost use Rattle.std.specs.List.{AllByRecursion};
ghost use Rattle.mine_model.specs.declared.item.Item.{Item};
ghost use Rattle.sequence_grids.specs.Tables.{Grows};
ghost use Rattle.sequence_grids.specs.Kinds.{AreKinds, KindsGrow, IsMet, AreMet};
ghost use Rattle.sequence_grids.specs.Places.{IsTableOf, IsAlphabetTo, IsAlphabet};
ghost use Rattle.sequence_grids.specs.Wholes.{whole_bound, IsWholeAlphabet};

use super::kinds::{Kinds, Scratch, kind_of};
use super::tables::Tables;
use mine_model::{Item, NoMemory};
use mining_job::{Bound, Job};
use std::alloc::Global;

/// The kinds of at least all items that occur in the sequences of a job, and the tables that have their
/// classes.
#[derive(Drop)]
pub struct Alphabet {
    pub kinds: Kinds,
    pub tables: Tables,
}

/// The kinds of at least all items that occur in the sequences of the job, under a bound.
pub fn alphabet_of(alloc: Global, job: &Job, bound: Bound) -> Result<Alphabet, NoMemory>
    ensures { IfOk result (λ all. IsAlphabet job.now bound all.tables all.kinds) }
{
    let mut all = no_kinds(alloc, job, bound)?;
    if has_many_places(job) {
        meet_items(alloc, job, bound, &mut all)?;
    } else {
        meet_sequences(alloc, job, bound, &mut all)?;
    }
    Ok(all)
}

/// The same under the bound of all ranks.
pub fn whole_alphabet(alloc: Global, job: &Job) -> Result<Alphabet, NoMemory>
    ensures { IfOk result (IsWholeAlphabet job.now) }
{
    alphabet_of(alloc, job, whole_bound_of(job))
}

/// The kinds of no item yet, under the bound of all ranks.
pub fn empty_alphabet(alloc: Global, job: &Job) -> Result<Alphabet, NoMemory>
    ensures { IfOk result (IsWholeAlphabet job.now) }
{
    no_kinds(alloc, job, whole_bound_of(job))
}

/// Finds the kinds of the items of these sequences as well, under the bound of all ranks.
pub fn meet_items_of(
    alloc: Global,
    job: &Job,
    all: &mut Alphabet,
    sequences: &[u32],
) -> Result<(), NoMemory>
    requires within { AllByRecursion (λ i. i < length job.now.sequences) sequences.now }
    requires alphabet { IsWholeAlphabet job.now all.old }
    ensures alphabet { IsWholeAlphabet job.now all.new }
{
    let bound = whole_bound_of(job);
    let mut scratch = Scratch::new(alloc);
    for number in sequences {
        let items = job.db().sequence(*number);
        meet_all(
            job,
            bound,
            &mut all.tables,
            &mut all.kinds,
            &mut scratch,
            items,
        )?;
    }
    Ok(())
}

// The bound of all ranks.
fn whole_bound_of(job: &Job) -> Bound
    ensures { result ≡ whole_bound job.now }
{
    let top = job.ranks().count();
    Bound { top, need: None }
}

// From how many places for each item on it takes less to find the kinds of all items than to look at each
// place.
const PLACES_FOR_EACH_ITEM: u64 = 64;

// Whether the sequences have so many places, all together.
fn has_many_places(job: &Job) -> bool {
    let mut places: u64 = 0;
    for number in 0..job.db().sequences() {
        places = places.saturating_add(job.db().sequence(number).len() as u64);
    }
    places / PLACES_FOR_EACH_ITEM >= u64::from(job.hierarchy().items())
}

// No kinds yet.
fn no_kinds(alloc: Global, job: &Job, bound: Bound) -> Result<Alphabet, NoMemory>
    ensures { IfOk result (λ none. IsAlphabetTo job.now bound none.tables none.kinds 0) }
{
    let _bound = bound;
    Ok(Alphabet {
        kinds: Kinds::new(alloc, job.fst(), job.hierarchy().items())?,
        tables: Tables::new(alloc, job.fst())?,
    })
}

// Finds the kinds of the items of all sequences.
fn meet_sequences(
    alloc: Global,
    job: &Job,
    bound: Bound,
    all: &mut Alphabet,
) -> Result<(), NoMemory>
    requires none { IsAlphabetTo job.now bound all.old.tables all.old.kinds 0 }
    ensures all { OnOk result (IsAlphabet job.now bound all.new.tables all.new.kinds) }
{
    let mut scratch = Scratch::new(alloc);
    for number in 0..job.db().sequences() {
        let items = job.db().sequence(number);
        meet_all(
            job,
            bound,
            &mut all.tables,
            &mut all.kinds,
            &mut scratch,
            items,
        )?;
    }
    Ok(())
}

// Finds the kinds of all items, those too that do not occur.
fn meet_items(alloc: Global, job: &Job, bound: Bound, all: &mut Alphabet) -> Result<(), NoMemory>
    requires none { IsAlphabetTo job.now bound all.old.tables all.old.kinds 0 }
    ensures all { OnOk result (IsAlphabet job.now bound all.new.tables all.new.kinds) }
{
    let mut scratch = Scratch::new(alloc);
    for number in 0..job.hierarchy().items() {
        let t = [Item(number)];
        meet_all(
            job,
            bound,
            &mut all.tables,
            &mut all.kinds,
            &mut scratch,
            &t,
        )?;
    }
    Ok(())
}

/// Finds the kinds of those of the items that were not yet met.
pub(crate) fn meet_all(
    job: &Job,
    bound: Bound,
    tables: &mut Tables,
    kinds: &mut Kinds,
    scratch: &mut Scratch,
    items: &[Item],
) -> Result<(), NoMemory>
    requires table { IsTableOf job.now tables.old }
    requires kinds { AreKinds job.now bound tables.old.classes kinds.old }
    requires items { All (λ t. t.0 < job.now.hierarchy.items) items.now }
    ensures table { IsTableOf job.now tables.new }
    ensures kinds { AreKinds job.now bound tables.new.classes kinds.new }
    ensures tables_grow { Grows tables.old tables.new }
    ensures kinds_grow { KindsGrow kinds.old kinds.new }
    ensures kept { (t : Item) → IsMet kinds.old t → IsMet kinds.new t }
    ensures met { OnOk result (AreMet kinds.new items.now) }
{
    for t in items {
        kind_of(job, bound, tables, kinds, scratch, *t)?;
    }
    Ok(())
}
