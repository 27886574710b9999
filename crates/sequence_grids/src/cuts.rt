//! What items may do under the bound of a part, cut from what they may do under that of all ranks.

ghost use Rattle.std.specs.Prelude.{◌≡◌, ℕ, ◌+◌, ◌≤◌, ◌<◌, ◌↔◌, ◌++◌, ◌∷◌, [], AllPairs, List, length, drop, slice_index, Contains, All, IfOk, IfSome, OnOk, IsTrue, vec_len, vec_capacity};
ghost use Rattle.std.specs.List.{AllByRecursion};
ghost use Rattle.mine_model.specs.declared.item.Item.{Item};
ghost use Rattle.sequence_grids.specs.Grids.{Reads};
ghost use Rattle.sequence_grids.specs.Tables.{Grows, unknown};
ghost use Rattle.sequence_grids.specs.Kinds.{IsTarget, Extends, HasKind, KindsGrow};
ghost use Rattle.sequence_grids.specs.Places.{HasTriple, IsTableOf, ArePlaces, AreKept};
ghost use Rattle.sequence_grids.specs.Wholes.{whole_bound, IsWholeAlphabet, AreOutputs};
ghost use Rattle.sequence_grids.specs.Cuts.{AreCuts};

use super::alphabet::Alphabet;
use super::kinds::{Kinds, Scratch, new_kind, outputs_of, read_at};
use super::number::NONE;
use super::places::Place;
use super::tables::Tables;
use mine_model::{Item, NoMemory};
use mining_job::{Bound, Job};

/// The places of sequences behind the others, those of each from the last to the first, and where those of
/// each end.
pub(crate) fn push_all(
    job: &Job,
    bound: Bound,
    tables: &mut Tables,
    kinds: &mut Kinds,
    cuts: &mut [u32],
    scratch: &mut Scratch,
    all: &Alphabet,
    places: &mut Vec<Place>,
    ends: &mut Vec<usize>,
    sequences: &[u32],
) -> Result<(), NoMemory>
    requires table { IsTableOf job.now tables.old }
    requires cuts { AreCuts job.now bound tables.old.classes kinds.old all.now cuts.old }
    requires within { AllByRecursion (λ i. i < length job.now.sequences) sequences.now }
    requires alphabet { IsWholeAlphabet job.now all.now }
    requires no_places { places.old.items ≡ [] }
    requires no_ends { ends.old.items ≡ [] }
    ensures kept { OnOk result (AreKept job.now bound tables.new kinds.new places.new.items ends.new.items
        sequences.now) }
{
    for seq in sequences {
        let items = job.db().sequence(*seq);
        push_places(job, bound, tables, kinds, cuts, scratch, all, places, items)?;
        ends.push(places.len())?;
    }
    Ok(())
}

// The places of a sequence behind the others, from the last to the first.
fn push_places(
    job: &Job,
    bound: Bound,
    tables: &mut Tables,
    kinds: &mut Kinds,
    cuts: &mut [u32],
    scratch: &mut Scratch,
    all: &Alphabet,
    places: &mut Vec<Place>,
    items: &[Item],
) -> Result<(), NoMemory>
    requires table { IsTableOf job.now tables.old }
    requires cuts { AreCuts job.now bound tables.old.classes kinds.old all.now cuts.old }
    requires items { All (λ t. t.0 < job.now.hierarchy.items) items.now }
    requires alphabet { IsWholeAlphabet job.now all.now }
    ensures table { IsTableOf job.now tables.new }
    ensures cuts { AreCuts job.now bound tables.new.classes kinds.new all.now cuts.new }
    ensures tables_grow { Grows tables.old tables.new }
    ensures kinds_grow { KindsGrow kinds.old kinds.new }
    ensures places_grow { Extends places.old.items places.new.items }
    ensures places { OnOk result (ArePlaces job.now bound tables.new kinds.new
        places.new.items (length places.new.items) items.now) }
{
    places.reserve(items.len() + 1)?;
    places.push_reserved(Place {
        kind: NONE,
        triple: 0,
    });
    let mut position = items.len();
    let mut triple = 0;
    while 0 < position {
        position -= 1;
        let t = items[position];
        triple = push_place(
            job, bound, tables, kinds, cuts, scratch, all, places, t, triple,
        )?;
    }
    Ok(())
}

// The place of an item before those of the rest, whose triple has the number; gives the number of its triple.
#[inline(always)]
fn push_place(
    job: &Job,
    bound: Bound,
    tables: &mut Tables,
    kinds: &mut Kinds,
    cuts: &mut [u32],
    scratch: &mut Scratch,
    all: &Alphabet,
    places: &mut Vec<Place>,
    t: Item,
    after: u32,
) -> Result<u32, NoMemory>
    requires table { IsTableOf job.now tables.old }
    requires cuts { AreCuts job.now bound tables.old.classes kinds.old all.now cuts.old }
    requires item { t.0 < job.now.hierarchy.items }
    requires alphabet { IsWholeAlphabet job.now all.now }
    requires after { after < length tables.old.triples }
    requires room { vec_len places.old < vec_capacity places.old }
    ensures capacity { vec_capacity places.new ≡ vec_capacity places.old }
    ensures table { IsTableOf job.now tables.new }
    ensures cuts { AreCuts job.now bound tables.new.classes kinds.new all.now cuts.new }
    ensures tables_grow { Grows tables.old tables.new }
    ensures kinds_grow { KindsGrow kinds.old kinds.new }
    ensures places_grow { Extends places.old.items places.new.items }
    ensures place { IfOk result (λ triple. (kind : ℕ)
        × (places.new.items ≡ places.old.items ++ (record { kind = kind; triple = triple }) ∷ [])
        × HasKind job.now bound tables.new.classes kinds.new t kind) }
    ensures triple { IfOk result (λ triple. (rest : List Item)
        → HasTriple job.now bound tables.old.triples rest after
        → HasTriple job.now bound tables.new.triples (t ∷ rest) triple) }
{
    // The contract of `threshold` says that the parts of the job fit.
    let _threshold = job.threshold();
    let kind = cut_kind(job, bound, tables, kinds, cuts, scratch, all, t)?;
    let class = kinds.kinds[kind as usize].class;
    let triple = tables.step(class, after)?;
    places.push_reserved(Place { kind, triple });
    Ok(triple)
}

// The number of the kind of an item: what was cut from its kind in the alphabet, or is now.
#[inline(always)]
fn cut_kind(
    job: &Job,
    bound: Bound,
    tables: &mut Tables,
    kinds: &mut Kinds,
    cuts: &mut [u32],
    scratch: &mut Scratch,
    all: &Alphabet,
    t: Item,
) -> Result<u32, NoMemory>
    requires item { t.0 < job.now.hierarchy.items }
    requires states { length tables.old.predecessors ≡ length job.now.transducer.labels + 1 }
    requires cuts { AreCuts job.now bound tables.old.classes kinds.old all.now cuts.old }
    requires alphabet { IsWholeAlphabet job.now all.now }
    ensures tables { Grows tables.old tables.new }
    ensures grow { KindsGrow kinds.old kinds.new }
    ensures cuts { AreCuts job.now bound tables.new.classes kinds.new all.now cuts.new }
    ensures kind { IfOk result (λ number. HasKind job.now bound tables.new.classes kinds.new t number) }
{
    let whole = all.kinds.numbers[t.0 as usize];
    if whole == NONE || whole as usize >= cuts.len() {
        return new_kind(job, bound, tables, kinds, scratch, all, t);
    }
    let known = cuts[whole as usize];
    if known != NONE {
        return Ok(known);
    }
    let number = new_kind(job, bound, tables, kinds, scratch, all, t)?;
    cuts[whole as usize] = number;
    Ok(number)
}

/// What edges into state k may write at an item, as ranks behind the others, and whether they match it and
/// write nothing.
pub(crate) fn push_found(
    job: &Job,
    bound: Bound,
    t: Item,
    k: u32,
    ranks: &mut Vec<u32>,
    written: &mut Vec<Item>,
    found: &mut Vec<u32>,
    alphabet: Option<&Alphabet>,
) -> Result<bool, NoMemory>
    requires item { t.0 < job.now.hierarchy.items }
    requires state { IsTarget job.now k }
    requires alphabet { IfSome alphabet (λ all. IsWholeAlphabet job.now all.now) }
    ensures silent { IfOk result (λ silent. IsTrue silent ↔ Reads job.now t k []) }
    ensures grow { Extends ranks.old.items ranks.new.items }
    ensures outputs { OnOk result ((more : List ℕ) × (ranks.new.items ≡ ranks.old.items ++ more)
        × AreOutputs job.now bound t k more) }
{
    if let Some(all) = alphabet {
        let number = all.kinds.numbers[t.0 as usize];
        if number != NONE {
            return cut_at(job, bound, t, k, ranks, all, number);
        }
    }
    let silent = read_at(job, bound, t, k, written, found)?;
    ranks.extend_from_slice(found.as_slice())?;
    Ok(silent)
}

// The same of an item whose kind in the alphabet has the number.
fn cut_at(
    job: &Job,
    bound: Bound,
    t: Item,
    k: u32,
    ranks: &mut Vec<u32>,
    all: &Alphabet,
    number: u32,
) -> Result<bool, NoMemory>
    requires state { IsTarget job.now k }
    requires alphabet { IsWholeAlphabet job.now all.now }
    requires kind { HasKind job.now (whole_bound job.now) all.now.tables.classes all.now.kinds t number }
    ensures silent { IfOk result (λ silent. IsTrue silent ↔ Reads job.now t k []) }
    ensures grow { Extends ranks.old.items ranks.new.items }
    ensures outputs { OnOk result ((more : List ℕ) × (ranks.new.items ≡ ranks.old.items ++ more)
        × AreOutputs job.now bound t k more) }
{
    let _job = job;
    let _t = t;
    push_up_to(ranks, outputs_of(&all.kinds, number, k), bound.top)?;
    let class = all.kinds.kinds[number as usize].class;
    Ok(all.tables.is_silent(class, k))
}

// Appends those of the ranks, which rise, that are no greater than the top.
fn push_up_to(ranks: &mut Vec<u32>, outputs: &[u32], top: u32) -> Result<(), NoMemory>
    requires rising { AllPairs (λ low high. low < high) outputs.now }
    ensures grow { Extends ranks.old.items ranks.new.items }
    ensures cut { OnOk result ((more : List ℕ) × (ranks.new.items ≡ ranks.old.items ++ more)
        × AllPairs (λ low high. low < high) more
        × ((rank : ℕ) → Contains more rank ↔ (Contains outputs.now rank × (rank ≤ top)))) }
{
    for rank in outputs {
        if *rank > top {
            return Ok(());
        }
        ranks.push(*rank)?;
    }
    Ok(())
}
