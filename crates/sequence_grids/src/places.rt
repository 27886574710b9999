//! The places of a sequence, from the last to the first.

ghost use Rattle.std.specs.Prelude.{◌≡◌, ℕ, ◌+◌, ◌≤◌, ◌<◌, List, [], ◌∷◌, ◌++◌, length, drop, All, IfOk, IfSome, OnOk, vec_len, vec_capacity};
ghost use Rattle.mine_model.specs.declared.item.Item.{Item};
ghost use Rattle.sequence_grids.specs.declared.places.Place.{Place};
ghost use Rattle.mining_job.specs.Problems.{IsWhole};
ghost use Rattle.sequence_grids.specs.Tables.{Grows, AreSteps};
ghost use Rattle.sequence_grids.specs.Kinds.{AreKinds, KindsGrow, HasKind, IsMet, AreMet, Extends};
ghost use Rattle.sequence_grids.specs.Places.{HasTriple, IsTableOf, ArePlaces, AreFilled};

use super::alphabet::meet_all;
use super::kinds::{Kinds, Scratch};
use super::number::NONE;
use super::table::known_step;
use super::tables::Tables;
use mine_model::{Item, NoMemory};
use mining_job::{Bound, Job};

/// The kind of the item at a place, and the triple of what may come of it.
#[derive(Clone, Copy, Debug)]
pub struct Place {
    pub kind: u32,
    pub triple: u32,
}

/// The places of a sequence behind the others, from the last to the first.
pub fn push_places(
    job: &Job,
    bound: Bound,
    tables: &mut Tables,
    kinds: &mut Kinds,
    scratch: &mut Scratch,
    places: &mut Vec<Place>,
    items: &[Item],
) -> Result<(), NoMemory>
    requires table { IsTableOf job.now tables.old }
    requires kinds { AreKinds job.now bound tables.old.classes kinds.old }
    requires items { All (λ t. t.0 < job.now.hierarchy.items) items.now }
    ensures table { IsTableOf job.now tables.new }
    ensures kinds { AreKinds job.now bound tables.new.classes kinds.new }
    ensures tables_grow { Grows tables.old tables.new }
    ensures kinds_grow { KindsGrow kinds.old kinds.new }
    ensures places_grow { Extends places.old.items places.new.items }
    ensures places { OnOk result (ArePlaces job.now bound tables.new kinds.new
        places.new.items (length places.new.items) items.now) }
{
    meet_all(job, bound, tables, kinds, scratch, items)?;
    push_met(job, bound, tables, kinds, places, items)
}

/// The same where the kinds of all items of the sequence are known.
pub fn push_met(
    job: &Job,
    bound: Bound,
    tables: &mut Tables,
    kinds: &Kinds,
    places: &mut Vec<Place>,
    items: &[Item],
) -> Result<(), NoMemory>
    requires table { IsTableOf job.now tables.old }
    requires kinds { AreKinds job.now bound tables.old.classes kinds.now }
    requires items { All (λ t. t.0 < job.now.hierarchy.items) items.now }
    requires met { AreMet kinds.now items.now }
    ensures table { IsTableOf job.now tables.new }
    ensures kinds { AreKinds job.now bound tables.new.classes kinds.now }
    ensures tables_grow { Grows tables.old tables.new }
    ensures places_grow { Extends places.old.items places.new.items }
    ensures places { OnOk result (ArePlaces job.now bound tables.new kinds.now
        places.new.items (length places.new.items) items.now) }
{
    places.reserve(items.len() + 1)?;
    places.push_reserved(Place {
        kind: NONE,
        triple: 0,
    });
    let (mut position, mut triple) = push_known(
        job,
        bound,
        tables,
        kinds,
        places,
        items,
        items.len(),
        0,
    );
    while 0 < position {
        position -= 1;
        let t = items[position];
        triple = push_place(job, bound, tables, kinds, places, t, triple)?;
        (position, triple) = push_known(job, bound, tables, kinds, places, items, position, triple);
    }
    Ok(())
}

// The places of the items before those of the rest, whose triple has the number, as long as what they do is
// known; gives the number of items that are left, and that of the triple of the new rest.
fn push_known(
    job: &Job,
    bound: Bound,
    tables: &Tables,
    kinds: &Kinds,
    places: &mut Vec<Place>,
    items: &[Item],
    count: usize,
    after: u32,
) -> (usize, u32)
    requires table { IsTableOf job.now tables.now }
    requires kinds { AreKinds job.now bound tables.now.classes kinds.now }
    requires items { All (λ t. t.0 < job.now.hierarchy.items) items.now }
    requires count { count ≤ length items.now }
    requires after { HasTriple job.now bound tables.now.triples (drop count items.now) after }
    requires room { vec_len places.old + count ≤ vec_capacity places.old }
    ensures less { result.0 ≤ count }
    ensures triple { HasTriple job.now bound tables.now.triples (drop result.0 items.now) result.1 }
    ensures capacity { vec_capacity places.new ≡ vec_capacity places.old }
    ensures grow { Extends places.old.items places.new.items }
    ensures filled { (from : ℕ)
        → AreFilled job.now bound tables.now kinds.now places.old.items from items.now count
        → AreFilled job.now bound tables.now kinds.now places.new.items from items.now result.0 }
{
    // The contract of `threshold` says that the parts of the job fit.
    let _threshold = job.threshold();
    let steps = tables.steps();
    let mut position = count;
    let mut triple = after;
    while 0 < position {
        match known_place(
            job,
            bound,
            tables,
            kinds,
            steps,
            items[position - 1],
            triple,
        ) {
            Some(place) => {
                position -= 1;
                triple = place.triple;
                places.push_reserved(place);
            }
            None => return (position, triple),
        }
    }
    (position, triple)
}

// The place of an item before those of the rest, where its kind and the step are known.
#[inline]
fn known_place(
    job: &Job,
    bound: Bound,
    tables: &Tables,
    kinds: &Kinds,
    steps: &[u32],
    t: Item,
    after: u32,
) -> Option<Place>
    requires whole { IsWhole job.now }
    requires table { IsTableOf job.now tables.now }
    requires kinds { AreKinds job.now bound tables.now.classes kinds.now }
    requires steps { AreSteps tables.now.predecessors tables.now.classes tables.now.triples steps.now }
    requires item { t.0 < job.now.hierarchy.items }
    ensures kind { IfSome result (λ place. HasKind job.now bound tables.now.classes kinds.now t place.kind) }
    ensures triple { IfSome result (λ place. (rest : List Item)
        → HasTriple job.now bound tables.now.triples rest after
        → HasTriple job.now bound tables.now.triples (t ∷ rest) place.triple) }
{
    let _job = job;
    let _bound = bound;
    let _tables = tables;
    let kind = kinds.numbers[t.0 as usize];
    if kind == NONE {
        return None;
    }
    let class = kinds.kinds[kind as usize].class;
    let triple = known_step(steps, class, after)?;
    Some(Place { kind, triple })
}

// The place of an item before those of the rest, whose triple has the number; gives the number of its triple.
#[inline(never)]
fn push_place(
    job: &Job,
    bound: Bound,
    tables: &mut Tables,
    kinds: &Kinds,
    places: &mut Vec<Place>,
    t: Item,
    after: u32,
) -> Result<u32, NoMemory>
    requires table { IsTableOf job.now tables.old }
    requires kinds { AreKinds job.now bound tables.old.classes kinds.now }
    requires item { t.0 < job.now.hierarchy.items }
    requires met { IsMet kinds.now t }
    requires after { after < length tables.old.triples }
    requires room { vec_len places.old < vec_capacity places.old }
    ensures capacity { vec_capacity places.new ≡ vec_capacity places.old }
    ensures table { IsTableOf job.now tables.new }
    ensures kinds { AreKinds job.now bound tables.new.classes kinds.now }
    ensures tables_grow { Grows tables.old tables.new }
    ensures places_grow { Extends places.old.items places.new.items }
    ensures place { IfOk result (λ triple. (kind : ℕ)
        × (places.new.items ≡ places.old.items ++ (record { kind = kind; triple = triple }) ∷ [])
        × HasKind job.now bound tables.new.classes kinds.now t kind) }
    ensures triple { IfOk result (λ triple. (rest : List Item)
        → HasTriple job.now bound tables.old.triples rest after
        → HasTriple job.now bound tables.new.triples (t ∷ rest) triple) }
{
    // The contract of `threshold` says that the parts of the job fit.
    let _threshold = job.threshold();
    let _bound = bound;
    let kind = kinds.numbers[t.0 as usize];
    let class = kinds.kinds[kind as usize].class;
    let triple = tables.step(class, after)?;
    places.push_reserved(Place { kind, triple });
    Ok(triple)
}
