//! What places do, numbered when it is first met.

ghost use Rattle.std.specs.Prelude.{◌≡◌, ◌+◌, ◌*◌, ◌≤◌, ◌<◌, ◌↔◌, false, [], ◌∷◌, length, map, slice_get, Some, All, IsTrue, IfOk, OnOk};
ghost use Rattle.mine_model.specs.Lists.{AddsTo};
ghost use Rattle.sequence_grids.specs.Grids.{Completes};
ghost use Rattle.sequence_grids.specs.Kinds.{AreMet};
ghost use Rattle.sequence_grids.specs.Places.{ArePlaces};
ghost use Rattle.place_records.specs.Blocks.{IsOver};
ghost use Rattle.place_records.specs.Records.{goes_with as goes_by};
ghost use Rattle.place_records.specs.Twins.{twin_sets, dead_twin, AreTargets};
ghost use Rattle.place_records.specs.Numbers.{HasTwin, TwinsGrow};

use super::twin::{Twin, twin_of};
use indexmap::IndexSet;
use mine_model::{Item, NoMemory};
use mining_job::{Bound, Job};
use sequence_grids::{Kinds, Place, Tables, keep_step, known_step, push_met};
use state_bits::StateSet;
use std::alloc::Global;
use std::marker::Model;

/// What places do by the classes of their items and the triples behind them, each once, under numbers. The
/// first one is that of a place where nothing is done.
pub(crate) struct Twins<const W: usize> {
    tables: Tables,
    // Whether something is needed, and the states that edges lead into.
    needed: bool,
    targets: StateSet<W>,
    twins: IndexSet<Twin<W>>,
    // For a triple and one of the first classes the number of what a place does, or `NONE`.
    numbers: Vec<u32>,
}

// Written out, so that it is let go of by a call, and not part by part wherever one is.
impl<const W: usize> Drop for Twins<W> {
    fn drop(self) {
        let Twins {
            tables: _,
            needed: _,
            targets: _,
            twins: _,
            numbers: _,
        } = self;
    }
}

impl<const W: usize> Model for Twins<W> {
    ghost use Rattle.std.specs.Prelude.{map};
    ghost use Rattle.place_records.specs.Twins.{twin_sets};
    ghost use Rattle.place_records.specs.Numbers.{TwinsValue, AreTwins};

    ghost Value = { TwinsValue };

    ghost view = { λ t. record { table = t.tables; needed = t.needed; twins = map twin_sets t.twins.keys } };

    ghost invariant = { λ t. AreTwins t.tables t.needed t.targets (map twin_sets t.twins.keys)
        t.numbers.items };
}

impl<const W: usize> Twins<W> {
    /// Nothing but what does nothing, over these tables of so many states.
    pub(crate) fn new(
        alloc: Global,
        tables: Tables,
        needed: bool,
        states: u32,
    ) -> Result<Twins<W>, NoMemory>
        requires width { W ≤ 17 }
        requires states { states ≡ length tables.predecessors }
        requires some { 1 ≤ states }
        requires room { states ≤ 64 * W }
        ensures { IfOk result (λ twins. twins
            ≡ record { table = tables; needed = needed; twins = dead_twin ∷ [] }) }
    {
        let mut twins = IndexSet::new(alloc);
        twins.insert(Twin::dead())?;
        Ok(Twins {
            tables,
            needed,
            targets: targets_below(states),
            twins,
            numbers: Vec::new(alloc),
        })
    }

    /// The number of what a place does whose item has the class, before places of the triple.
    #[inline]
    pub(crate) fn number(&mut self, class: u32, behind: u32) -> Result<u32, NoMemory>
        requires width { W ≤ 17 }
        requires class { class < length self.old.table.classes }
        requires behind { behind < length self.old.table.triples }
        ensures grows { TwinsGrow self.old self.new }
        ensures number { IfOk result (HasTwin self.new class behind) }
    {
        match known_step(self.numbers.as_slice(), class, behind) {
            Some(number) => Ok(number),
            None => self.new_number(class, behind),
        }
    }

    /// What places do, by number.
    pub(crate) fn as_slice(&self) -> &[Twin<W>]
        requires { W ≤ 17 }
        ensures { map twin_sets result.now ≡ self.now.twins }
    {
        self.twins.as_slice()
    }

    /// The places of a sequence in place of those in the room, and whether the sequence completes.
    pub(crate) fn places_of(
        &mut self,
        job: &Job,
        bound: Bound,
        kinds: &Kinds,
        items: &[Item],
        room: &mut Vec<Place>,
    ) -> Result<bool, NoMemory>
        requires width { W ≤ 17 }
        requires over { IsOver job.now bound kinds.now self.old }
        requires items { All (λ t. t.0 < job.now.hierarchy.items) items.now }
        requires met { AreMet kinds.now items.now }
        ensures over { IsOver job.now bound kinds.now self.new }
        ensures twins { self.new.twins ≡ self.old.twins }
        ensures places { OnOk result (ArePlaces job.now bound self.new.table kinds.now
            room.new.items (length room.new.items) items.now) }
        ensures completes { IfOk result (λ found. IsTrue found ↔ Completes job.now bound items.now 0 false) }
    {
        room.clear();
        push_met(job, bound, &mut self.tables, kinds, room, items)?;
        let first = room[room.len() - 1];
        Ok(self.tables.completes(first.triple, 0, false))
    }

    // The number, found out and kept.
    #[inline(never)]
    fn new_number(&mut self, class: u32, behind: u32) -> Result<u32, NoMemory>
        requires width { W ≤ 17 }
        requires class { class < length self.old.table.classes }
        requires behind { behind < length self.old.table.triples }
        ensures grows { TwinsGrow self.old self.new }
        ensures number { IfOk result (HasTwin self.new class behind) }
    {
        let words = self.tables.words(class, behind);
        let twin = twin_of(&self.targets, words, self.needed);
        let number = twin_in(&mut self.twins, &twin)?;
        keep_step(&mut self.numbers, class, behind, number)?;
        Ok(number)
    }
}

/// The number of a twin, which is added if it is new.
pub(crate) fn twin_in<const W: usize>(
    twins: &mut IndexSet<Twin<W>>,
    twin: &Twin<W>,
) -> Result<u32, NoMemory>
    requires width { W ≤ 17 }
    ensures grows { AddsTo (map twin_sets twins.old.keys) (twin_sets twin.now)
        (map twin_sets twins.new.keys) }
    ensures there { IfOk result (λ number.
        slice_get (map twin_sets twins.new.keys) number ≡ Some (twin_sets twin.now)) }
{
    let (index, _new) = twins.insert_full(*twin)?;
    match u32::try_from(index) {
        Ok(number) => Ok(number),
        Err(_) => Err(NoMemory),
    }
}

// The states below the number that edges lead into: all but the start.
fn targets_below<const W: usize>(states: u32) -> StateSet<W>
    requires width { W ≤ 17 }
    requires some { 1 ≤ states }
    requires room { states ≤ 64 * W }
    ensures { AreTargets states result }
{
    let mut targets = StateSet::new();
    for k in 1..states {
        targets.add(k);
    }
    targets
}

/// No twins but that which does nothing, over these tables.
pub(crate) fn twins_over<const W: usize>(
    alloc: Global,
    job: &Job,
    bound: Bound,
    tables: Tables,
) -> Result<Twins<W>, NoMemory>
    requires width { W ≤ 17 }
    requires room { length job.now.transducer.labels < 64 * W }
    requires table { length tables.predecessors ≡ length job.now.transducer.labels + 1 }
    ensures { IfOk result (λ twins. twins
        ≡ record { table = tables; needed = goes_by bound.need; twins = dead_twin ∷ [] }) }
{
    Twins::new(alloc, tables, goes_with(bound.need), job.fst().states())
}

// Whether something is needed, so that a path that has seen it need not write it again.
fn goes_with(need: Option<u32>) -> bool
    ensures { result ≡ goes_by need }
{
    match need {
        None => false,
        Some(_) => true,
    }
}
