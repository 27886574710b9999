//! What may come of the places of sequences, as sets of states that are numbered when they are first met.

ghost use Rattle.std.specs.Prelude.{◌≡◌, ◌≢◌, ℕ, ◌+◌, ◌*◌, ◌≤◌, ◌<◌, ◌⊎◌, ◌↔◌, [], ◌∷◌, map, length, slice_index, slice_get, Some, All, IfOk, OnOk, IfSome, IsTrue};
ghost use Rattle.mine_model.specs.Lists.{AddsTo};
ghost use Rattle.state_bits.specs.Members.{Has, HasBit};
ghost use Rattle.fst_compile.specs.Rows.{IsSetOf, Adds};
ghost use Rattle.fst_compile.specs.Transducer.{Leads};
ghost use Rattle.sequence_grids.specs.Tables.{ClassSets, TripleSets, class_sets, triple_sets, LeadTo, Precedes, IsStep, Grows, IsStepAt, IsLast, IsClassOf, AreSteps, AreBelow, completing};
ghost use Rattle.sequence_grids.specs.Words.{AreClassWords, AreTripleWords};

use super::number::{NONE, to_number};
use fst_compile::{Edge, Fst, State};
use indexmap::IndexSet;
use mine_model::NoMemory;
use state_bits::{StateSet, neighbours};
use std::alloc::Global;
use std::hash::Hash;
use std::marker::Model;

/// The states whose edges match an item and write nothing, those whose edges may write something that is
/// allowed, and those whose edges may write what is needed.
#[derive(Clone, Copy, Debug, PartialEq, Eq, Hash)]
pub(crate) struct Class<const W: usize> {
    pub(crate) silent: StateSet<W>,
    pub(crate) writes: StateSet<W>,
    pub(crate) needs: StateSet<W>,
}

/// The states that complete at a place where what is needed was seen, those of them from which something can
/// be written, those that complete where it was not seen, and those that end.
#[derive(Clone, Copy, Debug, PartialEq, Eq, Hash)]
pub(crate) struct Triple<const W: usize> {
    pub(crate) seen: StateSet<W>,
    pub(crate) more: StateSet<W>,
    pub(crate) unseen: StateSet<W>,
    pub(crate) ends: StateSet<W>,
}

/// The states that an item leads into without an output and with one, those that complete behind it where
/// what is needed was seen, those of them from which something can be written, those that complete where it
/// was not seen, and those that end there, as words.
#[derive(Clone, Copy, Debug)]
pub struct Words<'a> {
    pub silent: &'a [u64],
    pub writing: &'a [u64],
    pub seen: &'a [u64],
    pub more: &'a [u64],
    pub unseen: &'a [u64],
    pub ending: &'a [u64],
}

/// How many classes have their steps kept.
const ROW: usize = 256;

/// The classes and the triples met so far, by their numbers, and the steps between triples.
pub(crate) struct Table<const W: usize> {
    predecessors: Vec<StateSet<W>>,
    classes: IndexSet<Class<W>>,
    triples: IndexSet<Triple<W>>,
    // For a triple and one of the first classes the number of the triple before it.
    steps: Vec<u32>,
}

// Written out, so that it is let go of by a call, and not part by part wherever one is.
impl<const W: usize> Drop for Table<W> {
    fn drop(self) {
        let Table {
            predecessors: _,
            classes: _,
            triples: _,
            steps: _,
        } = self;
    }
}

impl<const W: usize> Model for Table<W> {
    ghost use Rattle.std.specs.Prelude.{map};
    ghost use Rattle.sequence_grids.specs.Tables.{TableValue, IsTable, class_sets, triple_sets};

    ghost Value = { TableValue };

    ghost view = { λ t. record {
      predecessors = t.predecessors.items;
      classes = map class_sets t.classes.keys;
      triples = map triple_sets t.triples.keys;
    } };

    ghost invariant = { λ t. IsTable W t.predecessors.items (map class_sets t.classes.keys)
        (map triple_sets t.triples.keys) t.steps.items };
}

impl<const W: usize> Table<W> {
    /// The table that has the triple of the end alone, with the number 0.
    pub(crate) fn new(alloc: Global, fst: &Fst) -> Result<Table<W>, NoMemory>
        requires width { W ≤ 17 }
        requires room { length fst.now.labels < 64 * W }
        ensures long { IfOk result (λ table. length table.predecessors ≡ length fst.now.labels + 1) }
        ensures edges { IfOk result (λ table. (q k : ℕ) → q ≤ length fst.now.labels
            → (Precedes table.predecessors q k ↔ Leads fst.now q k)) }
        ensures classes { IfOk result (λ table. table.classes ≡ []) }
        ensures last { IfOk result (λ table. (triple : TripleSets)
            × (table.triples ≡ triple ∷ []) × IsLast fst.now.finals triple) }
    {
        let predecessors = predecessors_of(alloc, fst)?;
        let finals = finals_of(fst);
        let mut triples = IndexSet::new(alloc);
        triples.insert(Triple {
            seen: finals,
            more: StateSet::new(),
            unseen: StateSet::new(),
            ends: finals,
        })?;
        Ok(Table {
            predecessors,
            classes: IndexSet::new(alloc),
            triples,
            steps: Vec::new(alloc),
        })
    }

    /// A table with the same classes and triples.
    pub(crate) fn copy(&self, alloc: Global) -> Result<Table<W>, NoMemory>
        requires width { W ≤ 17 }
        ensures { IfOk result (λ copy. copy ≡ self.now) }
    {
        let mut predecessors = Vec::new(alloc);
        predecessors.extend_from_slice(self.predecessors.as_slice())?;
        Ok(Table {
            predecessors,
            classes: set_in_order(alloc, self.classes.as_slice())?,
            triples: set_in_order(alloc, self.triples.as_slice())?,
            steps: Vec::new(alloc),
        })
    }

    /// The number of the class with these states.
    pub(crate) fn class_number(
        &mut self,
        silent: &[u32],
        writes: &[u32],
        needs: &[u32],
    ) -> Result<u32, NoMemory>
        requires width { W ≤ 17 }
        requires silent { All (λ k. k < length self.old.predecessors) silent.now }
        requires writes { All (λ k. k < length self.old.predecessors) writes.now }
        requires needs { All (λ k. k < length self.old.predecessors) needs.now }
        ensures grows { Grows self.old self.new }
        ensures class { IfOk result (λ number. (class : ClassSets)
            × (slice_get self.new.classes number ≡ Some class)
            × IsClassOf class silent.now writes.now needs.now) }
    {
        let _predecessors = &self.predecessors;
        let class = Class {
            silent: set_of(silent),
            writes: set_of(writes),
            needs: set_of(needs),
        };
        class_in(&mut self.classes, &class)
    }

    /// The number of the triple before an item of this class and this triple.
    pub(crate) fn step(&mut self, class: u32, after: u32) -> Result<u32, NoMemory>
        requires width { W ≤ 17 }
        requires class { class < length self.old.classes }
        requires after { after < length self.old.triples }
        ensures grows { Grows self.old self.new }
        ensures step { IfOk result (λ before.
            IsStepAt self.new.predecessors self.new.classes self.new.triples class after before) }
    {
        match known_step(self.steps.as_slice(), class, after) {
            Some(number) => Ok(number),
            None => self.new_step(class, after),
        }
    }

    /// The steps that are kept.
    #[inline]
    pub(crate) fn steps(&self) -> &[u32]
        ensures { AreSteps self.now.predecessors self.now.classes self.now.triples result.now }
    {
        self.steps.as_slice()
    }

    /// The step, found out and kept.
    fn new_step(&mut self, class: u32, after: u32) -> Result<u32, NoMemory>
        requires width { W ≤ 17 }
        requires class { class < length self.old.classes }
        requires after { after < length self.old.triples }
        ensures grows { Grows self.old self.new }
        ensures step { IfOk result (λ before.
            IsStepAt self.new.predecessors self.new.classes self.new.triples class after before) }
    {
        let before = before(
            self.predecessors.as_slice(),
            &self.classes.as_slice()[class as usize],
            &self.triples.as_slice()[after as usize],
        );
        let number = triple_in(&mut self.triples, &before)?;
        keep_step(&mut self.steps, class, after, number)?;
        Ok(number)
    }

    /// Whether the edges into state k match an item of the class and write nothing.
    pub(crate) fn is_silent(&self, class: u32, k: u32) -> bool
        requires width { W ≤ 17 }
        requires class { class < length self.now.classes }
        requires state { k < length self.now.predecessors }
        ensures { (c : ClassSets) → slice_get self.now.classes class ≡ Some c
            → (IsTrue result ↔ Has c.silent k) }
    {
        self.classes.as_slice()[class as usize].silent.has(k)
    }

    /// The states that an item of the class leads into, and those that complete, that write something more
    /// and that end behind it at a place of the triple, as words.
    pub(crate) fn words(&self, class: u32, after: u32) -> Words<'_>
        requires width { W ≤ 17 }
        requires class { class < length self.now.classes }
        requires after { after < length self.now.triples }
        ensures class { (c : ClassSets) → slice_get self.now.classes class ≡ Some c
            → AreClassWords (length self.now.predecessors) c result }
        ensures after { (t : TripleSets) → slice_get self.now.triples after ≡ Some t
            → AreTripleWords (length self.now.predecessors) t result }
    {
        let class = &self.classes.as_slice()[class as usize];
        let after = &self.triples.as_slice()[after as usize];
        Words {
            silent: class.silent.words(),
            writing: class.writes.words(),
            seen: after.seen.words(),
            more: after.more.words(),
            unseen: after.unseen.words(),
            ending: after.ends.words(),
        }
    }

    /// Whether state q ends at a place of the triple.
    pub(crate) fn ends(&self, triple: u32, q: u32) -> bool
        requires width { W ≤ 17 }
        requires triple { triple < length self.now.triples }
        requires state { q < length self.now.predecessors }
        ensures { (t : TripleSets) → slice_get self.now.triples triple ≡ Some t
            → (IsTrue result ↔ Has t.ends q) }
    {
        self.triples.as_slice()[triple as usize].ends.has(q)
    }

    /// Whether state q completes at a place of the triple.
    pub(crate) fn completes(&self, triple: u32, q: u32, seen: bool) -> bool
        requires width { W ≤ 17 }
        requires triple { triple < length self.now.triples }
        requires state { q < length self.now.predecessors }
        ensures { (t : TripleSets) → slice_get self.now.triples triple ≡ Some t
            → (IsTrue result ↔ Has (completing t seen) q) }
    {
        let triple = &self.triples.as_slice()[triple as usize];
        if seen {
            triple.seen.has(q)
        } else {
            triple.unseen.has(q)
        }
    }

    /// The states that complete at a place of the triple, as words.
    pub(crate) fn completing(&self, triple: u32, seen: bool) -> &[u64]
        requires width { W ≤ 17 }
        requires triple { triple < length self.now.triples }
        ensures room { length self.now.predecessors ≤ 64 * length result.now }
        ensures states { (t : TripleSets) → slice_get self.now.triples triple ≡ Some t
            → (q : ℕ) → q < length self.now.predecessors → (HasBit result.now q ↔ Has (completing t seen) q) }
    {
        let triple = &self.triples.as_slice()[triple as usize];
        if seen {
            triple.seen.words()
        } else {
            triple.unseen.words()
        }
    }
}

// The set of these, which are different, in their order.
fn set_in_order<T: Copy + Eq + Hash>(alloc: Global, list: &[T]) -> Result<IndexSet<T>, NoMemory>
    ensures { IfOk result (λ set. set.keys ≡ list.now) }
{
    let mut set = IndexSet::new(alloc);
    for one in list {
        let (_index, new) = set.insert_full(*one)?;
        if !new {
            return Err(NoMemory);
        }
    }
    Ok(set)
}

// The number of a class, which is added if it is new.
fn class_in<const W: usize>(
    classes: &mut IndexSet<Class<W>>,
    class: &Class<W>,
) -> Result<u32, NoMemory>
    requires width { W ≤ 17 }
    ensures grows { AddsTo (map class_sets classes.old.keys) (class_sets class.now)
        (map class_sets classes.new.keys) }
    ensures there { IfOk result (λ number.
        slice_get (map class_sets classes.new.keys) number ≡ Some (class_sets class.now)) }
{
    let (index, _new) = classes.insert_full(*class)?;
    to_number(index)
}

// The number of a triple, which is added if it is new.
fn triple_in<const W: usize>(
    triples: &mut IndexSet<Triple<W>>,
    triple: &Triple<W>,
) -> Result<u32, NoMemory>
    requires width { W ≤ 17 }
    ensures grows { AddsTo (map triple_sets triples.old.keys) (triple_sets triple.now)
        (map triple_sets triples.new.keys) }
    ensures there { IfOk result (λ number.
        slice_get (map triple_sets triples.new.keys) number ≡ Some (triple_sets triple.now)) }
{
    let (index, _new) = triples.insert_full(*triple)?;
    to_number(index)
}

/// The step, if it is known.
#[inline]
pub fn known_step(steps: &[u32], class: u32, after: u32) -> Option<u32>
    ensures { IfSome result (λ number. (class < 256) × (256 * after + class < length steps.now)
        × (slice_index steps.now (256 * after + class) ≡ number) × (number ≢ 4294967295)) }
{
    if class as usize >= ROW {
        return None;
    }
    match steps.get(after as usize * ROW + class as usize) {
        Some(number) if *number != NONE => Some(*number),
        _ => None,
    }
}

/// Keeps a step, if its class is one of the first.
pub fn keep_step(steps: &mut Vec<u32>, class: u32, after: u32, number: u32) -> Result<(), NoMemory>
    ensures { (i : ℕ) → i < length steps.new.items → slice_index steps.new.items i ≢ 4294967295
        → (((i ≡ 256 * after + class) × (class < 256) × (slice_index steps.new.items i ≡ number))
        ⊎ ((i < length steps.old.items) × (slice_index steps.new.items i ≡ slice_index steps.old.items i))) }
{
    if class as usize >= ROW {
        return Ok(());
    }
    let place = after as usize * ROW + class as usize;
    if steps.len() <= place {
        steps.resize(place + 1, NONE)?;
    }
    steps[place] = number;
    Ok(())
}

// The set of these states.
fn set_of<const W: usize>(states: &[u32]) -> StateSet<W>
    requires width { W ≤ 17 }
    requires within { All (λ k. k < 64 * W) states.now }
    ensures { IsSetOf result states.now }
{
    let mut set = StateSet::new();
    for k in states {
        set.add(*k);
    }
    set
}

// For each state those from which an edge leads to it.
fn predecessors_of<const W: usize>(alloc: Global, fst: &Fst) -> Result<Vec<StateSet<W>>, NoMemory>
    requires width { W ≤ 17 }
    requires room { length fst.now.labels < 64 * W }
    ensures long { IfOk result (λ found. length found.items ≡ length fst.now.labels + 1) }
    ensures edges { IfOk result (λ found. (q k : ℕ) → q ≤ length fst.now.labels
        → (Precedes found.items q k ↔ Leads fst.now q k)) }
{
    let mut predecessors = no_predecessors(alloc, fst.states())?;
    for q in 0..fst.states() {
        add_source(predecessors.as_mut_slice(), fst.edges(State(q)), q);
    }
    Ok(predecessors)
}

// Empty sets.
fn no_predecessors<const W: usize>(alloc: Global, count: u32) -> Result<Vec<StateSet<W>>, NoMemory>
    requires width { W ≤ 17 }
    ensures long { IfOk result (λ sets. length sets.items ≡ count) }
    ensures none { IfOk result (λ sets. (q k : ℕ) → Precedes sets.items q k → ⊥) }
{
    let mut sets = Vec::new(alloc);
    for _state in 0..count {
        sets.push(StateSet::new())?;
    }
    Ok(sets)
}

// Adds q to those from which an edge leads to the targets of these edges.
fn add_source<const W: usize>(predecessors: &mut [StateSet<W>], edges: &[Edge], q: u32)
    requires width { W ≤ 17 }
    requires room { q < 64 * W }
    requires within { All (λ edge. edge.to.0 < length predecessors.old) edges.now }
    ensures { Adds predecessors.old predecessors.new (λ k r. (r ≡ q) × LeadTo edges.now k) }
{
    for edge in edges {
        predecessors[edge.to.0 as usize].add(q);
    }
}

// The final states.
fn finals_of<const W: usize>(fst: &Fst) -> StateSet<W>
    requires width { W ≤ 17 }
    requires room { length fst.now.labels < 64 * W }
    ensures { (q : ℕ) → Has result q ↔ Has fst.now.finals q }
{
    let mut finals = StateSet::new();
    for q in 0..fst.states() {
        if fst.is_final(State(q)) {
            finals.add(q);
        }
    }
    finals
}

// The members of both.
fn both<const W: usize>(one: &StateSet<W>, other: &StateSet<W>) -> StateSet<W>
    requires width { W ≤ 17 }
    ensures { (q : ℕ) → Has result q ↔ (Has one.now q × Has other.now q) }
{
    let mut set = *one;
    set.intersect_with(other);
    set
}

// The triple before an item of the class and the triple after it.
fn before<const W: usize>(
    predecessors: &[StateSet<W>],
    class: &Class<W>,
    after: &Triple<W>,
) -> Triple<W>
    requires width { W ≤ 17 }
    requires silent { (k : ℕ) → Has class.now.silent k → k < length predecessors.now }
    requires writes { (k : ℕ) → Has class.now.writes k → k < length predecessors.now }
    requires needs { (k : ℕ) → Has class.now.needs k → k < length predecessors.now }
    ensures { IsStep predecessors.now (class_sets class.now) (triple_sets after.now) (triple_sets result) }
{
    let mut into = class.silent;
    into.union_with(&class.writes);
    let mut more = both(&class.silent, &after.more);
    more.union_with(&both(&class.writes, &after.seen));
    let mut unseen = both(&into, &after.unseen);
    unseen.union_with(&both(&class.needs, &after.seen));
    Triple {
        seen: neighbours(predecessors, &both(&into, &after.seen)),
        more: neighbours(predecessors, &more),
        unseen: neighbours(predecessors, &unseen),
        ends: neighbours(predecessors, &both(&class.silent, &after.ends)),
    }
}
