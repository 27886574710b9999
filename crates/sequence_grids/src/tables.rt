//! A table whose sets have as many words as the states need.

ghost use Rattle.std.specs.Prelude.{◌≡◌, ℕ, ◌+◌, ◌*◌, ◌≤◌, ◌<◌, ◌↔◌, [], ◌∷◌, length, slice_get, Some, All, IfOk, IsTrue};
ghost use Rattle.state_bits.specs.Members.{Has, HasBit};
ghost use Rattle.fst_compile.specs.Transducer.{Leads};
ghost use Rattle.sequence_grids.specs.Tables.{ClassSets, TripleSets, Precedes, Grows, IsStepAt, IsLast, IsClassOf, AreSteps, completing};
ghost use Rattle.sequence_grids.specs.Words.{AreClassWords, AreTripleWords};

use super::table::{Table, Words};
use fst_compile::Fst;
use mine_model::NoMemory;
use std::alloc::Global;
use std::marker::Model;

/// The table of the least width that has room for all states.
enum Width {
    One(Table<1>),
    Four(Table<4>),
    Wide(Table<17>),
}

// Written out, so that it is let go of by a call, and not part by part wherever one is.
impl Drop for Width {
    fn drop(self) {
        match self {
            Width::One(_table) => {}
            Width::Four(_table) => {}
            Width::Wide(_table) => {}
        }
    }
}

// The call on the table of whatever width.
macro_rules! on_table {
    ($width:expr, $table:ident => $call:expr) => {
        match $width {
            Width::One($table) => $call,
            Width::Four($table) => $call,
            Width::Wide($table) => $call,
        }
    };
}

/// The classes and the triples met so far, in sets of one of three widths.
#[derive(Drop)]
pub struct Tables {
    width: Width,
}

impl Model for Tables {
    ghost use Rattle.sequence_grids.specs.Tables.{TableValue};

    ghost Value = { TableValue };

    ghost use Rattle.sequence_grids.specs.Widths.{table_of};

    ghost view = { λ t. table_of t.width };
}

impl Tables {
    /// The table that has the triple of the end alone, with the number 0.
    pub fn new(alloc: Global, fst: &Fst) -> Result<Tables, NoMemory>
        ensures long { IfOk result (λ table. length table.predecessors ≡ length fst.now.labels + 1) }
        ensures edges { IfOk result (λ table. (q k : ℕ) → q ≤ length fst.now.labels
            → (Precedes table.predecessors q k ↔ Leads fst.now q k)) }
        ensures classes { IfOk result (λ table. table.classes ≡ []) }
        ensures last { IfOk result (λ table. (triple : TripleSets)
            × (table.triples ≡ triple ∷ []) × IsLast fst.now.finals triple) }
    {
        let states = fst.states();
        let width = if states <= 64 {
            Width::One(Table::new(alloc, fst)?)
        } else if states <= 256 {
            Width::Four(Table::new(alloc, fst)?)
        } else {
            Width::Wide(Table::new(alloc, fst)?)
        };
        Ok(Tables { width })
    }

    /// Tables with the same classes and triples.
    pub fn copy(&self, alloc: Global) -> Result<Tables, NoMemory>
        ensures { IfOk result (λ copy. copy ≡ self.now) }
    {
        let width = match &self.width {
            Width::One(table) => Width::One(table.copy(alloc)?),
            Width::Four(table) => Width::Four(table.copy(alloc)?),
            Width::Wide(table) => Width::Wide(table.copy(alloc)?),
        };
        Ok(Tables { width })
    }

    /// The number of the class with these states.
    pub(crate) fn class_number(
        &mut self,
        silent: &[u32],
        writes: &[u32],
        needs: &[u32],
    ) -> Result<u32, NoMemory>
        requires silent { All (λ k. k < length self.old.predecessors) silent.now }
        requires writes { All (λ k. k < length self.old.predecessors) writes.now }
        requires needs { All (λ k. k < length self.old.predecessors) needs.now }
        ensures grows { Grows self.old self.new }
        ensures class { IfOk result (λ number. (class : ClassSets)
            × (slice_get self.new.classes number ≡ Some class)
            × IsClassOf class silent.now writes.now needs.now) }
    {
        on_table!(&mut self.width, table => table.class_number(silent, writes, needs))
    }

    /// The number of the triple before an item of this class and this triple.
    pub(crate) fn step(&mut self, class: u32, after: u32) -> Result<u32, NoMemory>
        requires class { class < length self.old.classes }
        requires after { after < length self.old.triples }
        ensures grows { Grows self.old self.new }
        ensures step { IfOk result (λ before.
            IsStepAt self.new.predecessors self.new.classes self.new.triples class after before) }
    {
        on_table!(&mut self.width, table => table.step(class, after))
    }

    /// The steps that are kept.
    #[inline]
    pub(crate) fn steps(&self) -> &[u32]
        ensures { AreSteps self.now.predecessors self.now.classes self.now.triples result.now }
    {
        on_table!(&self.width, table => table.steps())
    }

    /// Whether the edges into state k match an item of the class and write nothing.
    pub(crate) fn is_silent(&self, class: u32, k: u32) -> bool
        requires class { class < length self.now.classes }
        requires state { k < length self.now.predecessors }
        ensures { (c : ClassSets) → slice_get self.now.classes class ≡ Some c
            → (IsTrue result ↔ Has c.silent k) }
    {
        on_table!(&self.width, table => table.is_silent(class, k))
    }

    /// The states that an item of the class leads into, and those that complete, that write something more
    /// and that end behind it at a place of the triple, as words.
    pub fn words(&self, class: u32, after: u32) -> Words<'_>
        requires class { class < length self.now.classes }
        requires after { after < length self.now.triples }
        ensures class { (c : ClassSets) → slice_get self.now.classes class ≡ Some c
            → AreClassWords (length self.now.predecessors) c result }
        ensures after { (t : TripleSets) → slice_get self.now.triples after ≡ Some t
            → AreTripleWords (length self.now.predecessors) t result }
    {
        on_table!(&self.width, table => table.words(class, after))
    }

    /// Whether state q ends at a place of the triple.
    pub(crate) fn ends(&self, triple: u32, q: u32) -> bool
        requires triple { triple < length self.now.triples }
        requires state { q < length self.now.predecessors }
        ensures { (t : TripleSets) → slice_get self.now.triples triple ≡ Some t
            → (IsTrue result ↔ Has t.ends q) }
    {
        on_table!(&self.width, table => table.ends(triple, q))
    }

    /// Whether state q completes at a place of the triple.
    pub fn completes(&self, triple: u32, q: u32, seen: bool) -> bool
        requires triple { triple < length self.now.triples }
        requires state { q < length self.now.predecessors }
        ensures { (t : TripleSets) → slice_get self.now.triples triple ≡ Some t
            → (IsTrue result ↔ Has (completing t seen) q) }
    {
        on_table!(&self.width, table => table.completes(triple, q, seen))
    }

    /// The states that complete at a place of the triple, as words.
    pub(crate) fn completing(&self, triple: u32, seen: bool) -> &[u64]
        requires triple { triple < length self.now.triples }
        ensures room { length self.now.predecessors ≤ 64 * length result.now }
        ensures states { (t : TripleSets) → slice_get self.now.triples triple ≡ Some t
            → (q : ℕ) → q < length self.now.predecessors → (HasBit result.now q ↔ Has (completing t seen) q) }
    {
        on_table!(&self.width, table => table.completing(triple, seen))
    }
}
