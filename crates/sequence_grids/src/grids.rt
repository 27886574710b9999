ghost use Rattle.std.specs.Prelude.{◌≡◌, ◌≢◌, AllPairs, ℕ, ◌+◌, ◌-◌, ◌*◌, ◌≤◌, ◌<◌, ◌↔◌, length, [], ◌∷◌, ◌++◌, IfOk, IfSome, OnOk, OnErr, IsTrue, Contains, Some, slice_get, slice_index};
ghost use Rattle.mine_model.specs.declared.item.Item.{Item};
ghost use Rattle.state_bits.specs.Members.{HasBit};
ghost use Rattle.sequence_grids.specs.Grids.{Completes, Ends, Reads, WritesRank, items_at, rest_at};
ghost use Rattle.sequence_grids.specs.Readings.{IsReading};

use super::grid_parts::GridParts;
use super::kept_grids::KeptGrids;
use super::kinds::{Kinds, Scratch, ends_from, outputs_of};
use super::places::{Place, push_places};
use super::reading::Reading;
use super::tables::Tables;
use fst_compile::State;
use mine_model::NoMemory;
use mining_job::{Bound, Job};
use std::alloc::Global;
use std::marker::Model;

/// Grids of sequences of a job under one bound: which states can still lead to the end of a sequence at each
/// place of it, and what may be written there. What was found out for one sequence serves the next ones.
pub struct Grids<'a> {
    job: &'a Job,
    bound: Bound,
    tables: Tables,
    kinds: Kinds,
    scratch: Scratch,
    // The places of all grids, those of one from the last to the first.
    places: Vec<Place>,
    // The number of places up to the end of each grid, and the number of its sequence.
    ends: Vec<usize>,
    sequences: Vec<u32>,
}

// Written out, so that it is let go of by a call, and not part by part wherever one is.
impl<'a> Drop for Grids<'a> {
    fn drop(self) {
        let Grids {
            job: _,
            bound: _,
            tables: _,
            kinds: _,
            scratch: _,
            places: _,
            ends: _,
            sequences: _,
        } = self;
    }
}

impl<'a> Model for Grids<'a> {
    ghost use Rattle.sequence_grids.specs.Grids.{GridList};

    ghost Value = { GridList };

    ghost use Rattle.mine_model.specs.contracts.expression.Expr as e;
    ghost use Rattle.std.specs.Coded.{codes};

    ghost coded = { Prim.hlevel (codes, e.the_row.coded) };

    ghost view = { λ g. record { problem = g.job.now; bound = g.bound; sequences = g.sequences.items } };

    ghost use Rattle.sequence_grids.specs.Places.{AreGrids};

    ghost invariant = { λ g. AreGrids g.job.now g.bound g.tables g.kinds g.places.items g.ends.items
        g.sequences.items };
}

impl<'a> Grids<'a> {
    /// No grids yet.
    pub fn new(alloc: Global, job: &'a Job, bound: Bound) -> Result<Grids<'a>, NoMemory>
        ensures { IfOk result (λ grids. grids ≡ record { problem = job.now; bound = bound; sequences = [] }) }
    {
        Ok(Grids {
            job,
            bound,
            tables: Tables::new(alloc, job.fst())?,
            kinds: Kinds::new(alloc, job.fst(), job.hierarchy().items())?,
            scratch: Scratch::new(alloc),
            places: Vec::new(alloc),
            ends: Vec::new(alloc),
            sequences: Vec::new(alloc),
        })
    }

    /// Makes the grid of a sequence, behind the others.
    pub fn push(&mut self, seq: u32) -> Result<(), NoMemory>
        requires { seq < length self.old.problem.sequences }
        ensures ok { OnOk result (self.new ≡ record self.old { sequences = self.old.sequences ++ seq ∷ [] }) }
        ensures err { OnErr result (self.new ≡ self.old) }
    {
        self.sequences.reserve(1)?;
        self.ends.reserve(1)?;
        let items = self.job.db().sequence(seq);
        push_places(
            self.job,
            self.bound,
            &mut self.tables,
            &mut self.kinds,
            &mut self.scratch,
            &mut self.places,
            items,
        )?;
        self.ends.push_reserved(self.places.len());
        self.sequences.push_reserved(seq);
        Ok(())
    }

    /// Drops all grids, and keeps what serves the next ones. Takes no memory.
    pub fn clear(&mut self)
        ensures { self.new ≡ record self.old { sequences = [] } }
    {
        self.places.clear();
        self.ends.clear();
        self.sequences.clear();
    }

    /// The same, where no grid more is to be made. Takes no memory.
    pub fn keep(self) -> KeptGrids<'a>
        ensures { result ≡ self.entry }
    {
        let Grids {
            job,
            bound,
            tables,
            kinds,
            scratch: _,
            places,
            ends,
            sequences,
        } = self;
        KeptGrids::of(GridParts {
            job,
            bound,
            tables,
            kinds,
            places,
            ends,
            sequences,
        })
    }

    /// The numbers of the sequences, in the order of their grids. Takes no memory.
    pub fn sequences(&self) -> &[u32]
        ensures { result.now ≡ self.now.sequences }
    {
        self.sequences.as_slice()
    }

    /// Whether state q completes at a position of a grid, where what is needed was seen or was not. Takes no
    /// memory.
    pub fn completes(&self, grid: u32, pos: u32, q: State, seen: bool) -> bool
        requires grid { grid < length self.now.sequences }
        requires pos { pos ≤ length (items_at self.now grid) }
        requires state { q.0 ≤ length self.now.problem.transducer.labels }
        ensures { IsTrue result
            ↔ Completes self.now.problem self.now.bound (rest_at self.now grid pos) q.0 seen }
    {
        let place = place_of(self.places.as_slice(), self.ends.as_slice(), grid, pos);
        self.tables.completes(place.triple, q.0, seen)
    }

    /// Whether state q ends at a position of a grid. Takes no memory.
    pub fn ends(&self, grid: u32, pos: u32, q: State) -> bool
        requires grid { grid < length self.now.sequences }
        requires pos { pos ≤ length (items_at self.now grid) }
        requires state { q.0 ≤ length self.now.problem.transducer.labels }
        ensures { IsTrue result ↔ Ends self.now.problem (rest_at self.now grid pos) q.0 }
    {
        let place = place_of(self.places.as_slice(), self.ends.as_slice(), grid, pos);
        self.tables.ends(place.triple, q.0)
    }

    /// The states that complete at a position of a grid, as words of 64 of them. Takes no memory.
    pub fn completing(&self, grid: u32, pos: u32, seen: bool) -> &[u64]
        requires grid { grid < length self.now.sequences }
        requires pos { pos ≤ length (items_at self.now grid) }
        ensures room { length self.now.problem.transducer.labels < 64 * length result.now }
        ensures states { (state : ℕ) → state ≤ length self.now.problem.transducer.labels
            → (HasBit result.now state
            ↔ Completes self.now.problem self.now.bound (rest_at self.now grid pos) state seen) }
    {
        let place = place_of(self.places.as_slice(), self.ends.as_slice(), grid, pos);
        self.tables.completing(place.triple, seen)
    }

    /// Whether the edges into state k match the item at a position of a grid and write nothing. Takes no
    /// memory.
    pub fn is_silent(&self, grid: u32, pos: u32, k: State) -> bool
        requires grid { grid < length self.now.sequences }
        requires pos { pos < length (items_at self.now grid) }
        requires start { 0 < k.0 }
        requires state { k.0 ≤ length self.now.problem.transducer.labels }
        ensures { (t : Item) → slice_get (items_at self.now grid) pos ≡ Some t
            → (IsTrue result ↔ Reads self.now.problem t k.0 []) }
    {
        let place = place_of(self.places.as_slice(), self.ends.as_slice(), grid, pos);
        let class = self.kinds.kinds[place.kind as usize].class;
        self.tables.is_silent(class, k.0)
    }

    /// What the edges into state k may write at a position of a grid, as ranks. Takes no memory.
    pub fn outputs(&self, grid: u32, pos: u32, k: State) -> &[u32]
        requires grid { grid < length self.now.sequences }
        requires pos { pos < length (items_at self.now grid) }
        requires start { 0 < k.0 }
        requires state { k.0 ≤ length self.now.problem.transducer.labels }
        ensures ranks { (t : Item) (rank : ℕ) → slice_get (items_at self.now grid) pos ≡ Some t
            → (Contains result.now rank ↔ WritesRank self.now.problem self.now.bound t k.0 rank) }
        ensures once { AllPairs (λ one other. one ≢ other) result.now }
    {
        let place = place_of(self.places.as_slice(), self.ends.as_slice(), grid, pos);
        outputs_of(&self.kinds, place.kind, k.0)
    }

    /// What reading the item at a position of a grid may do. Takes no memory.
    pub fn reading(&self, grid: u32, pos: u32) -> Reading<'_>
        requires grid { grid < length self.now.sequences }
        requires pos { pos < length (items_at self.now grid) }
        ensures { (t : Item) → slice_get (items_at self.now grid) pos ≡ Some t
            → IsReading self.now.problem self.now.bound t (rest_at self.now grid (pos + 1)) result }
    {
        let place = place_of(self.places.as_slice(), self.ends.as_slice(), grid, pos);
        let behind = place_behind(self.places.as_slice(), self.ends.as_slice(), grid, pos);
        let kind = self.kinds.kinds[place.kind as usize];
        let words = self.tables.words(kind.class, behind.triple);
        Reading {
            silent: words.silent,
            writing: words.writing,
            seen: words.seen,
            unseen: words.unseen,
            ending: words.ending,
            columns: self.kinds.columns.numbers.as_slice(),
            ends: ends_from(self.kinds.ends.as_slice(), kind.base),
            ranks: self.kinds.ranks.as_slice(),
        }
    }
}

/// The place at a position of a grid.
pub(crate) fn place_of(places: &[Place], ends: &[usize], grid: u32, pos: u32) -> Place
    requires grid { grid < length ends.now }
    requires before { pos < slice_index ends.now grid }
    requires within { slice_index ends.now grid - 1 - pos < length places.now }
    ensures { slice_get places.now (slice_index ends.now grid - 1 - pos) ≡ Some result }
{
    places[ends[grid as usize] - 1 - pos as usize]
}

// The place behind the item at a position of a grid.
fn place_behind(places: &[Place], ends: &[usize], grid: u32, pos: u32) -> Place
    requires grid { grid < length ends.now }
    requires before { pos + 1 < slice_index ends.now grid }
    requires within { slice_index ends.now grid - 1 - (pos + 1) < length places.now }
    ensures { slice_get places.now (slice_index ends.now grid - 1 - (pos + 1)) ≡ Some result }
{
    places[ends[grid as usize] - 2 - pos as usize]
}
