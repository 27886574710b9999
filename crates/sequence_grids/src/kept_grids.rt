ghost use Rattle.std.specs.Prelude.{◌≡◌, ◌≤◌, ◌<◌, ◌↔◌, length, IfOk, IsTrue};
ghost use Rattle.std.specs.List.{AllByRecursion};
ghost use Rattle.sequence_grids.specs.Grids.{Completes, items_at, rest_at};
ghost use Rattle.sequence_grids.specs.Places.{AreKept};
ghost use Rattle.sequence_grids.specs.Wholes.{IsWholeAlphabet};

use super::alphabet::Alphabet;
use super::cuts::push_all;
use super::grid_parts::GridParts;
use super::grids::place_of;
use super::kinds::{Kinds, Scratch};
use super::number::NONE;
use super::tables::Tables;
use fst_compile::State;
use mine_model::NoMemory;
use mining_job::{Bound, Job};
use std::alloc::Global;
use std::marker::Model;

/// Grids of sequences of a job under one bound, to which none is added.
#[derive(Drop)]
pub struct KeptGrids<'a> {
    parts: GridParts<'a>,
}

impl<'a> Model for KeptGrids<'a> {
    ghost use Rattle.sequence_grids.specs.Grids.{GridList};

    ghost Value = { GridList };

    ghost use Rattle.mine_model.specs.contracts.expression.Expr as e;
    ghost use Rattle.std.specs.Coded.{codes};

    ghost coded = { Prim.hlevel (codes, e.the_row.coded) };

    ghost view = { λ g. record {
      problem = g.parts.job.now;
      bound = g.parts.bound;
      sequences = g.parts.sequences.items;
    } };

    ghost use Rattle.sequence_grids.specs.Places.{AreKept};

    ghost invariant = { λ g. AreKept g.parts.job.now g.parts.bound g.parts.tables g.parts.kinds
        g.parts.places.items g.parts.ends.items g.parts.sequences.items };
}

impl<'a> KeptGrids<'a> {
    /// Grids that are made of these. Takes no memory.
    pub(crate) fn of(parts: GridParts<'a>) -> KeptGrids<'a>
        requires { AreKept parts.job.now parts.bound parts.tables parts.kinds parts.places.items
            parts.ends.items parts.sequences.items }
        ensures { result ≡ record {
          problem = parts.entry.job.now;
          bound = parts.entry.bound;
          sequences = parts.entry.sequences.items;
        } }
    {
        KeptGrids { parts }
    }

    /// The grids of these sequences, where what an item may do is cut from what it may do under the bound of
    /// all ranks. Nothing of the size of all items is made.
    pub fn cut(
        alloc: Global,
        job: &'a Job,
        bound: Bound,
        alphabet: &Alphabet,
        sequences: Vec<u32>,
    ) -> Result<KeptGrids<'a>, NoMemory>
        requires within { AllByRecursion (λ i. i < length job.now.sequences) sequences.items }
        requires alphabet { IsWholeAlphabet job.now alphabet.now }
        ensures { IfOk result (λ grids. grids ≡ record {
          problem = job.now;
          bound = bound;
          sequences = sequences.items;
        }) }
    {
        let mut tables = Tables::new(alloc, job.fst())?;
        let mut kinds = Kinds::new(alloc, job.fst(), 0)?;
        let mut cuts = vec![in alloc; NONE; alphabet.kinds.kinds.len()]?;
        let mut scratch = Scratch::new(alloc);
        let mut places = Vec::new(alloc);
        let mut ends = Vec::with_capacity(alloc, sequences.len())?;
        push_all(
            job,
            bound,
            &mut tables,
            &mut kinds,
            cuts.as_mut_slice(),
            &mut scratch,
            alphabet,
            &mut places,
            &mut ends,
            sequences.as_slice(),
        )?;
        let parts = GridParts {
            job,
            bound,
            tables,
            kinds,
            places,
            ends,
            sequences,
        };
        Ok(KeptGrids { parts })
    }

    /// What the grids are made of. Takes no memory.
    pub fn into_parts(self) -> GridParts<'a>
        ensures job { result.job.now ≡ self.entry.problem }
        ensures bound { result.bound ≡ self.entry.bound }
        ensures sequences { result.sequences.items ≡ self.entry.sequences }
        ensures grids { AreKept self.entry.problem self.entry.bound result.tables result.kinds
            result.places.items result.ends.items self.entry.sequences }
    {
        self.parts
    }

    /// The numbers of the sequences, in the order of their grids. Takes no memory.
    pub fn sequences(&self) -> &[u32]
        ensures { result.now ≡ self.now.sequences }
    {
        self.parts.sequences.as_slice()
    }

    /// Whether state q completes at a position of a grid, where what is needed was seen or was not. Takes no
    /// memory.
    pub fn completes(&self, grid: u32, pos: u32, q: State, seen: bool) -> bool
        requires grid { grid < length self.now.sequences }
        requires pos { pos ≤ length (items_at self.now grid) }
        requires state { q.0 ≤ length self.now.problem.transducer.labels }
        ensures { IsTrue result
            ↔ Completes self.now.problem self.now.bound (rest_at self.now grid pos) q.0 seen }
    {
        let place = place_of(
            self.parts.places.as_slice(),
            self.parts.ends.as_slice(),
            grid,
            pos,
        );
        self.parts.tables.completes(place.triple, q.0, seen)
    }
}
