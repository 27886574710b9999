ghost use Rattle.std.specs.Prelude.{◌≡◌, ◌≤◌, ◌<◌, ◌↔◌, length, [], ◌∷◌, IfOk, IsTrue};
ghost use Rattle.sequence_grids.specs.Grids.{Completes, Ends, items_at, rest_at};

use super::grids::Grids;
use fst_compile::State;
use mine_model::NoMemory;
use mining_job::{Bound, Job};
use std::alloc::Global;
use std::marker::Model;

/// The grid of one sequence.
#[derive(Drop)]
pub struct Grid<'a> {
    grids: Grids<'a>,
}

impl<'a> Model for Grid<'a> {
    ghost use Rattle.std.specs.Prelude.{◌≡◌, ◌<◌, length, slice_index};
    ghost use Rattle.sequence_grids.specs.Grids.{GridList};

    ghost Value = { GridList };

    ghost use Rattle.mine_model.specs.contracts.expression.Expr as e;
    ghost use Rattle.std.specs.Coded.{codes};

    ghost coded = { Prim.hlevel (codes, e.the_row.coded) };

    ghost view = { λ g. g.grids };

    ghost invariant = { λ g. length g.grids.sequences ≡ 1 };
}

impl<'a> Grid<'a> {
    /// The grid of a sequence under a bound.
    pub fn new(alloc: Global, job: &'a Job, seq: u32, bound: Bound) -> Result<Grid<'a>, NoMemory>
        requires { seq < length job.now.sequences }
        ensures { IfOk result (λ grid. grid
            ≡ record { problem = job.now; bound = bound; sequences = seq ∷ [] }) }
    {
        let mut grids = Grids::new(alloc, job, bound)?;
        grids.push(seq)?;
        Ok(Grid { grids })
    }

    /// Whether state q completes at a position, where what is needed was seen or was not. Takes no memory.
    pub fn completes(&self, pos: u32, q: State, seen: bool) -> bool
        requires pos { pos ≤ length (items_at self.now 0) }
        requires state { q.0 ≤ length self.now.problem.transducer.labels }
        ensures { IsTrue result
            ↔ Completes self.now.problem self.now.bound (rest_at self.now 0 pos) q.0 seen }
    {
        self.grids.completes(0, pos, q, seen)
    }

    /// Whether state q ends at a position. Takes no memory.
    pub fn ends(&self, pos: u32, q: State) -> bool
        requires pos { pos ≤ length (items_at self.now 0) }
        requires state { q.0 ≤ length self.now.problem.transducer.labels }
        ensures { IsTrue result ↔ Ends self.now.problem (rest_at self.now 0 pos) q.0 }
    {
        self.grids.ends(0, pos, q)
    }
}
