ghost use Rattle.std.specs.Prelude.{◌≡◌, ◌≢◌, ℕ, ◌<◌, ◌↔◌, length, AllPairs, Contains, IfOk, OnOk};
ghost use Rattle.mining_job.specs.Problems.{items_of};
ghost use Rattle.pivot_partition.specs.Pivots.{IsPivotOf, ArePivots};

use super::finding::find_in;
use super::marks::{no_marks, unmark};
use super::reading::NONE;
use fst_compile::State;
use mine_model::NoMemory;
use mining_job::{Bound, Job};
use sequence_grids::Grids;
use std::alloc::Global;
use std::marker::Model;

/// The pivots of a sequence: the greatest ranks of its patterns of frequent items, rising.
pub fn pivots_of(alloc: Global, job: &Job, sequence: u32) -> Result<Vec<u32>, NoMemory>
    requires { sequence < length job.now.sequences }
    ensures { IfOk result (λ found. ArePivots job.now (items_of job.now sequence) found.items) }
{
    let mut found = Vec::new(alloc);
    fill_alone(alloc, job, sequence, &mut found)?;
    found.sort_unstable();
    found.dedup();
    Ok(found)
}

// Lists the pivots of a sequence, each once and in any order, in room of its own.
fn fill_alone(alloc: Global, job: &Job, sequence: u32, found: &mut Vec<u32>) -> Result<(), NoMemory>
    requires { sequence < length job.now.sequences }
    ensures once { OnOk result (AllPairs (λ one other. one ≢ other) found.new.items) }
    ensures exact { OnOk result ((rank : ℕ) → Contains found.new.items rank
        ↔ IsPivotOf job.now (items_of job.now sequence) rank) }
{
    let mut pivots = Pivots::new(alloc, job)?;
    let filled = pivots.fill(sequence, found);
    pivots.let_go();
    filled
}

/// Finds the pivots of one sequence of a job after another, each time in the same room.
///
/// A rank is a pivot where an edge may write it at some position, and paths to that edge and from it to the
/// end need no greater rank. So no list of ranks is made: from the end of the sequence up to which rank a
/// path from each state has to write, and then, from its front, the same of the paths to each state, and what
/// may be written between.
pub struct Pivots<'a> {
    job: &'a Job,
    grids: Grids<'a>,
    // Of each position, from the last on, and each state: up to which rank a path from there has to write.
    table: Vec<u32>,
    // Of each state: up to which rank a path to it has to write.
    front: Vec<u32>,
    entered: Vec<u32>,
    // Of each rank whether it was found, while a sequence is gone over.
    marks: Vec<bool>,
}

// Written out, so that it is let go of by a call, and not part by part wherever one is.
impl<'a> Drop for Pivots<'a> {
    fn drop(self) {
        let Pivots {
            job: _,
            grids: _,
            table: _,
            front: _,
            entered: _,
            marks: _,
        } = self;
    }
}

impl<'a> Model for Pivots<'a> {
    ghost use Rattle.mining_job.specs.Problems.{Problem};

    ghost Value = { Problem };

    ghost use Rattle.mine_model.specs.contracts.expression.Expr as e;
    ghost use Rattle.std.specs.Coded.{codes};

    ghost coded = { Prim.hlevel (codes, e.the_row.coded) };

    ghost view = { λ p. p.job.now };

    ghost use Rattle.pivot_partition.specs.Kept.{AreKept};

    ghost invariant = { λ p. AreKept p.job.now p.grids p.front.items p.entered.items p.marks.items };
}

impl<'a> Pivots<'a> {
    /// The room for the pivots of this job's sequences.
    pub fn new(alloc: Global, job: &'a Job) -> Result<Pivots<'a>, NoMemory>
        ensures { IfOk result (λ pivots. pivots ≡ job.now) }
    {
        let top = job.ranks().count();
        // What stands for no rank is greater than all of them.
        if top == NONE {
            return Err(NoMemory);
        }
        let states = job.fst().states() as usize;
        let front = zeros(alloc, states)?;
        let entered = zeros(alloc, states)?;
        let marks = no_marks(alloc, top as usize + 1)?;
        let grids = Grids::new(alloc, job, Bound { top, need: None })?;
        Ok(Pivots {
            job,
            grids,
            table: Vec::new(alloc),
            front,
            entered,
            marks,
        })
    }

    /// Lists the pivots of a sequence, each once and in any order, in place of what was listed. After want of
    /// memory some of them may be listed.
    pub fn fill(&mut self, sequence: u32, found: &mut Vec<u32>) -> Result<(), NoMemory>
        requires { sequence < length self.old.sequences }
        ensures same { self.new ≡ self.old }
        ensures once { OnOk result (AllPairs (λ one other. one ≢ other) found.new.items) }
        ensures exact { OnOk result ((rank : ℕ) → Contains found.new.items rank
            ↔ IsPivotOf self.old (items_of self.old sequence) rank) }
    {
        found.clear();
        let count = self.job.db().sequence(sequence).len() as u32;
        self.grids.push(sequence)?;
        if !self.grids.completes(0, 0, State(0), false) {
            self.grids.clear();
            return Ok(());
        }
        let found_all = find_in(
            self.job,
            &self.grids,
            count,
            &mut self.table,
            self.front.as_mut_slice(),
            self.entered.as_mut_slice(),
            self.marks.as_mut_slice(),
            found,
        );
        unmark(found.as_slice(), self.marks.as_mut_slice());
        self.grids.clear();
        found_all
    }

    /// Lets the room go. This is for the proof alone: where room is let go at an exit, the proof goes through
    /// all its parts, so they are let go here alone, and who makes room does nothing else.
    pub(crate) fn let_go(self) {}
}

/// So many zeros.
fn zeros(alloc: Global, count: usize) -> Result<Vec<u32>, NoMemory>
    ensures { IfOk result (λ row. length row.items ≡ count) }
{
    Ok(vec![in alloc; 0u32; count]?)
}
