//! The candidates of one sequence after another, as branches.

ghost use Rattle.std.specs.Prelude.{◌≡◌, ℕ, ◌<◌, length, AllPairs, IfOk, OnOk};
ghost use Rattle.std.specs.List.{AllByRecursion};
ghost use Rattle.sieve_passes.specs.Branches.{part_of, IsBegunWith, IsBegun as IsBegunIn};

use candidate_graph::Edge;
use mine_model::NoMemory;
use mining_job::Job;
use prefix_sieve::Branches;
use sequence_candidates::Candidates;
use sequence_grids::Grids;
use std::alloc::Global;
use std::marker::Model;

/// A worker's room for the candidates of sequences of a job, one sequence at a time. A contract sees what
/// `Candidates` shows: the part that was entered, the index of the sequence that was begun last, and the
/// nodes.
#[derive(Drop)]
pub struct PartBranches<'a> {
    candidates: Candidates<'a>,
}

impl<'a> Model for PartBranches<'a> {
    ghost use Rattle.sequence_candidates.specs.Candidates.{CandidatesValue};

    ghost Value = { CandidatesValue };

    ghost use Rattle.mine_model.specs.contracts.expression.Expr as e;
    ghost use Rattle.std.specs.Coded.{codes};

    ghost coded = { Prim.hlevel (codes, e.the_row.coded) };

    ghost view = { λ b. b.candidates };
}

impl<'a> PartBranches<'a> {
    /// Room for a job. No sequences are entered.
    pub fn new(alloc: Global, job: &'a Job) -> Result<PartBranches<'a>, NoMemory>
        ensures { IfOk result (λ made. made.part.problem ≡ job.now) }
    {
        let candidates = Candidates::new(alloc, job)?;
        Ok(PartBranches { candidates })
    }

    /// Makes these the sequences that can be begun. Where memory is wanting, there are none.
    pub fn enter(&mut self, sequences: &[u32]) -> Result<(), NoMemory>
        requires rising { AllPairs (λ low high. low < high) sequences.now }
        requires within { AllByRecursion (λ i. i < length self.old.part.problem.sequences) sequences.now }
        ensures problem { self.new.part.problem ≡ self.old.part.problem }
        ensures part { OnOk result (self.new.part ≡ part_of self.old.part.problem sequences.now) }
    {
        self.candidates.enter(None, sequences)
    }

    /// Begins with the sequence with the index among those that were entered. Where memory is wanting, none
    /// is begun.
    pub fn begin(&mut self, index: u32) -> Result<(), NoMemory>
        requires { index < length self.old.part.sequences }
        ensures part { self.new.part ≡ self.old.part }
        ensures begun { OnOk result (IsBegunWith self.new index) }
    {
        self.candidates.begin(index)?;
        // The nodes are those of the candidates of the sequence.
        let _graph = self.candidates.graph();
        Ok(())
    }
}

impl<'a> Branches for PartBranches<'a> {
    type Ground = (Grids<'a>, Option<u32>);

    ghost ground_of = { λ b. (b.part, b.begun) };

    ghost nodes = { λ b. b.nodes };

    ghost IsBegun = { IsBegunIn };

    fn expand(&mut self, node: u32) -> Result<(), NoMemory> {
        let expanded = self.candidates.expand(node);
        // The nodes are those of the candidates of the sequence.
        let _graph = self.candidates.graph();
        expanded
    }

    fn edges_of(&self, node: u32) -> &[Edge] {
        self.candidates.graph().edges_of(node)
    }
}
