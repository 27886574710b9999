ghost use Rattle.std.specs.Prelude.{◌≡◌, ℕ, ◌≤◌, ◌<◌, [], ◌∷◌, true, Some, None, Ok, length, AllPairs, IfSome, IfOk, OnOk, OnErr};
ghost use Rattle.std.specs.List.{AllByRecursion};
ghost use Rattle.sequence_grids.specs.Grids.{items_at};
ghost use Rattle.candidate_graph.specs.Graphs.{Standpoint, IsExpanded, IsWhole, Grows};
ghost use Rattle.snapshot_project.specs.Snapshots.{bound_of};
ghost use Rattle.sequence_candidates.specs.Candidates.{AreCandidates};
ghost use Rattle.sequence_candidates.specs.Terrains.{seen_first as seen_at_first};

use super::expanding::expand_over;
use super::starts::starts_of;
use super::terrain::{AnyTerrain, terrain_of};
use candidate_graph::Graph;
use mine_model::NoMemory;
use mining_job::{Bound, Job};
use place_walk::{Stand, Visits};
use std::alloc::Global;
use std::marker::Model;

/// A worker's room for the candidates of the sequences of one part, one sequence at a time, used again for
/// the next part. A contract sees the part, the index of the sequence that was begun last, and the nodes of
/// its graph.
pub struct Candidates<'a> {
    job: &'a Job,
    bound: Bound,
    sequences: Vec<u32>,
    // The place where each sequence begins.
    starts: Vec<u32>,
    terrain: AnyTerrain,
    begun: Option<u32>,
    graph: Graph,
    visits: Visits,
}

// Written out, since the sets in the terrain have one of three widths.
impl<'a> Drop for Candidates<'a> {
    fn drop(self) {
        let Candidates {
            job: _,
            bound: _,
            sequences: _,
            starts: _,
            terrain: _,
            begun: _,
            graph: _,
            visits: _,
        } = self;
    }
}

impl<'a> Model for Candidates<'a> {
    ghost use Rattle.sequence_candidates.specs.Candidates.{CandidatesValue};

    ghost Value = { CandidatesValue };

    ghost use Rattle.mine_model.specs.contracts.expression.Expr as e;
    ghost use Rattle.std.specs.Coded.{codes};

    ghost coded = { Prim.hlevel (codes, e.the_row.coded) };

    ghost use Rattle.sequence_candidates.specs.Terrains.{IsKept};

    ghost view = { λ c. record {
      part = record { problem = c.job.now; bound = c.bound; sequences = c.sequences.items };
      begun = c.begun;
      nodes = c.graph.nodes;
    } };

    ghost invariant = { λ c. IsKept (record {
      problem = c.job.now;
      bound = c.bound;
      sequences = c.sequences.items;
    }) c.terrain c.starts.items c.begun c.graph.room c.graph.nodes };
}

impl<'a> Candidates<'a> {
    /// Room for the ranks of a job, over a part of no sequences.
    pub fn new(alloc: Global, job: &'a Job) -> Result<Candidates<'a>, NoMemory>
        ensures { IfOk result (λ made. (made.part ≡ record {
          problem = job.now;
          bound = bound_of (length job.now.ranking.order) None;
          sequences = [];
        }) × (made.begun ≡ None)) }
    {
        let ranks = job.ranks().count();
        let graph = Graph::new(alloc, ranks as usize + 1)?;
        Ok(Candidates {
            job,
            bound: bound_by(ranks, None),
            sequences: Vec::new(alloc),
            starts: Vec::new(alloc),
            terrain: AnyTerrain::Unknown,
            begun: None,
            graph,
            visits: Visits::new(alloc),
        })
    }

    /// Makes it one of the part of these sequences, none of which is begun. With a pivot the part's patterns
    /// are those whose greatest rank it is. Where memory is wanting, the part has no sequences.
    pub fn enter(&mut self, pivot: Option<u32>, sequences: &[u32]) -> Result<(), NoMemory>
        requires rising { AllPairs (λ low high. low < high) sequences.now }
        requires within { AllByRecursion (λ i. i < length self.old.part.problem.sequences) sequences.now }
        requires least { IfSome pivot (λ rank. 1 ≤ rank) }
        requires most { IfSome pivot (λ rank. rank ≤ length self.old.part.problem.ranking.order) }
        ensures problem { self.new.part.problem ≡ self.old.part.problem }
        ensures bound { OnOk result (self.new.part.bound
            ≡ bound_of (length self.old.part.problem.ranking.order) pivot) }
        ensures sequences { OnOk result (self.new.part.sequences ≡ sequences.now) }
        ensures none { OnErr result (self.new.part.sequences ≡ []) }
        ensures begun { self.new.begun ≡ None }
    {
        self.leave();
        let alloc = *self.starts.allocator();
        let bound = bound_by(self.job.ranks().count(), pivot);
        let starts = starts_of(alloc, self.job, sequences)?;
        let numbers = copy_of(alloc, sequences)?;
        let terrain = terrain_of(alloc, self.job, bound, sequences)?;
        self.bound = bound;
        self.sequences = numbers;
        self.starts = starts;
        self.terrain = terrain;
        Ok(())
    }

    // Forgets the sequences, and what was kept of them.
    fn leave(&mut self)
        ensures part { self.new.part ≡ record self.old.part { sequences = [] } }
        ensures begun { self.new.begun ≡ None }
    {
        self.begun = None;
        self.terrain = AnyTerrain::Unknown;
        self.sequences.clear();
        self.starts.clear();
    }

    /// Begins with the sequence with the index among those of the part: forgets all nodes, and makes node 0
    /// that of its empty prefix. Where memory is wanting, no sequence is begun.
    pub fn begin(&mut self, index: u32) -> Result<(), NoMemory>
        requires { index < length self.old.part.sequences }
        ensures part { self.new.part ≡ self.old.part }
        ensures begun { OnOk result (self.new.begun ≡ Some index) }
        ensures root { OnOk result ((at : Standpoint)
            × (self.new.nodes ≡ record { at = at; edges = None } ∷ [])) }
        ensures none { OnErr result (self.new.begun ≡ None) }
    {
        self.begun = None;
        let start = Stand {
            place: self.starts[index as usize],
            state: 0,
            first: true,
        };
        self.graph.begin(&[start], seen_first(self.bound.need))?;
        self.begun = Some(index);
        Ok(())
    }

    /// Finds the edges of a node, where they are not known yet. Nodes to which they lead are added. Where
    /// memory is wanting, the node has no edges, and others may have been added.
    pub fn expand(&mut self, node: u32) -> Result<(), NoMemory>
        requires begun { (index : ℕ) × (self.old.begun ≡ Some index) }
        requires node { node < length self.old.nodes }
        ensures part { self.new.part ≡ self.old.part }
        ensures begun { self.new.begun ≡ self.old.begun }
        ensures grows { Grows self.old.nodes self.new.nodes }
        ensures expanded { OnOk result (IsExpanded self.new.nodes node) }
    {
        let need = self.bound.need;
        match &mut self.terrain {
            AnyTerrain::Unknown => Err(NoMemory),
            AnyTerrain::One(over) => {
                expand_over(over, &mut self.graph, node, need, &mut self.visits)
            }
            AnyTerrain::Four(over) => {
                expand_over(over, &mut self.graph, node, need, &mut self.visits)
            }
            AnyTerrain::Wide(over) => {
                expand_over(over, &mut self.graph, node, need, &mut self.visits)
            }
        }
    }

    /// Finds the edges of all nodes, those that are added on the way among them. It also wants memory where
    /// there are more than 2^32 - 1.
    pub fn expand_all(&mut self) -> Result<(), NoMemory>
        requires begun { (index : ℕ) × (self.old.begun ≡ Some index) }
        ensures part { self.new.part ≡ self.old.part }
        ensures begun { self.new.begun ≡ self.old.begun }
        ensures grows { Grows self.old.nodes self.new.nodes }
        ensures whole { OnOk result (IsWhole self.new.nodes) }
    {
        for node in 0..u32::MAX {
            if node as usize >= self.graph.count() {
                return Ok(());
            }
            self.expand(node)?;
        }
        Err(NoMemory)
    }

    /// The same, but gives up, and says so by `false`, where more than so many nodes and edges, counted
    /// together, would be needed.
    pub fn expand_within(&mut self, most: u32) -> Result<bool, NoMemory>
        requires begun { (index : ℕ) × (self.old.begun ≡ Some index) }
        ensures part { self.new.part ≡ self.old.part }
        ensures begun { self.new.begun ≡ self.old.begun }
        ensures grows { Grows self.old.nodes self.new.nodes }
        ensures whole { result ≡ Ok true → IsWhole self.new.nodes }
    {
        let mut left = most as usize;
        for node in 0..most {
            let count = self.graph.count();
            if node as usize >= count {
                return Ok(true);
            }
            self.expand(node)?;
            let used = self.graph.edges_of(node).len() + 1;
            if used > left {
                return Ok(false);
            }
            left -= used;
        }
        Ok(false)
    }

    /// The graph of the sequence that was begun last.
    pub fn graph(&self) -> &Graph
        ensures nodes { result.now.nodes ≡ self.now.nodes }
        ensures candidates { IfSome self.now.begun (λ index.
            AreCandidates self.now.part (items_at self.now.part index) self.now.nodes) }
    {
        &self.graph
    }
}

// The bound of a part: with a pivot, the ranks up to the pivot's, which is needed.
fn bound_by(ranks: u32, pivot: Option<u32>) -> Bound
    ensures { result ≡ bound_of ranks pivot }
{
    match pivot {
        Some(rank) => Bound {
            top: rank,
            need: pivot,
        },
        None => Bound {
            top: ranks,
            need: None,
        },
    }
}

// Whether the empty prefix lacks nothing: where nothing is needed, all is seen.
fn seen_first(need: Option<u32>) -> bool
    ensures { result ≡ seen_at_first need }
{
    match need {
        None => true,
        Some(_) => false,
    }
}

// The same numbers.
fn copy_of(alloc: Global, numbers: &[u32]) -> Result<Vec<u32>, NoMemory>
    ensures { IfOk result (λ copy. copy.items ≡ numbers.now) }
{
    let mut copy = Vec::new(alloc);
    copy.extend_from_slice(numbers)?;
    Ok(copy)
}
