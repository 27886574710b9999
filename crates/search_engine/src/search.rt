//! The search by prefixes of a job.
ghost use Rattle.std.specs.Prelude.{◌≡◌, [], ◌∷◌, map, All, IfOk};
ghost use Rattle.mining_job.specs.declared.part_seed.PartSeed.{PartSeed as Seed};
ghost use Rattle.mining_job.specs.Problems.{Problem, IsWhole, data_of};
ghost use Rattle.mining_job.specs.Parts.{pivot_of, IsComplete};
ghost use Rattle.pivot_partition.specs.Pivots.{pivots_in};
ghost use Rattle.search_tree.specs.SearchTree.{AreRootsOf};
ghost use Rattle.dfs_growth.specs.Nodes.{Prefix, label_at};
ghost use Rattle.search_engine.specs.Partition.{ArePivotsFor};
ghost use Rattle.search_engine.specs.Searches.{AreComplete, pivots_from};

use super::division::Division;
use dfs_growth::{Node, expand, roots, whole_roots_alone};
use mine_model::NoMemory;
use mining_job::{Job, PartSeed};
use pivot_partition::split_alone;
use search_tree::{Grow, Grown};
use snapshot_project::Room;
use std::alloc::Global;
use std::marker::Model;

/// Where the roots of a search tree come from.
#[derive(Drop)]
pub(crate) enum Source {
    /// One root, without a pivot, of all sequences that have a pattern of frequent items.
    Whole,
    /// A root for each seed.
    Seeds(Vec<PartSeed>),
}

/// A job with the source of the roots of its search tree.
#[derive(Drop)]
pub(crate) struct Search<'a> {
    job: &'a Job,
    source: Source,
}

impl<'a> Model for Search<'a> {
    ghost use Rattle.search_engine.specs.Searches.{Search, IsSeeded, pivots_from};

    ghost Value = { Search };

    ghost use Rattle.mine_model.specs.contracts.expression.Expr as e;
    ghost use Rattle.std.specs.Coded.{codes};

    ghost coded = { Prim.hlevel (codes, e.the_row.coded) };

    ghost view = { λ s. record { problem = s.job.now; pivots = pivots_from s.source } };

    ghost invariant = { λ s. IsSeeded s.job.now s.source };
}

/// The seeds, copied.
fn copied(alloc: Global, seeds: &[PartSeed]) -> Result<Vec<PartSeed>, NoMemory>
    ensures pivots { IfOk result (λ copies. map (λ (seed : Seed). pivot_of seed.pivot) copies.items
        ≡ map (λ (seed : Seed). pivot_of seed.pivot) seeds.now) }
    ensures complete { (problem : Problem) → All (IsComplete problem) seeds.now
        → IfOk result (λ copies. All (IsComplete problem) copies.items) }
{
    let mut copies = Vec::with_capacity(alloc, seeds.len())?;
    for seed in seeds {
        copies.push(PartSeed {
            pivot: seed.pivot,
            sequences: Vec::from_slice(alloc, seed.sequences.as_slice())?,
        })?;
    }
    Ok(copies)
}

/// The roots of this source.
fn roots_from<'a>(alloc: Global, job: &'a Job, source: &Source) -> Result<Vec<Node<'a>>, NoMemory>
    requires complete { AreComplete job.now source.now }
    ensures problem { IfOk result (λ nodes. All (λ (node : Prefix). node.problem ≡ job.now) nodes.items) }
    ensures roots { IfOk result (λ nodes. AreRootsOf (data_of job.now) job.now.ranking.order
        (pivots_from source.now) (map label_at nodes.items)) }
{
    match source {
        Source::Whole => whole_roots_alone(alloc, job),
        Source::Seeds(seeds) => {
            let seeds = copied(alloc, seeds.as_slice())?;
            roots(alloc, job, seeds)
        }
    }
}

impl<'a> Search<'a> {
    /// The search without pivots.
    pub(crate) fn new(job: &'a Job) -> Search<'a>
        ensures problem { result.problem ≡ job.now }
        ensures pivots { result.pivots ≡ 0 ∷ [] }
    {
        // For the proof alone: the job is whole, as each accessor of it says.
        let _threshold = job.threshold();
        Search {
            job,
            source: Source::Whole,
        }
    }

    /// The search by the pivots of these seeds.
    pub(crate) fn by_seeds(job: &'a Job, seeds: Vec<PartSeed>) -> Search<'a>
        requires { All (IsComplete job.now) seeds.items }
        ensures problem { result.problem ≡ job.now }
        ensures pivots { result.pivots ≡ pivots_in seeds.items }
    {
        // For the proof alone: the job is whole.
        let _threshold = job.threshold();
        Search {
            job,
            source: Source::Seeds(seeds),
        }
    }

    /// The search of the job, split by pivots or not. The pivots are looked for in this thread.
    pub(crate) fn alone(
        alloc: Global,
        job: &'a Job,
        division: Division,
    ) -> Result<Search<'a>, NoMemory>
        ensures problem { IfOk result (λ search. search.problem ≡ job.now) }
        ensures pivots { IfOk result (λ search.
            ArePivotsFor division (data_of job.now) job.now.ranking.order search.pivots) }
    {
        match division {
            Division::Whole => Ok(Search::new(job)),
            Division::ByPivots => {
                let seeds = split_alone(alloc, job)?;
                Ok(Search::by_seeds(job, seeds))
            }
        }
    }

    /// The job.
    fn job(&self) -> &'a Job
        ensures problem { result.now ≡ self.now.problem }
        ensures whole { IsWhole self.now.problem }
    {
        self.job
    }
}

impl<'a> Grow for Search<'a> {
    type Node = Node<'a>;

    type Room = Room<'a>;

    ghost use Rattle.std.specs.Prelude.{◌≡◌, ◌≤◌, length};
    ghost use Rattle.dfs_growth.specs.Nodes.{label_at};
    ghost use Rattle.dfs_growth.specs.Projections.{IsRoomFor};
    ghost use Rattle.search_engine.specs.Searches.{tree_of};

    ghost label_of = { λ _ node. label_at node };

    ghost roots_of = { λ search. (tree_of search).roots };

    ghost kids_of = { λ search. (tree_of search).kids };

    ghost row_of = { λ search. (tree_of search).row };

    ghost IsOwn = { λ search node. node.problem ≡ search.problem };

    ghost IsRoomy = { λ search room. IsRoomFor search.problem room };

    fn room(&self, alloc: Global) -> Result<Room<'a>, NoMemory> {
        Room::new(alloc, self.job())
    }

    fn roots(&self, alloc: Global) -> Result<Vec<Node<'a>>, NoMemory> {
        let nodes = roots_from(alloc, self.job, &self.source)?;
        Ok(nodes)
    }

    fn grow(
        &self,
        alloc: Global,
        node: Node<'a>,
        room: &mut Room<'a>,
    ) -> Result<Grown<Node<'a>>, NoMemory> {
        // For the proof alone: the node's own job, by which it is grown, is that of the search, and whole.
        let _job = self.job();
        let grown = expand(alloc, node, room)?;
        Ok(grown)
    }
}
