//! The roots of the search tree.

ghost use Rattle.std.specs.Prelude.{◌≡◌, ℕ, ◌≤◌, ◌<◌, [], ◌∷◌, map, length, sum_by, All, AllPairs, IfOk, IfSome};
ghost use Rattle.std.specs.List.{AllByRecursion};
ghost use Rattle.mine_model.specs.Database.{sequence_at};
ghost use Rattle.search_tree.specs.SearchTree.{AreRootsOf};
ghost use Rattle.mining_job.specs.declared.part_seed.PartSeed.{PartSeed as Seed};
ghost use Rattle.mining_job.specs.Problems.{data_of};
ghost use Rattle.mining_job.specs.Parts.{pivot_of, IsComplete};
ghost use Rattle.snapshot_project.specs.Stands.{IsProjected};
ghost use Rattle.snapshot_project.specs.Terrains.{IsWholePart};
ghost use Rattle.std.specs.Arc.{arc_value};
ghost use Rattle.sequence_grids.specs.Wholes.{IsWholeAlphabet};
ghost use Rattle.dfs_growth.specs.Nodes.{Prefix, label_at, prefix_at};

use super::node::Node;
use super::state::State;
use mine_model::NoMemory;
use mining_job::{Job, PartSeed};
use sequence_grids::{Alphabet, empty_alphabet, meet_items_of, whole_alphabet};
use snapshot_project::{Part, Snapshots, begin_whole, begin_whole_alone};
use std::alloc::Global;
use std::sync::Arc;
use std::thread::Threads;

/// The nodes of these seeds whose sequences weigh at least the threshold, in their order.
pub fn roots<'a>(
    alloc: Global,
    job: &'a Job,
    seeds: Vec<PartSeed>,
) -> Result<Vec<Node<'a>>, NoMemory>
    requires complete { All (IsComplete job.now) seeds.items }
    ensures problem { IfOk result (λ nodes. All (λ (node : Prefix). node.problem ≡ job.now) nodes.items) }
    ensures roots { IfOk result (λ nodes. AreRootsOf (data_of job.now) job.now.ranking.order
        (map (λ (seed : Seed). pivot_of seed.pivot) seeds.items) (map label_at nodes.items)) }
{
    let threshold = job.threshold();
    let alphabet = Arc::new(alloc, alphabet_of_seeds(alloc, job, seeds.as_slice())?)?;
    let mut nodes = Vec::new(alloc);
    'seeds: for seed in seeds {
        if weight(job, seed.sequences.as_slice()) >= threshold {
            nodes.push(root(alloc, job, seed, alphabet.clone()?)?)?;
        }
    }
    Ok(nodes)
}

// What items may do under the bound of all ranks: those that occur in sequences of seeds that weigh at least
// the threshold, or all that occur where these are as many as all sequences.
fn alphabet_of_seeds(alloc: Global, job: &Job, seeds: &[PartSeed]) -> Result<Alphabet, NoMemory>
    requires complete { All (IsComplete job.now) seeds.now }
    ensures { IfOk result (IsWholeAlphabet job.now) }
{
    let threshold = job.threshold();
    if heavy_sequences(job, seeds) >= u64::from(job.db().sequences()) {
        return whole_alphabet(alloc, job);
    }
    let mut all = empty_alphabet(alloc, job)?;
    'seeds: for seed in seeds {
        let sequences = seed.sequences.as_slice();
        if weight(job, sequences) >= threshold {
            meet_items_of(alloc, job, &mut all, sequences)?;
        }
    }
    Ok(all)
}

// How many sequences those of these seeds have together that weigh at least the threshold.
fn heavy_sequences(job: &Job, seeds: &[PartSeed]) -> u64
    requires { All (IsComplete job.now) seeds.now }
{
    let threshold = job.threshold();
    let mut count: u64 = 0;
    'seeds: for seed in seeds {
        let sequences = seed.sequences.as_slice();
        if weight(job, sequences) >= threshold {
            count = count.saturating_add(sequences.len() as u64);
        }
    }
    count
}

/// The root of the search without pivots, where the sequences that have a pattern of frequent items weigh at
/// least the threshold. They are found by so many threads; where no item has a rank, no sequence is looked
/// at.
pub fn whole_roots<'a, R: Threads + Sync>(
    rt: &R,
    workers: u32,
    alloc: Global,
    job: &'a Job,
) -> Result<Vec<Node<'a>>, NoMemory>
    requires some { 1 ≤ workers }
    ensures problem { IfOk result (λ nodes. All (λ (node : Prefix). node.problem ≡ job.now) nodes.items) }
    ensures roots { IfOk result (λ nodes.
        AreRootsOf (data_of job.now) job.now.ranking.order (0 ∷ []) (map label_at nodes.items)) }
{
    if job.ranks().count() == 0 {
        return Ok(Vec::new(alloc));
    }
    let (part, snapshots) = begin_whole(rt, workers, alloc, job)?;
    roots_at(alloc, job, part, snapshots)
}

/// The same in one thread.
pub fn whole_roots_alone<'a>(alloc: Global, job: &'a Job) -> Result<Vec<Node<'a>>, NoMemory>
    ensures problem { IfOk result (λ nodes. All (λ (node : Prefix). node.problem ≡ job.now) nodes.items) }
    ensures roots { IfOk result (λ nodes.
        AreRootsOf (data_of job.now) job.now.ranking.order (0 ∷ []) (map label_at nodes.items)) }
{
    if job.ranks().count() == 0 {
        return Ok(Vec::new(alloc));
    }
    let (part, snapshots) = begin_whole_alone(alloc, job)?;
    roots_at(alloc, job, part, snapshots)
}

// The node of the empty prefix, of which this is kept, where the sequences of the part weigh at least the
// threshold.
fn roots_at<'a>(
    alloc: Global,
    job: &'a Job,
    part: Part<'a>,
    snapshots: Snapshots,
) -> Result<Vec<Node<'a>>, NoMemory>
    requires part { IsWholePart job.now part }
    requires start { (least : ℕ) → IsProjected part least [] snapshots }
    ensures problem { IfOk result (λ nodes. All (λ (node : Prefix). node.problem ≡ job.now) nodes.items) }
    ensures roots { IfOk result (λ nodes.
        AreRootsOf (data_of job.now) job.now.ranking.order (0 ∷ []) (map label_at nodes.items)) }
{
    // There are so few sequences that those of the part are a seed.
    let _count = job.db().sequences();
    if weight(job, part.sequences()) < job.threshold() {
        return Ok(Vec::new(alloc));
    }
    let label = root_label(alloc, None)?;
    let state = State::Projected(part, snapshots);
    let mut nodes = Vec::new(alloc);
    nodes.push(Node { job, label, state })?;
    Ok(nodes)
}

// What the sequences with these numbers weigh together.
fn weight(job: &Job, numbers: &[u32]) -> u64
    requires rising { AllPairs (λ low high. low < high) numbers.now }
    requires within { AllByRecursion (λ i. i < length job.now.sequences) numbers.now }
    ensures { result ≡ sum_by (λ i. (sequence_at job.now.sequences i).weight) numbers.now }
{
    // There are so few sequences that no sum of their weights is too great.
    let db = job.db();
    let _count = db.sequences();
    let mut sum = 0;
    for number in numbers {
        sum += db.weight(*number);
    }
    sum
}

// The root of a seed, which shares the alphabet.
fn root<'a>(
    alloc: Global,
    job: &'a Job,
    seed: PartSeed,
    alphabet: Arc<Alphabet>,
) -> Result<Node<'a>, NoMemory>
    requires complete { IsComplete job.now seed }
    requires alphabet { IsWholeAlphabet job.now (arc_value alphabet) }
    ensures { IfOk result (λ node. node ≡ prefix_at job.now (pivot_of seed.pivot ∷ [])) }
{
    let label = root_label(alloc, seed.pivot)?;
    Ok(Node {
        job,
        label,
        state: State::Root(seed, alphabet),
    })
}

// The label of the root with the pivot, or without one.
fn root_label(alloc: Global, pivot: Option<u32>) -> Result<Vec<u32>, NoMemory>
    ensures { IfOk result (λ label. label.items ≡ pivot_of pivot ∷ []) }
{
    let label = vec![in alloc; pivot.unwrap_or(0)]?;
    Ok(label)
}
