//! What a node grows into.

ghost use Rattle.std.specs.Prelude.{◌≡◌, ℕ, ◌≤◌, ◌<◌, Some, [], ◌∷◌, ◌++◌, map, length, slice_get, All, AllPairs, IfOk};
ghost use Rattle.search_tree.specs.SearchTree.{IsRowOf, AreKids};
ghost use Rattle.mining_job.specs.Problems.{data_of};
ghost use Rattle.snapshot_project.specs.declared.next_rank.NextRank.{NextRank as Next};
ghost use Rattle.snapshot_project.specs.Stands.{StandList};
ghost use Rattle.dfs_growth.specs.Nodes.{Prefix, HasRow, HasKids, label_at, prefix_at, longer_by};
ghost use Rattle.dfs_growth.specs.Projections.{IsProjection, IsRoomFor};

use super::node::Node;
use super::state::State;
use mine_model::{NoMemory, Row, pattern_of};
use mining_job::Job;
use search_tree::{Grown, Label};
use snapshot_project::{NextRank, Part, Room, Snapshots, begin, grow, support};
use std::alloc::Global;

/// What the node grows into: its label, its row where its prefix is frequent, and its kids.
pub fn expand<'a>(
    alloc: Global,
    node: Node<'a>,
    room: &mut Room<'a>,
) -> Result<Grown<Node<'a>>, NoMemory>
    requires room { IsRoomFor node.problem room.old }
    ensures room { IsRoomFor node.entry.problem room.new }
    ensures label { IfOk result (λ grown. grown.label ≡ label_at node.entry) }
    ensures row { IfOk result (λ grown. HasRow node.entry grown.row) }
    ensures kids { IfOk result (λ grown. HasKids node.entry (map label_at grown.kids.items)) }
    ensures ground { IfOk result (λ grown.
        All (λ (kid : Prefix). kid.problem ≡ node.entry.problem) grown.kids.items) }
{
    let job = node.job;
    let (label, part, snapshots) = projection(alloc, node)?;
    let row = row_of(alloc, job, label.as_slice(), &part, &snapshots)?;
    let kids = kids_of(alloc, job, label.as_slice(), &part, &snapshots, room)?;
    Ok(Grown {
        label: Label::new(label),
        row,
        kids,
    })
}

// The label of the node, its part, and what is kept of its prefix.
fn projection<'a>(
    alloc: Global,
    node: Node<'a>,
) -> Result<(Vec<u32>, Part<'a>, Snapshots), NoMemory>
    ensures label { IfOk result (λ p. p.0.items ≡ label_at node.entry) }
    ensures projection { IfOk result (λ p. IsProjection node.entry p.1 p.2) }
{
    let Node { job, label, state } = node;
    match state {
        State::Root(seed, alphabet) => {
            let (part, snapshots) = begin(alloc, job, &alphabet, seed.pivot, seed.sequences)?;
            Ok((label, part, snapshots))
        }
        State::Projected(part, snapshots) => Ok((label, part, snapshots)),
    }
}

// The row of the label, where its prefix is frequent. The empty prefix has no support.
fn row_of(
    alloc: Global,
    job: &Job,
    label: &[u32],
    part: &Part,
    snapshots: &Snapshots,
) -> Result<Option<Row>, NoMemory>
    requires some { 1 ≤ length label.now }
    requires projection { IsProjection (prefix_at job.now label.now) part.now snapshots.now }
    ensures { IfOk result (λ row. let prefix = prefix_at job.now label.now in
        IsRowOf (data_of job.now) job.now.ranking.order prefix.pivot prefix.ranks row) }
{
    let support = support(part, snapshots);
    if support < job.threshold() {
        return Ok(None);
    }
    let pattern = pattern_of(alloc, job.ranks(), &label[1..])?;
    Ok(Some(Row { pattern, support }))
}

// The kids of the label.
fn kids_of<'a>(
    alloc: Global,
    job: &'a Job,
    label: &[u32],
    part: &Part<'a>,
    snapshots: &Snapshots,
    room: &mut Room<'a>,
) -> Result<Vec<Node<'a>>, NoMemory>
    requires some { 1 ≤ length label.now }
    requires projection { IsProjection (prefix_at job.now label.now) part.now snapshots.now }
    requires room { IsRoomFor job.now room.old }
    ensures room { IsRoomFor job.now room.new }
    ensures problem { IfOk result (λ kids. All (λ (kid : Prefix). kid.problem ≡ job.now) kids.items) }
    ensures kids { IfOk result (λ kids. let prefix = prefix_at job.now label.now in
        AreKids (data_of job.now) job.now.ranking.order prefix.pivot prefix.ranks (map label_at kids.items)) }
{
    let grown = grow(alloc, part, snapshots, job.threshold(), room)?;
    let longer = grown.longer;
    nodes(alloc, job, label, part, grown.next.as_slice(), longer)
}

// The nodes whose prefixes are longer by these ranks, with what is kept of each.
fn nodes<'a>(
    alloc: Global,
    job: &'a Job,
    label: &[u32],
    part: &Part<'a>,
    next: &[NextRank],
    longer: Vec<Snapshots>,
) -> Result<Vec<Node<'a>>, NoMemory>
    requires some { 1 ≤ length label.now }
    requires count { length longer.items ≡ length next.now }
    requires each { (i : ℕ) (n : Next) (list : StandList) → slice_get next.now i ≡ Some n
        → slice_get longer.items i ≡ Some list
        → IsProjection (longer_by (prefix_at job.now label.now) n.rank) part.now list }
    ensures { IfOk result (λ kids. kids.items
        ≡ map (λ (n : Next). longer_by (prefix_at job.now label.now) n.rank) next.now) }
{
    let mut kids = Vec::with_capacity(alloc, next.len())?;
    'kids: for snapshots in longer {
        let label = longer_label(alloc, label, next[kids.len()].rank)?;
        let state = State::Projected(part.share()?, snapshots);
        kids.push(Node { job, label, state })?;
    }
    Ok(kids)
}

// The label with the rank behind it.
fn longer_label(alloc: Global, label: &[u32], rank: u32) -> Result<Vec<u32>, NoMemory>
    ensures { IfOk result (λ longer. longer.items ≡ label.now ++ rank ∷ []) }
{
    let mut longer = Vec::with_capacity(alloc, label.len() + 1)?;
    longer.extend_from_slice(label)?;
    longer.push(rank)?;
    Ok(longer)
}
