//! What a pass adds to the buckets.

ghost use Rattle.std.specs.Prelude.{◌≡◌, ℕ, ◌<◌, length, Contains, OnOk};
ghost use Rattle.candidate_graph.specs.declared.edge.Edge.{Edge as Edged};
ghost use Rattle.candidate_graph.specs.Graphs.{IsExpanded, Grows};
ghost use Rattle.prefix_sieve.specs.declared.fronts.Front.{Front as Fronted};
ghost use Rattle.prefix_sieve.specs.Fronts.{AreRaised, HasRaisedBehind, HaveRaised};

use super::branches::Branches;
use super::buckets::Buckets;
use super::fronts::Front;
use super::hashes::mixed;
use candidate_graph::Edge;
use mine_model::NoMemory;

/// Adds the weight to the bucket of each prefix that is one rank longer than these.
pub(crate) fn raise_all<B: Branches>(
    branches: &mut B,
    here: &[Front],
    weight: u64,
    buckets: &mut Buckets,
) -> Result<(), NoMemory>
    requires begun { B.IsBegun branches.old }
    requires within { (front : Fronted) → Contains here.now front
        → front.node < length (B.nodes branches.old) }
    ensures ground { B.ground_of branches.new ≡ B.ground_of branches.old }
    ensures begun { B.IsBegun branches.new }
    ensures grows { Grows (B.nodes branches.old) (B.nodes branches.new) }
    ensures long { length buckets.new ≡ length buckets.old }
    ensures raised { OnOk result (HaveRaised (B.nodes branches.new) here.now weight buckets.old
        buckets.new) }
{
    for front in here {
        raise_behind(branches, *front, weight, buckets)?;
    }
    Ok(())
}

// The same for one of them.
fn raise_behind<B: Branches>(
    branches: &mut B,
    front: Front,
    weight: u64,
    buckets: &mut Buckets,
) -> Result<(), NoMemory>
    requires begun { B.IsBegun branches.old }
    requires node { front.node < length (B.nodes branches.old) }
    ensures ground { B.ground_of branches.new ≡ B.ground_of branches.old }
    ensures begun { B.IsBegun branches.new }
    ensures grows { Grows (B.nodes branches.old) (B.nodes branches.new) }
    ensures long { length buckets.new ≡ length buckets.old }
    ensures raised { OnOk result (HasRaisedBehind (B.nodes branches.new) front weight buckets.old
        buckets.new) }
{
    branches.expand(front.node)?;
    let edges = branches.edges_of(front.node);
    raise_edges(edges, front.hash, weight, buckets);
    Ok(())
}

// Adds the weight to the bucket of the prefix with each of the edges.
fn raise_edges(edges: &[Edge], hash: u64, weight: u64, buckets: &mut Buckets)
    ensures long { length buckets.new ≡ length buckets.old }
    ensures raised { AreRaised edges.now hash weight buckets.old buckets.new }
{
    for edge in edges {
        buckets.add(mixed(hash, edge.rank), weight);
    }
}
