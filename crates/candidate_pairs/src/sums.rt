//! The sum of a node, by those of the nodes to which its edges lead.

ghost use Rattle.std.specs.Prelude.{◌≡◌, ◌<◌, length, sum_by, Contains, OnOk};
ghost use Rattle.mine_model.specs.Counted.{told_of};
ghost use Rattle.candidate_graph.specs.declared.edge.Edge.{Edge as Edged};
ghost use Rattle.candidate_pairs.specs.Sums.{told_behind};

use candidate_graph::Edge;
use mine_model::NoMemory;

/// A sum for each of so many nodes, in place of those before.
pub(crate) fn begin_sums(sums: &mut Vec<u64>, count: usize) -> Result<(), NoMemory>
    ensures { OnOk result (length sums.new.items ≡ count) }
{
    sums.clear();
    sums.resize(count, 0)?;
    Ok(())
}

/// What is told of the lists that begin with one of the edges. A sum that would be too large stops at the
/// greatest number, so what is told of parts is enough to tell of the whole.
pub(crate) fn sum_of(edges: &[Edge], sums: &[u64]) -> u64
    requires { (edge : Edged) → Contains edges.now edge → edge.next < length sums.now }
    ensures { result ≡ told_of (sum_by (told_behind sums.now) edges.now) }
{
    let mut sum: u64 = 0;
    for edge in edges {
        sum = sum.saturating_add(sum_behind(*edge, sums));
    }
    sum
}

/// What is told of the lists that begin with the edge.
#[inline]
fn sum_behind(edge: Edge, sums: &[u64]) -> u64
    requires { edge.next < length sums.now }
    ensures { result ≡ told_of (told_behind sums.now edge) }
{
    let behind = sums[edge.next as usize];
    if edge.ends {
        behind.saturating_add(1)
    } else {
        behind
    }
}
