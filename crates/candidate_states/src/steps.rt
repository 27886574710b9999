//! The edges of a node up to the pivot.

ghost use Rattle.std.specs.Prelude.{◌≡◌, ℕ, ◌≤◌, ◌<◌, ◌↔◌, Some, length, slice_get, AllPairs, Contains};
ghost use Rattle.candidate_graph.specs.declared.edge.Edge.{Edge as Edged};
ghost use Rattle.candidate_graph.specs.Graphs.{IsWhole};
ghost use Rattle.candidate_graph.specs.Paths.{HasEdge};
ghost use Rattle.graph_order.specs.Orders.{IsSomeGraph};

use candidate_graph::{Edge as Step, Graph};

/// The edges of a node whose ranks are at most the pivot, by rising rank.
pub(crate) fn steps_of(graph: &Graph, node: u32, pivot: u32) -> &[Step]
    requires graph { IsSomeGraph graph.now.nodes }
    requires whole { IsWhole graph.now.nodes }
    requires node { node < length graph.now.nodes }
    ensures rising { AllPairs (λ low high. low.rank < high.rank) result.now }
    ensures exact { (step : Edged) → Contains result.now step
        ↔ (HasEdge graph.now.nodes node step.rank step × (step.rank ≤ pivot)) }
{
    let steps = graph.edges_of(node);
    &steps[..count_up_to(steps, pivot)]
}

/// How many edges have ranks up to the pivot.
fn count_up_to(steps: &[Step], pivot: u32) -> usize
    requires { AllPairs (λ (low : Edged) (high : Edged). low.rank < high.rank) steps.now }
    ensures within { result ≤ length steps.now }
    ensures exact { (k : ℕ) (step : Edged) → slice_get steps.now k ≡ Some step
        → (k < result) ↔ (step.rank ≤ pivot) }
{
    steps.partition_point(|step| step.rank <= pivot)
}
