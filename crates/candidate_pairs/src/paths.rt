//! Sums over the nodes of a graph.

ghost use Rattle.std.specs.Prelude.{◌≡◌, ℕ, ◌<◌, length, IfOk};
ghost use Rattle.mine_model.specs.Counted.{IsTold};
ghost use Rattle.candidate_graph.specs.declared.edge.Edge.{Edge as Edged};
ghost use Rattle.candidate_graph.specs.Graphs.{IsWhole};
ghost use Rattle.candidate_graph.specs.Paths.{HasEdge};
ghost use Rattle.graph_order.specs.Orders.{IsSomeGraph, AreInOrder};
ghost use Rattle.candidate_pairs.specs.Paths.{HasPaths};
ghost use Rattle.candidate_pairs.specs.Sums.{IsSummed, KeepsSums};

use super::room::Room;
use super::sums::{begin_sums, sum_of};
use candidate_graph::Graph;
use graph_order::Turn;
use mine_model::NoMemory;

/// What is told of the lists that are accepted from the first node of a graph.
pub(crate) fn count_paths(graph: &Graph, room: &mut Room) -> Result<u64, NoMemory>
    requires graph { IsSomeGraph graph.now.nodes }
    requires whole { IsWhole graph.now.nodes }
    requires root { 0 < length graph.now.nodes }
    ensures { IfOk result (λ told. IsTold (HasPaths graph.now.nodes 0) told) }
{
    room.order.set(graph)?;
    begin_sums(&mut room.sums, graph.count())?;
    sum_all(graph, room.order.turns(), &mut room.sums);
    Ok(room.sums[0])
}

/// Sums up the nodes in turn.
fn sum_all(graph: &Graph, order: &[Turn], sums: &mut Vec<u64>)
    requires graph { IsSomeGraph graph.now.nodes }
    requires whole { IsWhole graph.now.nodes }
    requires order { AreInOrder graph.now.nodes order.now }
    requires long { length sums.old.items ≡ length graph.now.nodes }
    ensures long { length sums.new.items ≡ length graph.now.nodes }
    ensures summed { (node : ℕ) → node < length graph.now.nodes
        → IsSummed graph.now.nodes sums.new.items node }
{
    for turn in order {
        sum_node(graph, turn.node, sums);
    }
}

/// Sums up a node, those behind whose edges were summed up.
fn sum_node(graph: &Graph, node: u32, sums: &mut Vec<u64>)
    requires graph { IsSomeGraph graph.now.nodes }
    requires whole { IsWhole graph.now.nodes }
    requires node { node < length graph.now.nodes }
    requires behind { (rank : ℕ) (edge : Edged) → HasEdge graph.now.nodes node rank edge
        → IsSummed graph.now.nodes sums.old.items edge.next }
    requires long { length sums.old.items ≡ length graph.now.nodes }
    ensures long { length sums.new.items ≡ length graph.now.nodes }
    ensures keeps { KeepsSums graph.now.nodes sums.old.items sums.new.items }
    ensures summed { IsSummed graph.now.nodes sums.new.items node }
{
    let sum = sum_of(graph.edges_of(node), sums.as_slice());
    sums[node as usize] = sum;
}
