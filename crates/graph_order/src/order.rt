//! Nodes by how far from the last place they stand.

ghost use Rattle.std.specs.Prelude.{◌≡◌, ◌<◌, [], Some, length, slice_get, OnOk};
ghost use Rattle.candidate_graph.specs.Graphs.{Node};
ghost use Rattle.graph_order.specs.Orders.{IsSomeGraph, AreInOrder};
ghost use Rattle.graph_order.specs.Levels.{IsLevel, AreTurns};

use candidate_graph::Graph;
use mine_model::NoMemory;
use std::alloc::Global;
use std::marker::Model;

/// A node, and how far from the last place its first stand is: 0 where it has no stands.
#[derive(Clone, Copy, Debug)]
pub struct Turn {
    pub level: u64,
    pub node: u32,
}

/// The nodes of a graph, each after those to which its edges lead. It is made once for a graph, and its room
/// is used again for the next.
#[derive(Drop)]
pub struct Order {
    turns: Vec<Turn>,
}

impl Model for Order {
    ghost use Rattle.std.specs.Prelude.{List};
    ghost use Rattle.graph_order.specs.declared.order.Turn.{Turn as Turned};

    ghost Value = { List Turned };

    ghost view = { λ o. o.turns.items };
}

impl Order {
    /// That of no nodes. Takes no memory.
    pub fn new(alloc: Global) -> Order
        ensures { result ≡ [] }
    {
        Order {
            turns: Vec::new(alloc),
        }
    }

    /// Makes it that of the graph.
    pub fn set(&mut self, graph: &Graph) -> Result<(), NoMemory>
        requires { IsSomeGraph graph.now.nodes }
        ensures { OnOk result (AreInOrder graph.now.nodes self.new) }
    {
        order_nodes(graph, &mut self.turns)
    }

    /// The nodes in this order.
    pub fn turns(&self) -> &[Turn]
        ensures { result.now ≡ self.now }
    {
        self.turns.as_slice()
    }
}

/// All nodes, each after those to which its edges lead, in place of those before.
fn order_nodes(graph: &Graph, order: &mut Vec<Turn>) -> Result<(), NoMemory>
    requires { IsSomeGraph graph.now.nodes }
    ensures { OnOk result (AreInOrder graph.now.nodes order.new.items) }
{
    list_nodes(graph, order)?;
    order.sort_unstable_by_key(|turn| turn.level);
    Ok(())
}

/// All nodes by number, in place of those before.
fn list_nodes(graph: &Graph, order: &mut Vec<Turn>) -> Result<(), NoMemory>
    ensures { OnOk result (AreTurns graph.now.nodes (length graph.now.nodes) order.new.items) }
{
    order.clear();
    let count = graph.count();
    if count >= u32::MAX as usize {
        return Err(NoMemory);
    }
    'nodes: for node in 0..count as u32 {
        order.push(Turn {
            level: level_of(graph, node),
            node,
        })?;
    }
    Ok(())
}

/// How far from the last place the first stand of a node is.
fn level_of(graph: &Graph, node: u32) -> u64
    requires { node < length graph.now.nodes }
    ensures { (n : Node) → slice_get graph.now.nodes node ≡ Some n → IsLevel n.at result }
{
    match graph.first_place(node) {
        Some(place) => 4_294_967_296 - u64::from(place),
        None => 0,
    }
}
