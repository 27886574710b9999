//! The state of the empty prefix.

ghost use Rattle.std.specs.Prelude.{◌≡◌, ◌<◌, ◌++◌, List, length, IfOk};
ghost use Rattle.automaton_model.specs.Automata.{StateValue};
ghost use Rattle.automaton_model.specs.Registry.{IsRegistry};
ghost use Rattle.candidate_graph.specs.Graphs.{IsWhole};
ghost use Rattle.graph_order.specs.Orders.{IsSomeGraph};
ghost use Rattle.candidate_states.specs.Roots.{IsTrim, IsRootOf};

use super::making::{make_all, make_state};
use super::room::Room;
use super::states::begin;
use automaton_model::Registry;
use candidate_graph::Graph;
use mine_model::NoMemory;

/// The number of the state that accepts the candidates of a graph, whose node 0 is that of the empty prefix.
/// Where memory is wanting, states of other prefixes may have been added.
pub fn root_state(graph: &Graph, registry: &mut Registry, room: &mut Room) -> Result<u32, NoMemory>
    requires graph { IsSomeGraph graph.now.nodes }
    requires whole { IsWhole graph.now.nodes }
    requires trim { IsTrim graph.now.nodes }
    requires root { 0 < length graph.now.nodes }
    ensures root { IfOk result (λ root. IsRootOf graph.now.nodes registry.new root) }
    ensures grows { (more : List StateValue) × (registry.new ≡ registry.old ++ more) }
    ensures registry { IsRegistry registry.new }
{
    // It is a registry, also where memory is wanting.
    let _count = registry.len();
    room.order.set(graph)?;
    begin(&mut room.made, graph.count())?;
    let order = room.order.turns();
    make_all(graph, order, registry, &mut room.state, &mut room.made)?;
    make_state(graph, 0, false, registry, &mut room.state, &mut room.made)
}
