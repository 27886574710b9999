//! The state of the empty prefix for the candidates with a pivot.

ghost use Rattle.std.specs.Prelude.{◌≡◌, ◌<◌, ◌++◌, List, length, IfOk};
ghost use Rattle.automaton_model.specs.Automata.{StateValue};
ghost use Rattle.automaton_model.specs.Registry.{IsRegistry};
ghost use Rattle.candidate_graph.specs.Graphs.{IsWhole};
ghost use Rattle.graph_order.specs.Orders.{IsSomeGraph, AreInOrder};
ghost use Rattle.candidate_states.specs.Roots.{IsPivotRootOf};

use super::asked::{ask, begin_asked};
use super::asking::ask_all;
use super::numbers::{begin_numbers, number_of};
use super::pivot_making::number_all;
use super::room::Room;
use super::stages::Stage;
use automaton_model::Registry;
use candidate_graph::Graph;
use graph_order::Order;
use mine_model::NoMemory;

/// The number of the state that accepts those candidates of a graph whose greatest rank is the pivot. Node 0
/// is that of the empty prefix. Only nodes behind ranks up to the pivot are visited. Where memory is wanting,
/// states of other prefixes may have been added.
pub fn pivot_state(
    graph: &Graph,
    order: &Order,
    pivot: u32,
    registry: &mut Registry,
    room: &mut Room,
) -> Result<u32, NoMemory>
    requires graph { IsSomeGraph graph.now.nodes }
    requires whole { IsWhole graph.now.nodes }
    requires order { AreInOrder graph.now.nodes order.now }
    requires root { 0 < length graph.now.nodes }
    ensures root { IfOk result (λ root. IsPivotRootOf graph.now.nodes pivot registry.new root) }
    ensures grows { (more : List StateValue) × (registry.new ≡ registry.old ++ more) }
    ensures registry { IsRegistry registry.new }
{
    // It is a registry, also where memory is wanting.
    let _count = registry.len();
    let turns = order.turns();
    begin_asked(&mut room.asked, graph.count())?;
    begin_numbers(&mut room.numbers, graph.count())?;
    ask(&mut room.asked, 0, Stage::Before);
    ask_all(graph, turns, pivot, &mut room.asked);
    let asked = room.asked.as_slice();
    number_all(
        graph,
        turns,
        pivot,
        asked,
        registry,
        &mut room.state,
        &mut room.numbers,
    )?;
    if let Some(root) = number_of(room.numbers.as_slice(), 0, Stage::Before) {
        return Ok(root);
    }
    room.state.accepts = false;
    room.state.edges.clear();
    Ok(registry.number(&room.state)?)
}
