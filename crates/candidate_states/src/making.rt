//! States of nodes.

ghost use Rattle.std.specs.Prelude.{◌≡◌, ℕ, ◌<◌, ◌++◌, Some, List, length, slice_get, Contains, IfOk, OnOk};
ghost use Rattle.std.specs.List.{AllZip};
ghost use Rattle.automaton_model.specs.Automata.{StateValue};
ghost use Rattle.automaton_model.specs.Registry.{IsRegistry};
ghost use Rattle.candidate_graph.specs.declared.edge.Edge.{Edge as Edged};
ghost use Rattle.candidate_graph.specs.Graphs.{IsWhole};
ghost use Rattle.candidate_graph.specs.Paths.{HasEdge};
ghost use Rattle.graph_order.specs.Orders.{IsSomeGraph, AreInOrder};
ghost use Rattle.candidate_states.specs.Roots.{IsTrim};
ghost use Rattle.candidate_states.specs.Kept.{state_in, IsMoved, AreStates, Keeps, HasTargets};

use super::states::{Made, enter, state_of};
use automaton_model::{Edge, Registry, State};
use candidate_graph::{Edge as Step, Graph};
use graph_order::Turn;
use mine_model::NoMemory;

/// Makes the states to which edges of the nodes lead, node by node.
pub(crate) fn make_all(
    graph: &Graph,
    order: &[Turn],
    registry: &mut Registry,
    state: &mut State,
    made: &mut Vec<Made>,
) -> Result<(), NoMemory>
    requires graph { IsSomeGraph graph.now.nodes }
    requires whole { IsWhole graph.now.nodes }
    requires trim { IsTrim graph.now.nodes }
    requires order { AreInOrder graph.now.nodes order.now }
    requires long { length made.old.items ≡ length graph.now.nodes }
    requires states { AreStates graph.now.nodes registry.old made.old.items }
    requires registry { IsRegistry registry.old }
    ensures grows { (more : List StateValue) × (registry.new ≡ registry.old ++ more) }
    ensures registry { IsRegistry registry.new }
    ensures long { length made.new.items ≡ length graph.now.nodes }
    ensures states { AreStates graph.now.nodes registry.new made.new.items }
    ensures targets { OnOk result ((node : ℕ) → node < length graph.now.nodes
        → HasTargets graph.now.nodes made.new.items node) }
{
    for turn in order {
        make_targets(graph, turn.node, registry, state, made)?;
    }
    Ok(())
}

/// Makes the states to which the edges of a node lead.
fn make_targets(
    graph: &Graph,
    node: u32,
    registry: &mut Registry,
    state: &mut State,
    made: &mut Vec<Made>,
) -> Result<(), NoMemory>
    requires graph { IsSomeGraph graph.now.nodes }
    requires whole { IsWhole graph.now.nodes }
    requires trim { IsTrim graph.now.nodes }
    requires node { node < length graph.now.nodes }
    requires targets { (rank : ℕ) (edge : Edged) → HasEdge graph.now.nodes node rank edge
        → HasTargets graph.now.nodes made.old.items edge.next }
    requires long { length made.old.items ≡ length graph.now.nodes }
    requires states { AreStates graph.now.nodes registry.old made.old.items }
    requires registry { IsRegistry registry.old }
    ensures grows { (more : List StateValue) × (registry.new ≡ registry.old ++ more) }
    ensures registry { IsRegistry registry.new }
    ensures long { length made.new.items ≡ length graph.now.nodes }
    ensures keeps { Keeps made.old.items made.new.items }
    ensures states { AreStates graph.now.nodes registry.new made.new.items }
    ensures targets { OnOk result (HasTargets graph.now.nodes made.new.items node) }
{
    let edges = graph.edges_of(node);
    for edge in edges {
        make_state(graph, edge.next, edge.ends, registry, state, made)?;
    }
    Ok(())
}

/// Makes the state of a node, if it was not made before.
pub(crate) fn make_state(
    graph: &Graph,
    node: u32,
    ends: bool,
    registry: &mut Registry,
    state: &mut State,
    made: &mut Vec<Made>,
) -> Result<u32, NoMemory>
    requires graph { IsSomeGraph graph.now.nodes }
    requires whole { IsWhole graph.now.nodes }
    requires trim { IsTrim graph.now.nodes }
    requires node { node < length graph.now.nodes }
    requires targets { HasTargets graph.now.nodes made.old.items node }
    requires long { length made.old.items ≡ length graph.now.nodes }
    requires states { AreStates graph.now.nodes registry.old made.old.items }
    requires registry { IsRegistry registry.old }
    ensures grows { (more : List StateValue) × (registry.new ≡ registry.old ++ more) }
    ensures registry { IsRegistry registry.new }
    ensures long { length made.new.items ≡ length graph.now.nodes }
    ensures keeps { Keeps made.old.items made.new.items }
    ensures states { AreStates graph.now.nodes registry.new made.new.items }
    ensures made { IfOk result (λ number. state_in made.new.items node ends ≡ Some number) }
{
    if let Some(number) = state_of(made.as_slice(), node, ends) {
        return Ok(number);
    }
    write_edges(graph.edges_of(node), made.as_slice(), &mut state.edges)?;
    state.accepts = ends;
    let number = registry.number(state)?;
    enter(made, node, ends, number);
    Ok(number)
}

/// The edges to the states to which those of a node lead, in place of those before.
fn write_edges(steps: &[Step], made: &[Made], edges: &mut Vec<Edge>) -> Result<(), NoMemory>
    requires within { (step : Edged) → Contains steps.now step → step.next < length made.now }
    requires made { (step : Edged) → Contains steps.now step
        → (number : ℕ) × (state_in made.now step.next step.ends ≡ Some number) }
    ensures { OnOk result (AllZip (IsMoved made.now) steps.now edges.new.items) }
{
    edges.clear();
    for step in steps {
        edges.push(Edge {
            rank: step.rank,
            to: known(made, step.next, step.ends),
        })?;
    }
    Ok(())
}

/// The number of the state of the node, which was made.
#[inline]
fn known(made: &[Made], node: u32, ends: bool) -> u32
    requires within { node < length made.now }
    requires made { (number : ℕ) × (state_in made.now node ends ≡ Some number) }
    ensures { state_in made.now node ends ≡ Some result }
{
    state_of(made, node, ends).unwrap()
}
