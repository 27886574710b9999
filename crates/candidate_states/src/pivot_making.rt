//! States of nodes for the candidates with a pivot.

ghost use Rattle.std.specs.Prelude.{◌≡◌, ℕ, ◌≤◌, ◌<◌, ◌++◌, IsTrue, List, length, AllPairs, Contains, OnOk};
ghost use Rattle.automaton_model.specs.Automata.{StateValue};
ghost use Rattle.automaton_model.specs.Registry.{IsRegistry};
ghost use Rattle.candidate_graph.specs.declared.edge.Edge.{Edge as Edged};
ghost use Rattle.candidate_graph.specs.Graphs.{IsWhole};
ghost use Rattle.candidate_graph.specs.Paths.{HasEdge};
ghost use Rattle.candidate_states.specs.declared.stages.Stage.{Stage as At};
ghost use Rattle.graph_order.specs.Orders.{IsSomeGraph, AreInOrder};
ghost use Rattle.candidate_states.specs.Stages.{asked_in, stage_behind, IsClosed, AreNumbered, KeepsNumbers, IsSettled, IsSettledAt, AreLinked};

use super::asked::{Asked, is_asked};
use super::numbers::{Numbers, enter_number, number_of};
use super::stages::{Stage, behind, is_ending};
use super::steps::steps_of;
use automaton_model::{Edge, Registry, State};
use candidate_graph::{Edge as Step, Graph};
use graph_order::Turn;
use mine_model::NoMemory;

/// Makes the states of all nodes at the stages at which they are asked for, node by node.
pub(crate) fn number_all(
    graph: &Graph,
    order: &[Turn],
    pivot: u32,
    asked: &[Asked],
    registry: &mut Registry,
    state: &mut State,
    numbers: &mut Vec<Numbers>,
) -> Result<(), NoMemory>
    requires graph { IsSomeGraph graph.now.nodes }
    requires whole { IsWhole graph.now.nodes }
    requires order { AreInOrder graph.now.nodes order.now }
    requires asked { length asked.now ≡ length graph.now.nodes }
    requires closed { (node : ℕ) → node < length graph.now.nodes
        → IsClosed graph.now.nodes pivot asked.now node }
    requires long { length numbers.old.items ≡ length graph.now.nodes }
    requires states { AreNumbered graph.now.nodes pivot registry.old numbers.old.items }
    requires registry { IsRegistry registry.old }
    ensures grows { (more : List StateValue) × (registry.new ≡ registry.old ++ more) }
    ensures registry { IsRegistry registry.new }
    ensures long { length numbers.new.items ≡ length graph.now.nodes }
    ensures states { AreNumbered graph.now.nodes pivot registry.new numbers.new.items }
    ensures settled { OnOk result ((node : ℕ) → node < length graph.now.nodes
        → IsSettled graph.now.nodes pivot asked.now numbers.new.items node) }
{
    for turn in order {
        number_node(graph, turn.node, pivot, asked, registry, state, numbers)?;
    }
    Ok(())
}

/// Makes the states of a node at the stages at which it is asked for.
fn number_node(
    graph: &Graph,
    node: u32,
    pivot: u32,
    asked: &[Asked],
    registry: &mut Registry,
    state: &mut State,
    numbers: &mut Vec<Numbers>,
) -> Result<(), NoMemory>
    requires graph { IsSomeGraph graph.now.nodes }
    requires whole { IsWhole graph.now.nodes }
    requires node { node < length graph.now.nodes }
    requires asked { length asked.now ≡ length graph.now.nodes }
    requires closed { IsClosed graph.now.nodes pivot asked.now node }
    requires targets { (rank : ℕ) (edge : Edged) → HasEdge graph.now.nodes node rank edge
        → IsSettled graph.now.nodes pivot asked.now numbers.old.items edge.next }
    requires long { length numbers.old.items ≡ length graph.now.nodes }
    requires states { AreNumbered graph.now.nodes pivot registry.old numbers.old.items }
    requires registry { IsRegistry registry.old }
    ensures grows { (more : List StateValue) × (registry.new ≡ registry.old ++ more) }
    ensures registry { IsRegistry registry.new }
    ensures long { length numbers.new.items ≡ length graph.now.nodes }
    ensures keeps { KeepsNumbers numbers.old.items numbers.new.items }
    ensures states { AreNumbered graph.now.nodes pivot registry.new numbers.new.items }
    ensures settled { OnOk result (IsSettled graph.now.nodes pivot asked.now numbers.new.items node) }
{
    number_at(
        graph,
        node,
        Stage::Before,
        pivot,
        asked,
        registry,
        state,
        numbers,
    )?;
    number_at(
        graph,
        node,
        Stage::Going,
        pivot,
        asked,
        registry,
        state,
        numbers,
    )?;
    number_at(
        graph,
        node,
        Stage::Ending,
        pivot,
        asked,
        registry,
        state,
        numbers,
    )?;
    Ok(())
}

/// Makes the state of a node at the stage, if it is asked for at this and something is accepted there.
fn number_at(
    graph: &Graph,
    node: u32,
    stage: Stage,
    pivot: u32,
    asked: &[Asked],
    registry: &mut Registry,
    state: &mut State,
    numbers: &mut Vec<Numbers>,
) -> Result<(), NoMemory>
    requires graph { IsSomeGraph graph.now.nodes }
    requires whole { IsWhole graph.now.nodes }
    requires node { node < length graph.now.nodes }
    requires asked { length asked.now ≡ length graph.now.nodes }
    requires closed { IsClosed graph.now.nodes pivot asked.now node }
    requires targets { (rank : ℕ) (edge : Edged) → HasEdge graph.now.nodes node rank edge
        → IsSettled graph.now.nodes pivot asked.now numbers.old.items edge.next }
    requires long { length numbers.old.items ≡ length graph.now.nodes }
    requires states { AreNumbered graph.now.nodes pivot registry.old numbers.old.items }
    requires registry { IsRegistry registry.old }
    ensures grows { (more : List StateValue) × (registry.new ≡ registry.old ++ more) }
    ensures registry { IsRegistry registry.new }
    ensures long { length numbers.new.items ≡ length graph.now.nodes }
    ensures keeps { KeepsNumbers numbers.old.items numbers.new.items }
    ensures states { AreNumbered graph.now.nodes pivot registry.new numbers.new.items }
    ensures settled { OnOk result (IsTrue (asked_in asked.now node stage)
        → IsSettledAt graph.now.nodes pivot numbers.new.items node stage) }
{
    if !is_asked(asked, node, stage) {
        return Ok(());
    }
    let steps = steps_of(graph, node, pivot);
    link(steps, stage, pivot, numbers.as_slice(), &mut state.edges)?;
    state.accepts = is_ending(stage);
    if !state.accepts && state.edges.is_empty() {
        return Ok(());
    }
    let number = registry.number(state)?;
    enter_number(numbers, node, stage, number);
    Ok(())
}

/// An edge for each of these that leads to a state, in place of those before.
fn link(
    steps: &[Step],
    stage: Stage,
    pivot: u32,
    numbers: &[Numbers],
    edges: &mut Vec<Edge>,
) -> Result<(), NoMemory>
    requires rising { AllPairs (λ low high. low.rank < high.rank) steps.now }
    requires within { (step : Edged) → Contains steps.now step → step.next < length numbers.now }
    ensures { OnOk result (AreLinked numbers.now pivot stage steps.now edges.new.items) }
{
    edges.clear();
    for step in steps {
        if let Some(to) = number_of(numbers, step.next, behind(pivot, stage, *step)) {
            edges.push(Edge {
                rank: step.rank,
                to,
            })?;
        }
    }
    Ok(())
}
