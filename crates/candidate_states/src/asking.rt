//! Which nodes the root asks for, at which stages.

ghost use Rattle.std.specs.Prelude.{◌≡◌, ℕ, ◌≤◌, ◌<◌, ◌⊎◌, IsTrue, length};
ghost use Rattle.candidate_graph.specs.declared.edge.Edge.{Edge as Edged};
ghost use Rattle.candidate_graph.specs.Graphs.{IsWhole};
ghost use Rattle.candidate_graph.specs.Paths.{HasEdge};
ghost use Rattle.candidate_states.specs.declared.stages.Stage.{Stage as At};
ghost use Rattle.graph_order.specs.Orders.{IsSomeGraph, AreInOrder};
ghost use Rattle.candidate_states.specs.Stages.{asked_in, stage_behind, IsTarget, KeepsAsked, IsClosed, IsClosedAt};

use super::asked::{Asked, ask, is_asked};
use super::stages::{Stage, behind};
use super::steps::steps_of;
use candidate_graph::Graph;
use graph_order::Turn;

/// Asks for all that is asked for behind what is asked for already.
pub(crate) fn ask_all(graph: &Graph, order: &[Turn], pivot: u32, asked: &mut Vec<Asked>)
    requires graph { IsSomeGraph graph.now.nodes }
    requires whole { IsWhole graph.now.nodes }
    requires order { AreInOrder graph.now.nodes order.now }
    requires long { length asked.old.items ≡ length graph.now.nodes }
    ensures long { length asked.new.items ≡ length graph.now.nodes }
    ensures keeps { KeepsAsked asked.old.items asked.new.items }
    ensures closed { (node : ℕ) → node < length graph.now.nodes
        → IsClosed graph.now.nodes pivot asked.new.items node }
{
    for index in (0..order.len()).rev() {
        ask_behind(graph, order[index].node, pivot, asked);
    }
}

/// Asks for what is asked for behind a node at the stages at which it is asked for.
fn ask_behind(graph: &Graph, node: u32, pivot: u32, asked: &mut Vec<Asked>)
    requires graph { IsSomeGraph graph.now.nodes }
    requires whole { IsWhole graph.now.nodes }
    requires node { node < length graph.now.nodes }
    requires long { length asked.old.items ≡ length graph.now.nodes }
    ensures long { length asked.new.items ≡ length graph.now.nodes }
    ensures keeps { KeepsAsked asked.old.items asked.new.items }
    ensures others { (other : ℕ) (stage : At) → IsTrue (asked_in asked.new.items other stage)
        → IsTrue (asked_in asked.old.items other stage) ⊎ IsTarget graph.now.nodes node other }
    ensures closed { (IsTarget graph.now.nodes node node → ⊥)
        → IsClosed graph.now.nodes pivot asked.new.items node }
{
    ask_at(graph, node, Stage::Before, pivot, asked);
    ask_at(graph, node, Stage::Going, pivot, asked);
    ask_at(graph, node, Stage::Ending, pivot, asked);
}

/// Asks for what is asked for behind a node at the stage, if it is asked for at this.
fn ask_at(graph: &Graph, node: u32, stage: Stage, pivot: u32, asked: &mut Vec<Asked>)
    requires graph { IsSomeGraph graph.now.nodes }
    requires whole { IsWhole graph.now.nodes }
    requires node { node < length graph.now.nodes }
    requires long { length asked.old.items ≡ length graph.now.nodes }
    ensures long { length asked.new.items ≡ length graph.now.nodes }
    ensures keeps { KeepsAsked asked.old.items asked.new.items }
    ensures others { (other : ℕ) (stage : At) → IsTrue (asked_in asked.new.items other stage)
        → IsTrue (asked_in asked.old.items other stage) ⊎ IsTarget graph.now.nodes node other }
    ensures closed { IsTrue (asked_in asked.old.items node stage)
        → IsClosedAt graph.now.nodes pivot asked.new.items node stage }
{
    if !is_asked(asked.as_slice(), node, stage) {
        return;
    }
    let steps = steps_of(graph, node, pivot);
    for step in steps {
        ask(asked, step.next, behind(pivot, stage, *step));
    }
}
