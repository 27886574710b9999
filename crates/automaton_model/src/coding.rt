//! The code of what a state accepts.

ghost use Rattle.std.specs.Prelude.{◌≡◌, ◌<◌, ◌++◌, List, [], map, length, reverse, Contains, IfOk, OnOk};
ghost use Rattle.automaton_model.specs.Automata.{Edge as RankEdge, state_of, state_code, Accepts};
ghost use Rattle.automaton_model.specs.Codes.{IsCodeOf};
ghost use Rattle.automaton_model.specs.Registry.{IsRegistry};
ghost use Rattle.automaton_model.specs.Walks.{AreVisited, renumbered};

use super::automaton::Automaton;
use super::registry::Registry;
use super::state::{Edge, State};
use indexmap::IndexSet;
use mine_model::NoMemory;
use std::alloc::Global;

/// The minimal automaton of the lists that the state with the number accepts. Takes time by the states that
/// can be reached from it and their edges.
pub fn code_from(alloc: Global, registry: &Registry, root: u32) -> Result<Automaton, NoMemory>
    requires { root < length registry.now }
    ensures { IfOk result (λ automaton. IsCodeOf (Accepts registry.now root) automaton) }
{
    let visited = visit_all(alloc, registry, root)?;
    let mut code = Vec::new(alloc);
    'states: for number in visited.as_slice() {
        push_state(&mut code, registry.state(*number), &visited)?;
    }
    Ok(Automaton::new(code))
}

// The states that can be reached from the root, in the order in which a depth-first walk by rising rank
// visits them: a state is visited when it is taken from the stack.
fn visit_all(alloc: Global, registry: &Registry, root: u32) -> Result<IndexSet<u32>, NoMemory>
    requires { root < length registry.now }
    ensures visited { IfOk result (λ visited. AreVisited registry.now root visited.keys []) }
    ensures registry { IsRegistry registry.now }
{
    // No state of the registry stands twice.
    let _count = registry.len();
    let mut visited = IndexSet::new(alloc);
    let mut waiting = Vec::new(alloc);
    waiting.push(root)?;
    'states: while let Some(number) = waiting.pop() {
        let (_index, new) = visited.insert_full(number)?;
        if new {
            push_targets(&mut waiting, registry.state(number).edges.as_slice())?;
        }
    }
    Ok(visited)
}

// The states to which the edges lead wait, that of the first edge on top.
fn push_targets(waiting: &mut Vec<u32>, edges: &[Edge]) -> Result<(), NoMemory>
    ensures { OnOk result (waiting.new.items
        ≡ waiting.old.items ++ map (λ (edge : RankEdge). edge.to) (reverse edges.now)) }
{
    'edges: for edge in edges.iter().rev() {
        waiting.push(edge.to)?;
    }
    Ok(())
}

// Writes a state, whose edges lead to the places of the states that were visited.
fn push_state(code: &mut Vec<u32>, state: &State, visited: &IndexSet<u32>) -> Result<(), NoMemory>
    requires { (edge : RankEdge) → Contains state.now.edges.items edge → Contains visited.now.keys edge.to }
    ensures { OnOk result (code.new.items
        ≡ code.old.items ++ state_code (renumbered visited.now.keys (state_of state.now))) }
{
    code.push(u32::from(state.accepts))?;
    code.push(to_number(state.edges.len())?)?;
    'edges: for edge in state.edges.as_slice() {
        let to = visited.get_index_of(&edge.to).unwrap();
        code.push(edge.rank)?;
        code.push(to_number(to)?)?;
    }
    Ok(())
}

// The number, where it is one of 32 bits.
fn to_number(index: usize) -> Result<u32, NoMemory>
    ensures { IfOk result (λ number. number ≡ index) }
{
    match u32::try_from(index) {
        Ok(number) => Ok(number),
        Err(_) => Err(NoMemory),
    }
}
