//! Steps along edges.

ghost use Rattle.std.specs.Prelude.{◌≡◌, ◌≢◌, ◌^◌, ◌≤◌, ◌<◌, ◌++◌, ◌∷◌, [], true, false, length, slice_get, Some, Contains, OnOk};
ghost use Rattle.std.specs.List.Sorted.{IsPermutation};
ghost use Rattle.automaton_model.specs.Automata.{Accepts};
ghost use Rattle.group_search.specs.declared.loads.LoadedState.{LoadedState};
ghost use Rattle.group_search.specs.Steps.{state_at, weigh, weigh_steps, weigh_by, steps_along, steps_of, AreByRank, IsRun};

use super::automata::Automata;
use super::loads::LoadedState;
use automaton_model::Edge;
use mine_model::NoMemory;

/// What goes along an edge: the rank, the state to which the edge leads, and the weight that goes.
#[derive(Clone, Copy, Debug)]
pub(crate) struct Step {
    pub(crate) rank: u32,
    pub(crate) state: u32,
    pub(crate) weight: u64,
}

// What the loads weigh at whose states a list may end.
pub(crate) fn weight_here<A: Automata>(automata: &A, loads: &[LoadedState]) -> u64
    requires there { (load : LoadedState) → Contains loads.now load
        → load.state < length (A.states_of automata.now) }
    requires fits { weigh (λ state. true) loads.now < 2 ^ 64 }
    ensures { result ≡ weigh (λ state. (state_at (A.states_of automata.now) state).accepts) loads.now }
{
    let mut weight = 0;
    'loads: for load in loads {
        if automata.accepts(load.state) {
            weight += load.weight;
        }
    }
    weight
}

// The steps of the loads, by rising rank, and those by one rank by the states to which they lead.
pub(crate) fn collect_steps<A: Automata>(
    automata: &A,
    loads: &[LoadedState],
    steps: &mut Vec<Step>,
) -> Result<(), NoMemory>
    requires { (load : LoadedState) → Contains loads.now load
        → load.state < length (A.states_of automata.now) }
    ensures same { OnOk result (IsPermutation (steps_of (A.states_of automata.now) loads.now)
        steps.new.items) }
    ensures sorted { OnOk result (AreByRank steps.new.items) }
{
    steps.clear();
    'loads: for load in loads {
        push_steps(steps, automata.edges(load.state), load.weight)?;
    }
    steps.sort_unstable_by_key(|step| (step.rank, step.state));
    Ok(())
}

// Adds the steps along the edges.
fn push_steps(steps: &mut Vec<Step>, edges: &[Edge], weight: u64) -> Result<(), NoMemory>
    ensures { OnOk result (steps.new.items ≡ steps.old.items ++ steps_along weight edges.now) }
{
    'edges: for edge in edges {
        steps.push(Step {
            rank: edge.rank,
            state: edge.to,
            weight,
        })?;
    }
    Ok(())
}

// What the steps weigh together.
pub(crate) fn weight_of(steps: &[Step]) -> u64
    requires { weigh_steps (λ state. true) steps.now < 2 ^ 64 }
    ensures { result ≡ weigh_steps (λ state. true) steps.now }
{
    let mut weight = 0;
    'steps: for step in steps {
        weight += step.weight;
    }
    weight
}

// The first steps, which go by the rank of the first, and the later ones.
pub(crate) fn run_of(steps: &[Step], rank: u32) -> (&[Step], &[Step])
    requires sorted { AreByRank steps.now }
    requires first { (step : _) → slice_get steps.now 0 ≡ Some step → step.rank ≡ rank }
    ensures all { steps.now ≡ result.0.now ++ result.1.now }
    ensures run { IsRun rank result.0.now result.1.now }
    ensures some { 0 < length steps.now → 0 < length result.0.now }
{
    'same: for (end, step) in steps.iter().enumerate() {
        if step.rank != rank {
            return steps.split_at(end);
        }
    }
    steps.split_at(steps.len())
}
