//! States that are kept once each.

ghost use Rattle.std.specs.Prelude.{◌≡◌, ◌<◌, ◌^◌, [], map, length, slice_get, Some, Contains, IsOk, IfOk, OnErr, IsTrue, ◌↔◌};
ghost use Rattle.mine_model.specs.Lists.{AddsTo};
ghost use Rattle.automaton_model.specs.Automata.{state_of};
ghost use Rattle.automaton_model.specs.Registry.{IsKeptState, IsRegistry};

use super::state::State;
use indexmap::IndexSet;
use mine_model::NoMemory;
use std::alloc::Global;
use std::marker::Model;

/// States of automata by their numbers, each once. Edges lead to states with lesser numbers, so states that
/// accept the same lists have the same number.
#[derive(Drop)]
pub struct Registry {
    alloc: Global,
    states: IndexSet<State>,
}

impl Model for Registry {
    ghost use Rattle.std.specs.Prelude.{List, ◌<◌, ◌^◌, map, length};
    ghost use Rattle.automaton_model.specs.Automata.{StateValue, state_of};
    ghost use Rattle.automaton_model.specs.Registry.{IsRegistry};

    ghost Value = { List StateValue };

    ghost view = { λ r. map state_of r.states.keys };

    ghost invariant = { λ r. IsRegistry (map state_of r.states.keys) × (length r.states.keys < 2 ^ 32) };
}

impl Registry {
    /// No states. Takes no memory.
    pub fn new(alloc: Global) -> Registry
        ensures { result ≡ [] }
    {
        Registry {
            alloc,
            states: IndexSet::new(alloc),
        }
    }

    /// Forgets all states, and keeps the table's memory.
    pub fn clear(&mut self)
        ensures { self.new ≡ [] }
    {
        self.states.clear();
    }

    /// How many states there are.
    pub fn len(&self) -> usize
        ensures count { result ≡ length self.now }
        ensures few { length self.now < 2 ^ 32 }
        ensures registry { IsRegistry self.now }
    {
        self.states.len()
    }

    pub fn is_empty(&self) -> bool
        ensures { IsTrue result ↔ (length self.now ≡ 0) }
    {
        self.states.is_empty()
    }

    /// The number of the state, which is added behind the others if it is new. One that stands takes no
    /// memory. It also wants memory where 2^32 - 1 states have numbers.
    pub fn number(&mut self, state: &State) -> Result<u32, NoMemory>
        requires { IsKeptState self.old (length self.old) (state_of state.now) }
        ensures number { IfOk result (λ number. slice_get self.new number ≡ Some (state_of state.now)) }
        ensures grows { AddsTo self.old (state_of state.now) self.new }
        ensures registry { IsRegistry self.new }
        ensures held { Contains self.old (state_of state.now) → IsOk result }
        ensures err { OnErr result (self.new ≡ self.old) }
    {
        if let Some(index) = self.states.get_index_of(state) {
            return Ok(index as u32);
        }
        let count = self.states.len();
        if count >= u32::MAX as usize {
            return Err(NoMemory);
        }
        let edges = Vec::from_slice(self.alloc, state.edges.as_slice())?;
        self.states.insert(State {
            accepts: state.accepts,
            edges,
        })?;
        Ok(count as u32)
    }

    /// The state with the number.
    pub fn state(&self, number: u32) -> &State
        requires { number < length self.now }
        ensures { slice_get self.now number ≡ Some (state_of result.now) }
    {
        &self.states.as_slice()[number as usize]
    }
}
