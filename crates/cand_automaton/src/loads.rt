//! Loads at states, each state once.

ghost use Rattle.std.specs.Prelude.{◌≡◌, ◌<◌, ◌+◌, ◌^◌, [], map, sum_by, OnOk};
ghost use Rattle.automaton_model.specs.Searches.{Load};
ghost use Rattle.group_search.specs.Found.{load_of};
ghost use Rattle.cand_automaton.specs.Loads.{IsLoaded};

use group_search::LoadedState;
use indexmap::IndexSet;
use mine_model::NoMemory;
use std::alloc::Global;
use std::marker::Model;

/// Loads at states, one at each. The states stand in the order in which they came.
#[derive(Drop)]
pub(crate) struct Loads {
    states: IndexSet<u32>,
    held: Vec<LoadedState>,
}

impl Model for Loads {
    ghost use Rattle.std.specs.Prelude.{◌≡◌, List, map};
    ghost use Rattle.automaton_model.specs.Searches.{Load};
    ghost use Rattle.group_search.specs.declared.loads.LoadedState.{LoadedState};
    ghost use Rattle.group_search.specs.Found.{load_of};

    ghost Value = { List Load };

    ghost view = { λ l. map load_of l.held.items };

    ghost invariant = { λ l. l.states.keys ≡ map (λ (held : LoadedState). held.state) l.held.items };
}

impl Loads {
    /// No loads. Takes no memory.
    pub(crate) fn new(alloc: Global) -> Loads
        ensures { result ≡ [] }
    {
        Loads {
            states: IndexSet::new(alloc),
            held: Vec::new(alloc),
        }
    }

    /// Forgets all loads, and keeps their memory.
    pub(crate) fn clear(&mut self)
        ensures { self.new ≡ [] }
    {
        self.states.clear();
        self.held.clear();
    }

    /// Adds the weight to what the state is loaded with.
    pub(crate) fn add(&mut self, state: u32, weight: u64) -> Result<(), NoMemory>
        requires { sum_by (λ (load : Load). load.weight) self.old + weight < 2 ^ 64 }
        ensures { OnOk result (IsLoaded self.old state weight self.new) }
    {
        self.held.reserve(1)?;
        let (place, new) = self.states.insert_full(state)?;
        if new {
            self.held.push(LoadedState { state, weight }).unwrap();
        } else {
            self.held[place].weight += weight;
        }
        Ok(())
    }

    /// The loads. Takes no memory.
    pub(crate) fn as_slice(&self) -> &[LoadedState]
        ensures { map load_of result.now ≡ self.now }
    {
        self.held.as_slice()
    }
}
