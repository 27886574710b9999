//! The automata of groups, read from their codes.

ghost use Rattle.std.specs.Prelude.{◌≡◌, ◌<◌, ◌++◌, ◌∷◌, [], ℕ, List, length, Some, slice_get, Contains, IfOk, OnOk};
ghost use Rattle.std.specs.List.{AllZip};
ghost use Rattle.automaton_model.specs.declared.groups.Group.{Group as SetGroup};
ghost use Rattle.automaton_model.specs.Automata.{StateValue, code_of};
ghost use Rattle.group_search.specs.declared.loads.LoadedState.{LoadedState};
ghost use Rattle.group_search.specs.Searched.{IsTrim, IsSearched};
ghost use Rattle.group_search.specs.Decoded.{states_in, AreHeld, edges_in, shifted, IsAdded, IsRoot};

use super::automata::Automata;
use super::loads::LoadedState;
use automaton_model::{Edge, Group};
use mine_model::NoMemory;
use std::marker::Model;

/// A state: whether a list may end there, and where its edges stand among all.
#[derive(Clone, Copy, Debug)]
pub(crate) struct Head {
    pub(crate) accepts: bool,
    pub(crate) from: usize,
    pub(crate) end: usize,
}

/// The states of automata, those of one behind those of another, and their edges.
#[derive(Drop)]
pub(crate) struct Decoded {
    heads: Vec<Head>,
    edges: Vec<Edge>,
}

impl Model for Decoded {
    ghost use Rattle.std.specs.Prelude.{List};
    ghost use Rattle.automaton_model.specs.Automata.{StateValue};
    ghost use Rattle.group_search.specs.Decoded.{states_in, AreHeld};

    ghost Value = { List StateValue };

    ghost view = { λ d. states_in d.heads.items d.edges.items };

    ghost invariant = { λ d. AreHeld d.heads.items d.edges.items };
}

impl Decoded {
    // The states with these heads and edges. Takes no memory.
    pub(crate) fn new(heads: Vec<Head>, edges: Vec<Edge>) -> Decoded
        requires { AreHeld heads.items edges.items }
        ensures { result ≡ states_in heads.items edges.items }
    {
        Decoded { heads, edges }
    }
}

impl Automata for Decoded {
    ghost states_of = { λ decoded. decoded };

    fn accepts(&self, number: u32) -> bool {
        self.heads[number as usize].accepts
    }

    fn edges(&self, number: u32) -> &[Edge] {
        let head = self.heads[number as usize];
        &self.edges[head.from..head.end]
    }
}

// Reads the automata of the groups, and adds a load for each at its first state.
pub(crate) fn decode_all(
    groups: &[Group],
    heads: &mut Vec<Head>,
    edges: &mut Vec<Edge>,
    loads: &mut Vec<LoadedState>,
) -> Result<(), NoMemory>
    requires codes { (group : SetGroup) → Contains groups.now group
        → (count : ℕ) × (most : ℕ) × IsSearched count most group.automaton }
    requires heads { heads.old.items ≡ [] }
    requires loads { loads.old.items ≡ [] }
    ensures held { OnOk result (AreHeld heads.new.items edges.new.items) }
    ensures trim { OnOk result (IsTrim (states_in heads.new.items edges.new.items)) }
    ensures roots { OnOk result (AllZip (IsRoot (states_in heads.new.items edges.new.items))
        loads.new.items groups.now) }
{
    'groups: for group in groups {
        let base = to_number(heads.len())?;
        decode(group.automaton.code(), base, heads, edges)?;
        loads.push(LoadedState {
            state: base,
            weight: group.count,
        })?;
    }
    Ok(())
}

// Adds the states of the code, the first of which gets the number `base`.
fn decode(
    code: &[u32],
    base: u32,
    heads: &mut Vec<Head>,
    edges: &mut Vec<Edge>,
) -> Result<(), NoMemory>
    requires code { (states : List StateValue) × (code.now ≡ code_of states) }
    requires held { AreHeld heads.old.items edges.old.items }
    ensures { OnOk result ((states : List StateValue) × (code.now ≡ code_of states)
        × IsAdded base states heads.old.items edges.old.items heads.new.items edges.new.items) }
{
    let mut left = code;
    'states: while left.len() >= 2 {
        let accepts = left[0] == 1;
        let count = left[1] as usize;
        let (pairs, rest) = left[2..].split_at(2 * count);
        push_state(accepts, pairs, base, heads, edges)?;
        left = rest;
    }
    Ok(())
}

// Adds a state with the edges of these pairs.
fn push_state(
    accepts: bool,
    pairs: &[u32],
    base: u32,
    heads: &mut Vec<Head>,
    edges: &mut Vec<Edge>,
) -> Result<(), NoMemory>
    requires { AreHeld heads.old.items edges.old.items }
    ensures held { OnOk result (AreHeld heads.new.items edges.new.items) }
    ensures states { OnOk result (states_in heads.new.items edges.new.items
        ≡ states_in heads.old.items edges.old.items
        ++ (record { accepts = accepts; edges = edges_in base pairs.now }) ∷ []) }
{
    let from = edges.len();
    push_edges(pairs, base, edges)?;
    heads.push(Head {
        accepts,
        from,
        end: edges.len(),
    })?;
    Ok(())
}

// Adds the edges of these pairs of a rank and a number.
fn push_edges(pairs: &[u32], base: u32, edges: &mut Vec<Edge>) -> Result<(), NoMemory>
    ensures { OnOk result (edges.new.items ≡ edges.old.items ++ edges_in base pairs.now) }
{
    let mut left = pairs;
    'pairs: while left.len() >= 2 {
        let rank = left[0];
        let Some(to) = left[1].checked_add(base) else {
            return Err(NoMemory);
        };
        edges.push(Edge { rank, to })?;
        left = &left[2..];
    }
    Ok(())
}

// The number, where it is one of 32 bits.
fn to_number(index: usize) -> Result<u32, NoMemory>
    ensures { IfOk result (λ number. number ≡ index) }
{
    match u32::try_from(index) {
        Ok(number) => Ok(number),
        Err(_) => Err(NoMemory),
    }
}
