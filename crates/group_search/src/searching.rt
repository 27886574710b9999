//! The search for rows.

ghost use Rattle.std.specs.Prelude.{◌≡◌, ◌^◌, ◌≤◌, ◌<◌, ◌++◌, [], ℕ, List, map, length, sum_by, All, Contains, IfOk, OnOk};
ghost use Rattle.mine_model.specs.Limits.{most_length};
ghost use Rattle.automaton_model.specs.declared.groups.Group.{Group as SetGroup};
ghost use Rattle.automaton_model.specs.Groups.{AreGroupRows};
ghost use Rattle.group_search.specs.declared.loads.LoadedState.{LoadedState};
ghost use Rattle.mine_model.specs.declared.row.Row.{Row as FoundRow};
ghost use Rattle.group_search.specs.Search.{IsSound, IsOwn, IsGrown};
ghost use Rattle.group_search.specs.Waits.{waits_of, IsStacked};
ghost use Rattle.group_search.specs.Found.{load_of, AreLoadedRows};
ghost use Rattle.group_search.specs.Searched.{IsTrim, AreFinite, IsSearched};

use super::automata::Automata;
use super::decoded::{Decoded, decode_all};
use super::loads::LoadedState;
use super::stack::{Stack, push_kids, take_next};
use super::step::{Step, collect_steps, weight_here};
use automaton_model::Group;
use mine_model::{NoMemory, Ranks, Row, pattern_of};
use std::alloc::Global;

/// The rows of what is loaded at the states: the patterns of the lists that are accepted from states whose
/// loads weigh as much as the threshold, with this weight. They come in no stated order. A state may stand in
/// several loads. The lists are no longer than a sequence may be.
pub fn rows_of<A: Automata>(
    alloc: Global,
    ranks: &Ranks,
    automata: &A,
    loads: &[LoadedState],
    threshold: u64,
) -> Result<Vec<Row>, NoMemory>
    requires least { 1 ≤ threshold }
    requires trim { IsTrim (A.states_of automata.now) }
    requires there { (load : LoadedState) → Contains loads.now load
        → load.state < length (A.states_of automata.now) }
    requires finite { AreFinite (A.states_of automata.now) (length ranks.now.order) most_length
        (map load_of loads.now) }
    requires fits { sum_by (λ (load : LoadedState). load.weight) loads.now < 2 ^ 64 }
    ensures { IfOk result (λ rows. AreLoadedRows ranks.now.order threshold (A.states_of automata.now)
        (map load_of loads.now) rows.items) }
{
    let mut rows = Vec::new(alloc);
    let mut stack = Stack::new(alloc);
    let mut steps = Vec::new(alloc);
    let mut current = Vec::new(alloc);
    search(
        alloc,
        ranks,
        automata,
        loads,
        threshold,
        &mut stack,
        &mut steps,
        &mut current,
        &mut rows,
    )?;
    Ok(rows)
}

// Searches for the rows of the loads, over rooms that nothing is in.
fn search<A: Automata>(
    alloc: Global,
    ranks: &Ranks,
    automata: &A,
    loads: &[LoadedState],
    threshold: u64,
    stack: &mut Stack,
    steps: &mut Vec<Step>,
    current: &mut Vec<LoadedState>,
    rows: &mut Vec<Row>,
) -> Result<(), NoMemory>
    requires least { 1 ≤ threshold }
    requires trim { IsTrim (A.states_of automata.now) }
    requires sound { IsSound (A.states_of automata.now) (length ranks.now.order) most_length
        (record { prefix = []; loads = loads.now }) }
    requires stacked { IsStacked stack.old }
    requires prefix { stack.old.prefix.items ≡ [] }
    requires waits { waits_of stack.old ≡ [] }
    requires rows { rows.old.items ≡ [] }
    ensures { OnOk result (AreLoadedRows ranks.now.order threshold (A.states_of automata.now)
        (map load_of loads.now) rows.new.items) }
{
    // For the proof alone: no item has two ranks.
    let _count = ranks.count();
    grow(alloc, ranks, automata, loads, threshold, stack, steps, rows)?;
    'prefixes: loop {
        let more = take_next(stack, current)?;
        if !more {
            return Ok(());
        }
        grow(
            alloc,
            ranks,
            automata,
            current.as_slice(),
            threshold,
            stack,
            steps,
            rows,
        )?;
    }
}

// Grows the prefix with these loads: its row, if they weigh enough, and the longer prefixes.
fn grow<A: Automata>(
    alloc: Global,
    ranks: &Ranks,
    automata: &A,
    loads: &[LoadedState],
    threshold: u64,
    stack: &mut Stack,
    steps: &mut Vec<Step>,
    rows: &mut Vec<Row>,
) -> Result<(), NoMemory>
    requires least { 1 ≤ threshold }
    requires trim { IsTrim (A.states_of automata.now) }
    requires sound { IsSound (A.states_of automata.now) (length ranks.now.order) most_length
        (record { prefix = stack.old.prefix.items; loads = loads.now }) }
    requires stacked { IsStacked stack.old }
    ensures { OnOk result (IsGrown ranks.now.order threshold (A.states_of automata.now) loads.now
        stack.old rows.old.items stack.new rows.new.items) }
{
    let weight = weight_here(automata, loads);
    push_row(
        alloc,
        ranks,
        stack.prefix.as_slice(),
        weight,
        threshold,
        rows,
    )?;
    collect_steps(automata, loads, steps)?;
    push_kids(stack, steps.as_slice(), threshold)?;
    Ok(())
}

// The row of the prefix, where it weighs as much as the threshold.
fn push_row(
    alloc: Global,
    ranks: &Ranks,
    prefix: &[u32],
    weight: u64,
    threshold: u64,
    rows: &mut Vec<Row>,
) -> Result<(), NoMemory>
    requires { threshold ≤ weight → All (λ rank. (1 ≤ rank) × (rank ≤ length ranks.now.order)) prefix.now }
    ensures { OnOk result ((own : List FoundRow) × (rows.new.items ≡ rows.old.items ++ own)
        × IsOwn ranks.now.order threshold prefix.now weight own) }
{
    if weight < threshold {
        return Ok(());
    }
    let pattern = pattern_of(alloc, ranks, prefix)?;
    rows.push(Row {
        pattern,
        support: weight,
    })?;
    Ok(())
}

/// The rows of the groups, in no stated order. Their lists are no longer than a sequence may be.
pub fn rows(
    alloc: Global,
    ranks: &Ranks,
    groups: &[Group],
    threshold: u64,
) -> Result<Vec<Row>, NoMemory>
    requires least { 1 ≤ threshold }
    requires searched { (group : SetGroup) → Contains groups.now group
        → IsSearched (length ranks.now.order) most_length group.automaton }
    requires fits { sum_by (λ (group : SetGroup). group.count) groups.now < 2 ^ 64 }
    ensures { IfOk result (λ rows. AreGroupRows ranks.now.order threshold groups.now rows.items) }
{
    let mut heads = Vec::new(alloc);
    let mut edges = Vec::new(alloc);
    let mut loads = Vec::new(alloc);
    decode_all(groups, &mut heads, &mut edges, &mut loads)?;
    let decoded = Decoded::new(heads, edges);
    rows_of(alloc, ranks, &decoded, loads.as_slice(), threshold)
}
