//! The prefixes that wait, with the loads behind them.

ghost use Rattle.std.specs.Prelude.{◌≡◌, ◌^◌, ◌≤◌, ◌<◌, ◌++◌, ◌∷◌, [], ℕ, List, true, false, length, Contains, IfOk, OnOk};
ghost use Rattle.group_search.specs.declared.loads.LoadedState.{LoadedState};
ghost use Rattle.group_search.specs.declared.step.Step.{Step as Along};
ghost use Rattle.group_search.specs.Steps.{weigh_steps, weigh_by, AreAddedUp, AreByRank};
ghost use Rattle.group_search.specs.Waits.{waits_of, IsStacked, IsTaken, ArePushed, IsHeavy, HaveGrown};

use super::loads::LoadedState;
use super::step::{Step, run_of, weight_of};
use mine_model::NoMemory;
use std::alloc::Global;

/// A prefix that waits: so many of the first ranks of the one that grows, and a rank. Its loads stand among
/// those of all.
#[derive(Clone, Copy, Debug)]
pub(crate) struct Waiting {
    pub(crate) depth: usize,
    pub(crate) rank: u32,
    pub(crate) from: usize,
    pub(crate) end: usize,
}

/// The prefix that grows, and those that wait, the next one last. The loads of these stand one behind
/// another.
#[derive(Drop)]
pub(crate) struct Stack {
    pub(crate) prefix: Vec<u32>,
    pub(crate) loads: Vec<LoadedState>,
    pub(crate) waiting: Vec<Waiting>,
}

impl Stack {
    // Nothing waits. Takes no memory.
    pub(crate) fn new(alloc: Global) -> Stack
        ensures stacked { IsStacked result }
        ensures none { waits_of result ≡ [] }
        ensures prefix { result.prefix.items ≡ [] }
    {
        Stack {
            prefix: Vec::new(alloc),
            loads: Vec::new(alloc),
            waiting: Vec::new(alloc),
        }
    }
}

// Takes the next prefix, which grows from then on, and its loads; or tells that none waits.
pub(crate) fn take_next(stack: &mut Stack, loads: &mut Vec<LoadedState>) -> Result<bool, NoMemory>
    requires { IsStacked stack.old }
    ensures none { IfOk result (λ more. more ≡ false → waits_of stack.old ≡ []) }
    ensures taken { IfOk result (λ more. more ≡ true → IsTaken stack.old loads.new.items stack.new) }
{
    let Some(next) = stack.waiting.pop() else {
        return Ok(false);
    };
    loads.clear();
    loads.extend_from_slice(&stack.loads[next.from..next.end])?;
    stack.loads.truncate(next.from);
    stack.prefix.truncate(next.depth);
    stack.prefix.push(next.rank)?;
    Ok(true)
}

// The prefix waits longer by each rank behind which the steps weigh as much as the threshold.
pub(crate) fn push_kids(stack: &mut Stack, steps: &[Step], threshold: u64) -> Result<(), NoMemory>
    requires least { 1 ≤ threshold }
    requires stacked { IsStacked stack.old }
    requires sorted { AreByRank steps.now }
    requires fits { (rank : ℕ) → weigh_by rank (λ state. true) steps.now < 2 ^ 64 }
    ensures { OnOk result (HaveGrown threshold stack.old steps.now stack.new) }
{
    let mut left = steps;
    'ranks: while let Some(first) = left.first() {
        let rank = first.rank;
        let (run, later) = run_of(left, rank);
        push_heavy(stack, rank, run, threshold)?;
        left = later;
    }
    Ok(())
}

// The prefix waits longer by the rank, if the steps weigh as much as the threshold.
fn push_heavy(stack: &mut Stack, rank: u32, run: &[Step], threshold: u64) -> Result<(), NoMemory>
    requires stacked { IsStacked stack.old }
    requires fits { weigh_steps (λ state. true) run.now < 2 ^ 64 }
    ensures { OnOk result (IsHeavy threshold stack.old rank run.now stack.new) }
{
    if weight_of(run) < threshold {
        return Ok(());
    }
    push_kid(stack, rank, run)
}

// The prefix waits longer by the rank, with the loads of the steps.
fn push_kid(stack: &mut Stack, rank: u32, run: &[Step]) -> Result<(), NoMemory>
    requires stacked { IsStacked stack.old }
    requires fits { weigh_steps (λ state. true) run.now < 2 ^ 64 }
    ensures { OnOk result ((loads : List LoadedState) × AreAddedUp run.now loads
        × ArePushed stack.old ((record { rank = rank; loads = loads }) ∷ []) stack.new) }
{
    let from = stack.loads.len();
    push_loads(&mut stack.loads, run)?;
    let end = stack.loads.len();
    let depth = stack.prefix.len();
    stack.waiting.push(Waiting {
        depth,
        rank,
        from,
        end,
    })?;
    Ok(())
}

// Adds a load for the steps to each state: neighbours to one state are added up.
fn push_loads(loads: &mut Vec<LoadedState>, run: &[Step]) -> Result<(), NoMemory>
    requires { weigh_steps (λ state. true) run.now < 2 ^ 64 }
    ensures { OnOk result ((more : List LoadedState) × (loads.new.items ≡ loads.old.items ++ more)
        × AreAddedUp run.now more) }
{
    let [first, later @ ..] = run else {
        return Ok(());
    };
    let mut last = LoadedState {
        state: first.state,
        weight: first.weight,
    };
    'steps: for step in later {
        if step.state == last.state {
            last.weight += step.weight;
        } else {
            loads.push(last)?;
            last = LoadedState {
                state: step.state,
                weight: step.weight,
            };
        }
    }
    loads.push(last)?;
    Ok(())
}
