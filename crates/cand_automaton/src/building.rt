//! The minimal automaton of a sequence's candidates.

ghost use Rattle.std.specs.Prelude.{◌≡◌, ◌≤◌, ◌<◌, ◌++◌, List, length, IfOk, OnOk};
ghost use Rattle.mining_job.specs.Problems.{data_of, items_of};
ghost use Rattle.sequence_grids.specs.Grids.{items_at};
ghost use Rattle.automaton_model.specs.Automata.{StateValue};
ghost use Rattle.automaton_model.specs.Members.{IsPivotCode};
ghost use Rattle.automaton_model.specs.Registry.{IsRegistry};
ghost use Rattle.cand_automaton.specs.Roots.{IsRootWithin, IsCodeWithin};

use automaton_model::{Automaton, Registry, code_from};
use candidate_states::{Room, root_state};
use mine_model::NoMemory;
use mining_job::Job;
use sequence_candidates::{Candidates, edges_end_or_lead_on, whole_graphs_accept_the_patterns};
use std::alloc::Global;

/// The minimal automaton of the candidates of a sequence with this pivot, whose number is counted from 0.
/// That of a sequence without such a candidate has one state and no edge.
pub fn build(alloc: Global, job: &Job, seq: u32, pivot: u32) -> Result<Automaton, NoMemory>
    requires seq { seq < length job.now.sequences }
    requires least { 1 ≤ pivot }
    requires most { pivot ≤ length job.now.ranking.order }
    ensures { IfOk result (λ automaton. IsPivotCode (data_of job.now) job.now.ranking.order pivot
        automaton (items_of job.now seq)) }
{
    let mut candidates = Candidates::new(alloc, job)?;
    coded(alloc, &mut candidates, seq, pivot)
}

/// The same, with this room.
fn coded(
    alloc: Global,
    candidates: &mut Candidates,
    seq: u32,
    pivot: u32,
) -> Result<Automaton, NoMemory>
    requires seq { seq < length candidates.old.part.problem.sequences }
    requires least { 1 ≤ pivot }
    requires most { pivot ≤ length candidates.old.part.problem.ranking.order }
    ensures { IfOk result (λ automaton. IsPivotCode (data_of candidates.old.part.problem)
        candidates.old.part.problem.ranking.order pivot automaton
        (items_of candidates.old.part.problem seq)) }
{
    let sequences = [seq];
    candidates.enter(Some(pivot), &sequences)?;
    let mut registry = Registry::new(alloc);
    let mut room = Room::new(alloc);
    code_at(alloc, candidates, 0, &mut registry, &mut room)
}

/// The minimal automaton of the candidates of the sequence with the index among those of the part.
pub(crate) fn code_at(
    alloc: Global,
    candidates: &mut Candidates,
    index: u32,
    registry: &mut Registry,
    room: &mut Room,
) -> Result<Automaton, NoMemory>
    requires { index < length candidates.old.part.sequences }
    ensures part { candidates.new.part ≡ candidates.old.part }
    ensures code { IfOk result (λ automaton. IsCodeWithin candidates.old.part
        (items_at candidates.old.part index) automaton) }
{
    let root = root_of(candidates, index, registry, room)?;
    code_from(alloc, registry, root)
}

/// The state for the candidates of the sequence with the index among those of the part. The states that the
/// registry had keep their numbers.
pub(crate) fn root_of(
    candidates: &mut Candidates,
    index: u32,
    registry: &mut Registry,
    room: &mut Room,
) -> Result<u32, NoMemory>
    requires { index < length candidates.old.part.sequences }
    ensures part { candidates.new.part ≡ candidates.old.part }
    ensures grows { OnOk result ((more : List StateValue) × (registry.new ≡ registry.old ++ more)) }
    ensures registry { OnOk result (IsRegistry registry.new) }
    ensures inside { IfOk result (λ root. root < length registry.new) }
    ensures root { IfOk result (λ root. IsRootWithin candidates.old.part
        (items_at candidates.old.part index) registry.new root) }
{
    candidates.begin(index)?;
    candidates.expand_all()?;
    whole_graphs_accept_the_patterns();
    edges_end_or_lead_on();
    root_state(candidates.graph(), registry, room)
}
