//! Parts of one sequence. Where a worker's parts have the same sequence alone, one after another, its graph
//! for patterns of any ranks is made once and kept: each pivot's state is made from it, and the places of the
//! sequence are not gone over for each.

ghost use Rattle.std.specs.Prelude.{◌≡◌, ◌≤◌, ◌<◌, ◌++◌, ◌∷◌, [], true, false, List, Option, Some, None, Ok, length, IfOk, IfSome, OnOk};
ghost use Rattle.std.specs.List.{AllByRecursion};
ghost use Rattle.mining_job.specs.Problems.{data_of, items_of};
ghost use Rattle.automaton_model.specs.Automata.{StateValue};
ghost use Rattle.automaton_model.specs.Registry.{IsRegistry};
ghost use Rattle.cand_automaton.specs.declared.alone.Alone.TheVariants.{Nothing};
ghost use Rattle.cand_automaton.specs.Roots.{IsRootFor};
ghost use Rattle.cand_automaton.specs.Wholes.{IsWholeOf, IsKept, IsFree};

use automaton_model::Registry;
use candidate_states::{Room as GraphRoom, pivot_state};
use graph_order::Order;
use mine_model::NoMemory;
use mining_job::Job;
use sequence_candidates::{Candidates, whole_graphs_accept_the_patterns};
use std::alloc::Global;

/// What a worker keeps of the sequence that the part before had alone, by its number.
#[derive(Clone, Copy, Debug)]
pub(crate) enum Alone {
    /// There is no such sequence.
    Nothing,
    /// Its whole graph was not made: the part before was the first of its parts.
    Once(u32),
    /// The candidates hold its whole graph.
    Whole(u32),
    /// Its whole graph is too large to be kept.
    TooLarge(u32),
}

/// What is kept for the next parts.
#[derive(Drop)]
pub(crate) struct Kept {
    pub(crate) alone: Alone,
    // The nodes of the whole graph.
    pub(crate) order: Order,
}

impl Kept {
    /// Nothing. Takes no memory.
    pub(crate) fn new(alloc: Global) -> Kept
        ensures { result.alone ≡ Nothing }
    {
        Kept {
            alone: Alone::Nothing,
            order: Order::new(alloc),
        }
    }
}

/// The one sequence of a part, if it has one alone whose whole graph the candidates hold, or hold now.
pub(crate) fn whole_of(
    job: &Job,
    sequences: &[u32],
    candidates: &mut Candidates,
    kept: &mut Kept,
) -> Result<Option<u32>, NoMemory>
    requires problem { candidates.old.part.problem ≡ job.now }
    requires within { AllByRecursion (λ i. i < length job.now.sequences) sequences.now }
    requires kept { IsKept job.now candidates.old kept.old.order kept.old.alone }
    ensures problem { candidates.new.part.problem ≡ candidates.old.part.problem }
    ensures kept { OnOk result (IsKept job.now candidates.new kept.new.order kept.new.alone) }
    ensures alone { IfOk result (λ one. IfSome one (λ seq. sequences.now ≡ seq ∷ [])) }
    ensures whole { IfOk result (λ one. IfSome one (λ seq.
        IsWholeOf job.now candidates.new kept.new.order seq)) }
    ensures free { result ≡ Ok None → IsFree job.now kept.new.alone }
{
    if sequences.len() != 1 {
        kept.alone = Alone::Nothing;
        return Ok(None);
    }
    let seq = sequences[0];
    if is_whole(job, seq, candidates, kept)? {
        Ok(Some(seq))
    } else {
        Ok(None)
    }
}

/// Whether the candidates hold the whole graph of the sequence, or hold it now.
fn is_whole(
    job: &Job,
    seq: u32,
    candidates: &mut Candidates,
    kept: &mut Kept,
) -> Result<bool, NoMemory>
    requires problem { candidates.old.part.problem ≡ job.now }
    requires seq { seq < length job.now.sequences }
    requires kept { IsKept job.now candidates.old kept.old.order kept.old.alone }
    ensures problem { candidates.new.part.problem ≡ candidates.old.part.problem }
    ensures kept { OnOk result (IsKept job.now candidates.new kept.new.order kept.new.alone) }
    ensures whole { result ≡ Ok true → IsWholeOf job.now candidates.new kept.new.order seq }
    ensures free { result ≡ Ok false → IsFree job.now kept.new.alone }
{
    match kept.alone {
        Alone::Whole(of) if of == seq => Ok(true),
        Alone::TooLarge(of) if of == seq => Ok(false),
        Alone::Once(of) if of == seq => make_whole(job, seq, candidates, kept),
        _ => {
            kept.alone = Alone::Once(seq);
            Ok(false)
        }
    }
}

/// Makes the whole graph of the sequence, if it is not too large.
fn make_whole(
    job: &Job,
    seq: u32,
    candidates: &mut Candidates,
    kept: &mut Kept,
) -> Result<bool, NoMemory>
    requires problem { candidates.old.part.problem ≡ job.now }
    requires seq { seq < length job.now.sequences }
    ensures problem { candidates.new.part.problem ≡ candidates.old.part.problem }
    ensures kept { OnOk result (IsKept job.now candidates.new kept.new.order kept.new.alone) }
    ensures whole { result ≡ Ok true → IsWholeOf job.now candidates.new kept.new.order seq }
    ensures free { result ≡ Ok false → IsFree job.now kept.new.alone }
{
    kept.alone = Alone::TooLarge(seq);
    let sequences = [seq];
    candidates.enter(None, &sequences)?;
    candidates.begin(0)?;
    if !candidates.expand_within(most_for(job, seq))? {
        return Ok(false);
    }
    kept.order.set(candidates.graph())?;
    kept.alone = Alone::Whole(seq);
    Ok(true)
}

// So many nodes and edges of a whole graph are little beside the work on a part of the sequence, which goes
// over all its places.
fn most_for(job: &Job, seq: u32) -> u32
    requires { seq < length job.now.sequences }
{
    4 * job.db().sequence(seq).len() as u32 + 64
}

/// The state for the candidates of the sequence with the pivot, from its whole graph. The states that the
/// registry had keep their numbers.
pub(crate) fn pivot_root(
    job: &Job,
    seq: u32,
    pivot: u32,
    candidates: &Candidates,
    order: &Order,
    registry: &mut Registry,
    room: &mut GraphRoom,
) -> Result<u32, NoMemory>
    requires least { 1 ≤ pivot }
    requires whole { IsWholeOf job.now candidates.now order.now seq }
    ensures grows { (more : List StateValue) × (registry.new ≡ registry.old ++ more) }
    ensures registry { IsRegistry registry.new }
    ensures root { IfOk result (λ root. IsRootFor (data_of job.now) job.now.ranking.order pivot
        (items_of job.now seq) registry.new root) }
{
    // For the proof alone: no item has two ranks.
    let _threshold = job.threshold();
    whole_graphs_accept_the_patterns();
    pivot_state(candidates.graph(), order, pivot, registry, room)
}
