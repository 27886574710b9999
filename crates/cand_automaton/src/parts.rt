//! The parts of pivots.

ghost use Rattle.std.specs.Prelude.{◌≡◌, ℕ, ◌+◌, ◌^◌, ◌≤◌, ◌<◌, ◌++◌, ◌∷◌, [], List, sum_by, length, IfSome, OnOk};
ghost use Rattle.mine_model.specs.declared.row.Row.{Row as FoundRow};
ghost use Rattle.mine_model.specs.Pivots.{IsAliveLabel};
ghost use Rattle.mine_model.specs.Database.{sequence_at};
ghost use Rattle.mining_job.specs.Problems.{data_of};
ghost use Rattle.mining_job.specs.Parts.{pivot_of, IsComplete};
ghost use Rattle.sequence_grids.specs.Grids.{items_at};
ghost use Rattle.automaton_model.specs.Groups.{part_of, AreRowsOfPivot};
ghost use Rattle.automaton_model.specs.Registry.{IsRegistry};
ghost use Rattle.automaton_model.specs.Searches.{Load};
ghost use Rattle.snapshot_project.specs.Snapshots.{part_for};
ghost use Rattle.cand_automaton.specs.declared.alone.Alone.TheVariants.{Nothing};
ghost use Rattle.cand_automaton.specs.Wholes.{IsWholeOf, IsKept};
ghost use Rattle.cand_automaton.specs.Loads.{AreLoadsOf, AreLoadedWith};
ghost use Rattle.cand_automaton.specs.Pivots.{AreSetsOfPivots};

use super::alone::{Kept, pivot_root, whole_of};
use super::building::root_of;
use super::loads::Loads;
use automaton_model::Registry;
use candidate_states::Room as GraphRoom;
use group_search::{registries_are_trim, rows_of};
use mine_model::{NoMemory, Row};
use mining_job::{Job, PartSeed};
use sequence_candidates::Candidates;
use std::alloc::Global;

/// A worker's room for a part, cleared and used again for the next.
#[derive(Drop)]
pub(crate) struct Room {
    pub(crate) registry: Registry,
    pub(crate) graph: GraphRoom,
    pub(crate) loads: Loads,
    pub(crate) kept: Kept,
}

impl Room {
    /// Takes no memory.
    pub(crate) fn new(alloc: Global) -> Room
        ensures { result.kept.alone ≡ Nothing }
    {
        Room {
            registry: Registry::new(alloc),
            graph: GraphRoom::new(alloc),
            loads: Loads::new(alloc),
            kept: Kept::new(alloc),
        }
    }
}

/// What was found: rows of parts, and how many different sets of candidates these have.
#[derive(Drop)]
pub(crate) struct Done {
    pub(crate) rows: Vec<Row>,
    pub(crate) sets: u64,
}

/// Adds what a part has: its rows, and a set for each state that sequences have. It wants memory, too, where
/// there are 2^64 sets.
pub(crate) fn mine_part(
    alloc: Global,
    job: &Job,
    seed: &PartSeed,
    candidates: &mut Candidates,
    room: &mut Room,
    done: &mut Done,
) -> Result<(), NoMemory>
    requires problem { candidates.old.part.problem ≡ job.now }
    requires complete { IsComplete job.now seed.now }
    requires least { 1 ≤ pivot_of seed.now.pivot }
    requires alive { IsAliveLabel (data_of job.now) job.now.ranking.order (pivot_of seed.now.pivot) [] }
    requires kept { IsKept job.now candidates.old room.old.kept.order room.old.kept.alone }
    ensures kept { OnOk result (IsKept job.now candidates.new room.new.kept.order room.new.kept.alone) }
    ensures problem { candidates.new.part.problem ≡ candidates.old.part.problem }
    ensures rows { OnOk result ((more : List FoundRow)
        × (done.new.rows.items ≡ done.old.rows.items ++ more)
        × AreRowsOfPivot (data_of job.now) job.now.ranking.order (pivot_of seed.now.pivot) more) }
    ensures sets { OnOk result ((count : ℕ) × (done.new.sets ≡ done.old.sets + count)
        × AreSetsOfPivots (data_of job.now) job.now.ranking.order (pivot_of seed.now.pivot ∷ []) count) }
{
    // For the proof alone: no sequence is longer than its limit.
    let _sequences = job.db().sequences();
    room.registry.clear();
    room.loads.clear();
    load_part(job, seed, candidates, room)?;
    registries_are_trim();
    let loads = room.loads.as_slice();
    let Some(sets) = done.sets.checked_add(loads.len() as u64) else {
        return Err(NoMemory);
    };
    let mut rows = rows_of(alloc, job.ranks(), &room.registry, loads, job.threshold())?;
    done.rows.append(&mut rows)?;
    done.sets = sets;
    Ok(())
}

/// Loads the states of the part's sequences with their weights: of one sequence whose whole graph is kept
/// from this graph, else from the graphs of the part.
fn load_part(
    job: &Job,
    seed: &PartSeed,
    candidates: &mut Candidates,
    room: &mut Room,
) -> Result<(), NoMemory>
    requires problem { candidates.old.part.problem ≡ job.now }
    requires complete { IsComplete job.now seed.now }
    requires least { 1 ≤ pivot_of seed.now.pivot }
    requires kept { IsKept job.now candidates.old room.old.kept.order room.old.kept.alone }
    requires empty { room.old.loads ≡ [] }
    ensures problem { candidates.new.part.problem ≡ candidates.old.part.problem }
    ensures kept { OnOk result (IsKept job.now candidates.new room.new.kept.order room.new.kept.alone) }
    ensures registry { OnOk result (IsRegistry room.new.registry) }
    ensures loads { OnOk result (AreLoadsOf (data_of job.now) job.now.ranking.order (pivot_of seed.now.pivot)
        (part_of (data_of job.now) seed.now.sequences.items) room.new.registry room.new.loads) }
    ensures few { OnOk result (sum_by (λ (load : Load). load.weight) room.new.loads < 2 ^ 64) }
{
    let sequences = seed.sequences.as_slice();
    if let Some(seq) = whole_of(job, sequences, candidates, &mut room.kept)? {
        return load_alone(job, seq, pivot_in(seed), candidates, room);
    }
    candidates.enter(seed.pivot, sequences)?;
    load_all(job, seed, candidates, room)
}

/// The pivot of a part that has one.
fn pivot_in(seed: &PartSeed) -> u32
    requires { 1 ≤ pivot_of seed.now.pivot }
    ensures { result ≡ pivot_of seed.now.pivot }
{
    seed.pivot.unwrap()
}

/// Loads the state of a part's one sequence with its weight, from its whole graph.
fn load_alone(
    job: &Job,
    seq: u32,
    pivot: u32,
    candidates: &Candidates,
    room: &mut Room,
) -> Result<(), NoMemory>
    requires seq { seq < length job.now.sequences }
    requires least { 1 ≤ pivot }
    requires whole { IsWholeOf job.now candidates.now room.old.kept.order seq }
    requires empty { room.old.loads ≡ [] }
    ensures kept { room.new.kept ≡ room.old.kept }
    ensures registry { OnOk result (IsRegistry room.new.registry) }
    ensures loads { OnOk result (AreLoadsOf (data_of job.now) job.now.ranking.order pivot
        (sequence_at job.now.sequences seq ∷ []) room.new.registry room.new.loads) }
    ensures few { OnOk result (sum_by (λ (load : Load). load.weight) room.new.loads < 2 ^ 64) }
{
    let order = &room.kept.order;
    let root = pivot_root(
        job,
        seq,
        pivot,
        candidates,
        order,
        &mut room.registry,
        &mut room.graph,
    )?;
    room.loads.add(root, job.db().weight(seq))?;
    Ok(())
}

/// Loads the states of the part's sequences with their weights.
fn load_all(
    job: &Job,
    seed: &PartSeed,
    candidates: &mut Candidates,
    room: &mut Room,
) -> Result<(), NoMemory>
    requires part { candidates.old.part ≡ part_for job.now seed.now }
    requires complete { IsComplete job.now seed.now }
    requires empty { room.old.loads ≡ [] }
    ensures part { candidates.new.part ≡ candidates.old.part }
    ensures kept { room.new.kept ≡ room.old.kept }
    ensures registry { OnOk result (IsRegistry room.new.registry) }
    ensures loads { OnOk result (AreLoadsOf (data_of job.now) job.now.ranking.order (pivot_of seed.now.pivot)
        (part_of (data_of job.now) seed.now.sequences.items) room.new.registry room.new.loads) }
    ensures few { OnOk result (sum_by (λ (load : Load). load.weight) room.new.loads < 2 ^ 64) }
{
    let sequences = seed.sequences.as_slice();
    let db = job.db();
    // For the proof alone: no weights add up to 2^64, and the registry is one.
    let _sequences = db.sequences();
    let _states = room.registry.len();
    for index in 0..sequences.len() {
        let weight = db.weight(sequences[index]);
        load(candidates, index as u32, weight, room)?;
    }
    Ok(())
}

/// Loads the state of the sequence with the index among those of the part with this weight.
fn load(
    candidates: &mut Candidates,
    index: u32,
    weight: u64,
    room: &mut Room,
) -> Result<(), NoMemory>
    requires index { index < length candidates.old.part.sequences }
    requires registry { IsRegistry room.old.registry }
    requires few { sum_by (λ (load : Load). load.weight) room.old.loads + weight < 2 ^ 64 }
    ensures part { candidates.new.part ≡ candidates.old.part }
    ensures kept { room.new.kept ≡ room.old.kept }
    ensures registry { OnOk result (IsRegistry room.new.registry) }
    ensures loads { OnOk result (AreLoadedWith candidates.old.part
        (record { items = items_at candidates.old.part index; weight = weight })
        room.old.registry room.old.loads room.new.registry room.new.loads) }
{
    let root = root_of(candidates, index, &mut room.registry, &mut room.graph)?;
    room.loads.add(root, weight)?;
    Ok(())
}
