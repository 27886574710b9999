//! The sequences of a part, those with equal candidates as one group.

ghost use Rattle.std.specs.Prelude.{◌≡◌, ℕ, ◌<◌, ◌++◌, ◌∷◌, [], List, Some, IfOk, OnOk};
ghost use Rattle.std.specs.List.{AllZip};
ghost use Rattle.mine_model.specs.Database.{sequence_at};
ghost use Rattle.mining_job.specs.Problems.{data_of};
ghost use Rattle.mining_job.specs.Parts.{pivot_of, IsComplete};
ghost use Rattle.automaton_model.specs.declared.groups.Group.{Group as SetGroup};
ghost use Rattle.automaton_model.specs.Groups.{AreGroups, part_of};
ghost use Rattle.automaton_model.specs.Merges.{IsCodedBy};

use super::building::code_at;
use automaton_model::{Group, Registry, merged_codes_are_the_groups_of_the_sequences};
use candidate_states::Room;
use mine_model::NoMemory;
use mining_job::{Job, PartSeed};
use sequence_candidates::Candidates;
use std::alloc::Global;

/// The sequences of a part with a pivot, those with equal candidates as one group. The groups stand by rising
/// codes.
pub fn groups_of(alloc: Global, job: &Job, seed: &PartSeed) -> Result<Vec<Group>, NoMemory>
    requires complete { IsComplete job.now seed.now }
    requires pivot { (pivot : ℕ) × (seed.now.pivot ≡ Some pivot) }
    ensures { IfOk result (λ groups. AreGroups (data_of job.now) job.now.ranking.order
        (pivot_of seed.now.pivot) (part_of (data_of job.now) seed.now.sequences.items) groups.items) }
{
    // For the proof alone: no weights add up to 2^64.
    let _sequences = job.db().sequences();
    let mut candidates = Candidates::new(alloc, job)?;
    let parts = parts_of(alloc, job, seed, &mut candidates)?;
    merged_codes_are_the_groups_of_the_sequences();
    automaton_model::groups_of(alloc, parts)
}

/// A group for each sequence of the part, with its weight, in the room.
fn parts_of(
    alloc: Global,
    job: &Job,
    seed: &PartSeed,
    candidates: &mut Candidates,
) -> Result<Vec<Group>, NoMemory>
    requires problem { candidates.old.part.problem ≡ job.now }
    requires complete { IsComplete job.now seed.now }
    ensures { IfOk result (λ parts. AllZip
        (IsCodedBy (data_of job.now) job.now.ranking.order (pivot_of seed.now.pivot))
        (part_of (data_of job.now) seed.now.sequences.items) parts.items) }
{
    let sequences = seed.sequences.as_slice();
    let db = job.db();
    // For the proof alone: there are fewer than 2^32 sequences.
    let _sequences = db.sequences();
    candidates.enter(seed.pivot, sequences)?;
    let mut registry = Registry::new(alloc);
    let mut room = Room::new(alloc);
    let mut parts = Vec::new(alloc);
    for index in 0..sequences.len() {
        let automaton = code_at(alloc, candidates, index as u32, &mut registry, &mut room)?;
        let count = db.weight(sequences[index]);
        parts.push(Group { automaton, count })?;
    }
    Ok(parts)
}
