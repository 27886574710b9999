//! The records of those sequences of a job that complete, made in one pass over all of them.

ghost use Rattle.std.specs.Prelude.{◌≡◌, ℕ, ◌*◌, ◌≤◌, ◌<◌, ◌↔◌, false, length, map, AllPairs, Contains, IfOk, OnOk};
ghost use Rattle.mining_job.specs.Problems.{items_of};
ghost use Rattle.sequence_grids.specs.Grids.{Completes};
ghost use Rattle.sequence_grids.specs.Places.{IsAlphabet};
ghost use Rattle.walk_memo.specs.Moves.{move_sets};
ghost use Rattle.place_records.specs.Records.{AreRecords};
ghost use Rattle.place_records.specs.Ranks.{CanAskOf, ranks_of};
ghost use Rattle.place_records.specs.Filled.{AreMade};

use super::block::{Block, block_of};
use super::blocks::join_all;
use super::joining::{Joined, no_blocks};
use super::making::{Made, keeps_sets, with_moves, with_table};
use super::part_records::Records;
use mine_model::NoMemory;
use mining_job::{Bound, Job};
use sequence_grids::{Alphabet, Kinds, Tables, alphabet_of};
use std::alloc::Global;
use std::thread::Threads;

/// The numbers of the sequences that complete under a bound, and their records, made by so many threads. It
/// also wants memory where these have more than 2^32 - 1 places, or their places do more than 2^32 - 1
/// different things.
pub fn records_of_all<R: Threads + Sync, const W: usize>(
    rt: &R,
    workers: u32,
    alloc: Global,
    job: &Job,
    bound: Bound,
) -> Result<(Vec<u32>, Records<W>), NoMemory>
    requires width { W ≤ 17 }
    requires room { length job.now.transducer.labels < 64 * W }
    requires some { 1 ≤ workers }
    ensures rising { IfOk result (λ all. AllPairs (λ low high. low < high) all.0.items) }
    ensures exact { IfOk result (λ all. (i : ℕ) → Contains all.0.items i ↔ ((i < length job.now.sequences)
        × Completes job.now bound (items_of job.now i) 0 false)) }
    ensures records { IfOk result (λ all. AreRecords
        (record { problem = job.now; bound = bound; sequences = all.0.items })
        all.1.places all.1.early all.1.late (ranks_of all.1.table) (CanAskOf all.1.table)) }
{
    if workers == 1 {
        return records_of_all_alone(alloc, job, bound);
    }
    let alphabet = alphabet_of(alloc, job, bound)?;
    let mut sequences = Vec::new(alloc);
    let made = made_by_threads(rt, workers, alloc, job, bound, &alphabet, &mut sequences)?;
    let kinds = alphabet.kinds.without_numbers(alloc);
    let records = with_table(alloc, Ok(made), kinds, keeps_sets(job, bound))?;
    Ok((sequences, records))
}

/// The same by the thread that calls.
pub fn records_of_all_alone<const W: usize>(
    alloc: Global,
    job: &Job,
    bound: Bound,
) -> Result<(Vec<u32>, Records<W>), NoMemory>
    requires width { W ≤ 17 }
    requires room { length job.now.transducer.labels < 64 * W }
    ensures rising { IfOk result (λ all. AllPairs (λ low high. low < high) all.0.items) }
    ensures exact { IfOk result (λ all. (i : ℕ) → Contains all.0.items i ↔ ((i < length job.now.sequences)
        × Completes job.now bound (items_of job.now i) 0 false)) }
    ensures records { IfOk result (λ all. AreRecords
        (record { problem = job.now; bound = bound; sequences = all.0.items })
        all.1.places all.1.early all.1.late (ranks_of all.1.table) (CanAskOf all.1.table)) }
{
    let Alphabet { kinds, tables } = alphabet_of(alloc, job, bound)?;
    let mut sequences = Vec::new(alloc);
    let made = made_alone(alloc, job, bound, tables, &kinds, &mut sequences)?;
    let kinds = kinds.without_numbers(alloc);
    let records = with_table(alloc, Ok(made), kinds, keeps_sets(job, bound))?;
    Ok((sequences, records))
}

// The records of the sequences that complete, whose numbers are put in place of those in the list.
fn made_alone<const W: usize>(
    alloc: Global,
    job: &Job,
    bound: Bound,
    tables: Tables,
    kinds: &Kinds,
    sequences: &mut Vec<u32>,
) -> Result<Made<W>, NoMemory>
    requires width { W ≤ 17 }
    requires room { length job.now.transducer.labels < 64 * W }
    requires alphabet { IsAlphabet job.now bound tables kinds.now }
    ensures rising { OnOk result (AllPairs (λ low high. low < high) sequences.new.items) }
    ensures exact { OnOk result ((i : ℕ) → Contains sequences.new.items i
        ↔ ((i < length job.now.sequences) × Completes job.now bound (items_of job.now i) 0 false)) }
    ensures made { IfOk result (λ made. AreMade job.now bound kinds.now sequences.new.items
        made.places (map move_sets made.early.items) (map move_sets made.late.items)) }
{
    let count = job.db().sequences();
    let Block {
        twins,
        sequences: found,
        places,
    } = block_of(alloc, job, bound, tables, kinds, 0, count)?;
    let made = with_moves(alloc, twins.as_slice(), places)?;
    *sequences = found;
    Ok(made)
}

// The same by so many threads.
fn made_by_threads<R: Threads + Sync, const W: usize>(
    rt: &R,
    workers: u32,
    alloc: Global,
    job: &Job,
    bound: Bound,
    alphabet: &Alphabet,
    sequences: &mut Vec<u32>,
) -> Result<Made<W>, NoMemory>
    requires width { W ≤ 17 }
    requires room { length job.now.transducer.labels < 64 * W }
    requires some { 1 ≤ workers }
    requires alphabet { IsAlphabet job.now bound alphabet.now.tables alphabet.now.kinds }
    ensures rising { OnOk result (AllPairs (λ low high. low < high) sequences.new.items) }
    ensures exact { OnOk result ((i : ℕ) → Contains sequences.new.items i
        ↔ ((i < length job.now.sequences) × Completes job.now bound (items_of job.now i) 0 false)) }
    ensures made { IfOk result (λ made. AreMade job.now bound alphabet.now.kinds sequences.new.items
        made.places (map move_sets made.early.items) (map move_sets made.late.items)) }
{
    let mut joined = no_blocks(alloc);
    join_all(rt, workers, alloc, job, bound, alphabet, &mut joined)?;
    let Joined {
        twins,
        sequences: found,
        places,
    } = joined;
    let made = with_moves(alloc, twins.as_slice(), places)?;
    *sequences = found;
    Ok(made)
}
