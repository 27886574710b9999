//! The sequences in pieces, the pivots of each found by a thread of its own.

ghost use Rattle.std.specs.Prelude.{◌≡◌, ◌+◌, ◌*◌, ◌^◌, ◌≤◌, ◌<◌, length, IfOk};
ghost use Rattle.pivot_partition.specs.Pairs.{ArePairs, ArePieces, place};

use super::pairs::{Pair, pairs_of};
use mine_model::NoMemory;
use mining_job::Job;
use rayon::prelude::*;
use std::alloc::Global;
use std::thread::Threads;

/// The pairs of the pieces of this size, in order.
pub(crate) fn pieces_of<R: Threads + Sync>(
    rt: &R,
    alloc: Global,
    job: &Job,
    size: u32,
    pieces: u32,
) -> Result<Vec<Vec<Pair>>, NoMemory>
    requires few { pieces ≤ 64 }
    requires short { size < 2 ^ 24 }
    ensures { IfOk result (λ parts. ArePieces job.now size pieces parts.items) }
{
    (0..pieces)
        .into_par_iter()
        .with_min_len(1)
        .map(
            |piece: u32| -> Result<Vec<Pair>, NoMemory>
                requires { (piece < 64) × (size < 2 ^ 24) }
                ensures { IfOk result (λ pairs. ArePairs job.entry.now
                    (place size (length job.entry.now.sequences) piece)
                    (place size (length job.entry.now.sequences) (piece + 1)) pairs.items) }
            { piece_of(alloc, job, size, piece) },
        )
        .collect::<Result<Vec<Vec<Pair>>, NoMemory>>(rt, alloc)?
}

/// The pairs of the piece with this number.
fn piece_of(alloc: Global, job: &Job, size: u32, piece: u32) -> Result<Vec<Pair>, NoMemory>
    requires few { piece < 64 }
    requires short { size < 2 ^ 24 }
    ensures { IfOk result (λ pairs. ArePairs job.now
        (place size (length job.now.sequences) piece)
        (place size (length job.now.sequences) (piece + 1)) pairs.items) }
{
    let sequences = job.db().sequences();
    let from = (piece * size).min(sequences);
    let to = ((piece + 1) * size).min(sequences);
    pairs_of(alloc, job, from, to)
}
