//! Pairs of a sequence and one of its pivots.

ghost use Rattle.std.specs.Prelude.{◌≡◌, ◌≤◌, length, IfOk, OnOk, ◌++◌, map};
ghost use Rattle.pivot_partition.specs.declared.pairs.Pair.{Pair as Found};
ghost use Rattle.pivot_partition.specs.Pairs.{ArePairs};

use super::pivots::Pivots;
use mine_model::NoMemory;
use mining_job::Job;
use std::alloc::Global;

/// A sequence and one of its pivots.
#[derive(Clone, Copy, Debug)]
pub(crate) struct Pair {
    pub(crate) pivot: u32,
    pub(crate) sequence: u32,
}

/// The pairs of the sequences with these numbers, the last not included.
pub(crate) fn pairs_of(alloc: Global, job: &Job, from: u32, to: u32) -> Result<Vec<Pair>, NoMemory>
    requires rises { from ≤ to }
    requires within { to ≤ length job.now.sequences }
    ensures { IfOk result (λ pairs. ArePairs job.now from to pairs.items) }
{
    let mut pivots = Pivots::new(alloc, job)?;
    let pairs = pairs_with(alloc, &mut pivots, from, to);
    pivots.let_go();
    pairs
}

/// The same, found in this room.
fn pairs_with(alloc: Global, pivots: &mut Pivots, from: u32, to: u32) -> Result<Vec<Pair>, NoMemory>
    requires rises { from ≤ to }
    requires within { to ≤ length pivots.old.sequences }
    ensures { IfOk result (λ pairs. ArePairs pivots.old from to pairs.items) }
{
    let mut found = Vec::new(alloc);
    let mut pairs = Vec::new(alloc);
    for sequence in from..to {
        pivots.fill(sequence, &mut found)?;
        push_pairs(sequence, found.as_slice(), &mut pairs)?;
    }
    Ok(pairs)
}

/// Appends the sequence with each of these pivots.
fn push_pairs(sequence: u32, found: &[u32], pairs: &mut Vec<Pair>) -> Result<(), NoMemory>
    ensures { OnOk result (pairs.new.items ≡ pairs.old.items
        ++ map (λ pivot. record { pivot = pivot; sequence = sequence }) found.now) }
{
    for pivot in found {
        pairs.push(Pair {
            pivot: *pivot,
            sequence,
        })?;
    }
    Ok(())
}
