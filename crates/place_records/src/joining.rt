//! Blocks, joined in order.

ghost use Rattle.std.specs.Prelude.{ℕ, ◌≤◌, ◌<◌, map, IfOk, OnOk};
ghost use Rattle.mining_job.specs.declared.bound.Bound.{Bound as Bounded};
ghost use Rattle.mining_job.specs.Problems.{Problem};
ghost use Rattle.sequence_grids.specs.declared.kinds.Kinds.{Kinds as Known};
ghost use Rattle.sequence_grids.specs.Kinds.{Extends};
ghost use Rattle.place_records.specs.Twins.{twin_sets};
ghost use Rattle.place_records.specs.Filled.{AreKnown};
ghost use Rattle.place_records.specs.Blocks.{AreNames, IsBlock};

use super::blocks::Piece;
use super::twin::Twin;
use super::twins::twin_in;
use indexmap::IndexSet;
use mine_model::NoMemory;
use std::alloc::Global;
use walk_places::Places;

/// The sequences of blocks that were joined, and their records, which name what places do by numbers of all.
#[derive(Drop)]
pub(crate) struct Joined<const W: usize> {
    pub(crate) twins: IndexSet<Twin<W>>,
    pub(crate) sequences: Vec<u32>,
    pub(crate) places: Places,
}

/// No blocks yet.
pub(crate) fn no_blocks<const W: usize>(alloc: Global) -> Joined<W>
    requires { W ≤ 17 }
    ensures { (problem : Problem) (bound : Bounded) (kinds : Known) → IsBlock problem bound kinds 0 0
        (map twin_sets result.twins.keys) result.sequences.items result.places }
{
    Joined {
        twins: IndexSet::new(alloc),
        sequences: Vec::new(alloc),
        places: Places::new(alloc),
    }
}

/// Joins a block to those before it. It also wants memory where all have more than 2^32 - 1 places, or these
/// do more than 2^32 - 1 different things.
pub(crate) fn join<const W: usize>(
    alloc: Global,
    joined: &mut Joined<W>,
    block: &Piece<W>,
) -> Result<(), NoMemory>
    requires width { W ≤ 17 }
    requires known { AreKnown (map twin_sets block.now.twins.items) block.now.places }
    ensures { OnOk result ((problem : Problem) (bound : Bounded) (kinds : Known) (from mid to : ℕ)
        → from ≤ mid → mid ≤ to
        → IsBlock problem bound kinds from mid (map twin_sets joined.old.twins.keys)
        joined.old.sequences.items joined.old.places
        → IsBlock problem bound kinds mid to (map twin_sets block.now.twins.items)
        block.now.sequences.items block.now.places
        → IsBlock problem bound kinds from to (map twin_sets joined.new.twins.keys)
        joined.new.sequences.items joined.new.places) }
{
    let room = (u32::MAX as usize).saturating_sub(joined.places.len());
    if block.places.len() > room {
        return Err(NoMemory);
    }
    let names = names_among(alloc, &mut joined.twins, block.twins.as_slice())?;
    joined
        .places
        .append_renamed(&block.places, names.as_slice())?;
    joined
        .sequences
        .extend_from_slice(block.sequences.as_slice())?;
    Ok(())
}

// The numbers of these twins among all, to which they are added where they are new.
fn names_among<const W: usize>(
    alloc: Global,
    all: &mut IndexSet<Twin<W>>,
    twins: &[Twin<W>],
) -> Result<Vec<u32>, NoMemory>
    requires width { W ≤ 17 }
    ensures grow { Extends (map twin_sets all.old.keys) (map twin_sets all.new.keys) }
    ensures names { IfOk result (λ names. AreNames (map twin_sets twins.now) (map twin_sets all.new.keys)
        names.items) }
{
    let mut names = Vec::new(alloc);
    for twin in twins {
        names.push(twin_in(all, twin)?)?;
    }
    Ok(names)
}
