//! The records of a part, made of its grids.

ghost use Rattle.std.specs.Prelude.{◌≡◌, ℕ, ◌+◌, ◌*◌, ◌≤◌, ◌<◌, ◌↔◌, true, false, List, [], ◌∷◌, length, map, slice_get, Some, IfOk};
ghost use Rattle.std.specs.List.{AllByRecursion};
ghost use Rattle.mining_job.specs.declared.bound.Bound.{Bound as Bounded};
ghost use Rattle.mining_job.specs.Problems.{Problem};
ghost use Rattle.sequence_grids.specs.Columns.{AreColumns};
ghost use Rattle.sequence_grids.specs.Places.{AreKept};
ghost use Rattle.walk_memo.specs.Moves.{move_sets};
ghost use Rattle.place_records.specs.Records.{goes_with as goes_by, AreRecords};
ghost use Rattle.place_records.specs.Ranks.{CanAskOf, ranks_of};
ghost use Rattle.place_records.specs.Twins.{dead_twin, move_in, twin_sets};
ghost use Rattle.place_records.specs.Filled.{AreMade};

use super::filling::fill;
use super::moves::moves_of;
use super::part_records::Records;
use super::rank_table::RankTable;
use super::twin::Twin;
use super::twins::{Twins, twins_over};
use mine_model::NoMemory;
use mining_job::{Bound, Job};
use sequence_grids::{KeptGrids, Kinds, Place, Tables};
use std::alloc::Global;
use walk_memo::Move;
use walk_places::Places;

/// The records of a part, made of its grids. It also wants memory where the part has more than 2^32 - 1
/// places, or its places do more than 2^32 - 1 different things.
pub fn records<const W: usize>(alloc: Global, grids: KeptGrids<'_>) -> Result<Records<W>, NoMemory>
    requires width { W ≤ 17 }
    requires room { length grids.problem.transducer.labels < 64 * W }
    requires within { AllByRecursion (λ i. i < length grids.problem.sequences) grids.sequences }
    ensures { IfOk result (λ found. AreRecords grids.entry found.places found.early found.late
        (ranks_of found.table) (CanAskOf found.table)) }
{
    let parts = grids.into_parts();
    let kinds = parts.kinds.without_numbers(alloc);
    let made = make(
        alloc,
        parts.job,
        parts.bound,
        parts.tables,
        &kinds,
        parts.places.as_slice(),
        parts.ends.as_slice(),
        parts.sequences.as_slice(),
    );
    with_table(alloc, made, kinds, keeps_sets(parts.job, parts.bound))
}

// The records, and the moves that they name.
#[derive(Drop)]
pub(crate) struct Made<const W: usize> {
    places: Places,
    early: Vec<Move<W>>,
    late: Vec<Move<W>>,
}

// The records of the sequences whose places were kept.
fn make<const W: usize>(
    alloc: Global,
    job: &Job,
    bound: Bound,
    tables: Tables,
    kinds: &Kinds,
    kept: &[Place],
    ends: &[usize],
    sequences: &[u32],
) -> Result<Made<W>, NoMemory>
    requires width { W ≤ 17 }
    requires room { length job.now.transducer.labels < 64 * W }
    requires within { AllByRecursion (λ i. i < length job.now.sequences) sequences.now }
    requires kept { AreKept job.now bound tables kinds.now kept.now ends.now sequences.now }
    ensures { IfOk result (λ made. AreMade job.now bound kinds.now sequences.now
        made.places (map move_sets made.early.items) (map move_sets made.late.items)) }
{
    let mut twins = twins_over(alloc, job, bound, tables)?;
    make_by(alloc, job, bound, &mut twins, kinds, kept, ends, sequences)
}

// The same by twins that are over the tables of the places.
fn make_by<const W: usize>(
    alloc: Global,
    job: &Job,
    bound: Bound,
    twins: &mut Twins<W>,
    kinds: &Kinds,
    kept: &[Place],
    ends: &[usize],
    sequences: &[u32],
) -> Result<Made<W>, NoMemory>
    requires width { W ≤ 17 }
    requires needed { twins.old.needed ≡ goes_by bound.need }
    requires first { slice_get twins.old.twins 0 ≡ Some dead_twin }
    requires within { AllByRecursion (λ i. i < length job.now.sequences) sequences.now }
    requires kept { AreKept job.now bound twins.old.table kinds.now kept.now ends.now sequences.now }
    ensures { IfOk result (λ made. AreMade job.now bound kinds.now sequences.now
        made.places (map move_sets made.early.items) (map move_sets made.late.items)) }
{
    let places = fill(alloc, job, bound, twins, kinds, kept, ends, sequences)?;
    with_moves(alloc, twins.as_slice(), places)
}

// The records of a part with its kinds, whose ranks are kept as sets, too, where that is wanted and they are
// few.
pub(crate) fn with_table<const W: usize>(
    alloc: Global,
    made: Result<Made<W>, NoMemory>,
    kinds: Kinds,
    by_sets: bool,
) -> Result<Records<W>, NoMemory>
    requires width { W ≤ 17 }
    ensures { (problem : Problem) (bound : Bounded) (sequences : List ℕ)
        → IfOk made.entry (λ made. AreMade problem bound kinds sequences
        made.places (map move_sets made.early.items) (map move_sets made.late.items))
        → AreColumns problem.transducer.labels kinds.columns.numbers.items kinds.columns.heads.items
        → IfOk result (λ found. AreRecords
        (record { problem = problem; bound = bound; sequences = sequences })
        found.places found.early found.late (ranks_of found.table) (CanAskOf found.table)) }
{
    match made {
        Ok(made) => {
            let table = RankTable::new(alloc, kinds, by_sets)?;
            Ok(Records {
                places: made.places,
                early: made.early,
                late: made.late,
                table,
            })
        }
        Err(NoMemory) => Err(NoMemory),
    }
}

// The records with the moves that they name.
pub(crate) fn with_moves<const W: usize>(
    alloc: Global,
    twins: &[Twin<W>],
    places: Places,
) -> Result<Made<W>, NoMemory>
    requires width { W ≤ 17 }
    ensures { IfOk result (λ made. (made.places ≡ places)
        × (map move_sets made.early.items ≡ map (move_in false) (map twin_sets twins.now))
        × (map move_sets made.late.items ≡ map (move_in true) (map twin_sets twins.now))) }
{
    let early = moves_of(alloc, twins, false)?;
    let late = moves_of(alloc, twins, true)?;
    Ok(Made {
        places,
        early,
        late,
    })
}

// Whether there are few ranks, and few may be written, so that sums by sets of ranks serve.
pub(crate) fn keeps_sets(job: &Job, bound: Bound) -> bool
    ensures { result ≡ true ↔ ((bound.top ≤ 255) × (length job.now.ranking.order ≤ 255)) }
{
    bound.top <= 255 && job.ranks().count() <= 255
}
