//! What the paths of a part go over.

ghost use Rattle.std.specs.Prelude.{◌≡◌, ℕ, ◌*◌, ◌≤◌, ◌<◌, length, map, slice_index, IfOk};
ghost use Rattle.std.specs.List.{AllByRecursion};
ghost use Rattle.state_bits.specs.Members.{Has};
ghost use Rattle.walk_memo.specs.Moves.{move_sets};
ghost use Rattle.mining_job.specs.Problems.{IsWhole};
ghost use Rattle.sequence_grids.specs.Successors.{AreSuccessors, AreSuccessorsOf};
ghost use Rattle.sequence_candidates.specs.Terrains.{IsTerrain, IsTerrainOf};

use mine_model::NoMemory;
use mining_job::{Bound, Job};
use place_records::{Records, records};
use sequence_grids::{Grids, Successors, successors_of};
use state_bits::StateSet;
use std::alloc::Global;
use walk_memo::{Memo, Move};

/// The records of a part, and what was found out about sets of states: for prefixes that still lack what is
/// needed, or where nothing is, and for those that hold it.
pub(crate) struct Terrain<const W: usize> {
    pub(crate) records: Records<W>,
    pub(crate) early: Memo<W>,
    pub(crate) late: Memo<W>,
}

// Written out, as that of `AnyTerrain`: it is let go of by a call, and not part by part wherever one is.
impl<const W: usize> Drop for Terrain<W> {
    fn drop(self) {
        let Terrain {
            records: _,
            early: _,
            late: _,
        } = self;
    }
}

/// The terrain in sets of the least width that has room for all states, if it is known.
pub(crate) enum AnyTerrain {
    Unknown,
    One(Terrain<1>),
    Four(Terrain<4>),
    Wide(Terrain<17>),
}

impl Drop for AnyTerrain {
    fn drop(self) {
        match self {
            AnyTerrain::Unknown => {}
            AnyTerrain::One(_over) => {}
            AnyTerrain::Four(_over) => {}
            AnyTerrain::Wide(_over) => {}
        }
    }
}

/// The terrain of these sequences.
pub(crate) fn terrain_of(
    alloc: Global,
    job: &Job,
    bound: Bound,
    sequences: &[u32],
) -> Result<AnyTerrain, NoMemory>
    requires within { AllByRecursion (λ i. i < length job.now.sequences) sequences.now }
    ensures { IfOk result (IsTerrainOf
        (record { problem = job.now; bound = bound; sequences = sequences.now })) }
{
    let successors = successors_of(alloc, job.fst())?;
    let grids = grids_of(alloc, job, bound, sequences)?;
    terrain_by(alloc, grids, successors)
}

// The terrain of these grids.
fn terrain_by(alloc: Global, grids: Grids, successors: Successors) -> Result<AnyTerrain, NoMemory>
    requires whole { IsWhole grids.problem }
    requires within { AllByRecursion (λ i. i < length grids.problem.sequences) grids.sequences }
    requires successors { AreSuccessorsOf grids.problem.transducer successors }
    ensures { IfOk result (IsTerrainOf grids.entry) }
{
    match successors {
        Successors::One(rows) => Ok(AnyTerrain::One(terrain_over(alloc, grids, rows)?)),
        Successors::Four(rows) => Ok(AnyTerrain::Four(terrain_over(alloc, grids, rows)?)),
        Successors::Wide(rows) => Ok(AnyTerrain::Wide(terrain_over(alloc, grids, rows)?)),
    }
}

// The grids of these sequences.
fn grids_of<'a>(
    alloc: Global,
    job: &'a Job,
    bound: Bound,
    sequences: &[u32],
) -> Result<Grids<'a>, NoMemory>
    requires { AllByRecursion (λ i. i < length job.now.sequences) sequences.now }
    ensures { IfOk result (λ grids. grids
        ≡ record { problem = job.now; bound = bound; sequences = sequences.now }) }
{
    let mut grids = Grids::new(alloc, job, bound)?;
    for number in sequences {
        grids.push(*number)?;
    }
    Ok(grids)
}

// The same in sets of one width.
fn terrain_over<const W: usize>(
    alloc: Global,
    grids: Grids,
    rows: Vec<StateSet<W>>,
) -> Result<Terrain<W>, NoMemory>
    requires width { W ≤ 17 }
    requires whole { IsWhole grids.problem }
    requires within { AllByRecursion (λ i. i < length grids.problem.sequences) grids.sequences }
    requires rows { AreSuccessors W grids.problem.transducer rows.items }
    ensures { IfOk result (IsTerrain grids.entry) }
{
    let records = records(alloc, grids.keep())?;
    let early = memo_of(alloc, rows.as_slice(), records.moves(false))?;
    let late = memo_of(alloc, rows.as_slice(), records.moves(true))?;
    Ok(Terrain {
        records,
        early,
        late,
    })
}

// A memo of these rows and moves.
fn memo_of<const W: usize>(
    alloc: Global,
    rows: &[StateSet<W>],
    moves: &[Move<W>],
) -> Result<Memo<W>, NoMemory>
    requires width { W ≤ 17 }
    requires room { length rows.now ≤ 64 * W }
    requires closed { (from q : ℕ) → Has (slice_index rows.now from) q → q < length rows.now }
    ensures { IfOk result (λ memo. (memo.rows ≡ rows.now) × (memo.moves ≡ map move_sets moves.now)) }
{
    let mut memo = Memo::new(alloc)?;
    memo.enter(rows, moves)?;
    Ok(memo)
}
