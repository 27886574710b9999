//! How the prefixes that are longer by one wait to be taken: by their stands, which are pieces of one run, or
//! as bytes of their own.

ghost use Rattle.std.specs.Prelude.{◌≡◌, ℕ, List, map, All, IfOk};
ghost use Rattle.std.specs.Arc.{arc_value};
ghost use Rattle.std.specs.List.{AllZip};
ghost use Rattle.packed_snapshots.specs.Packed.{IsPacked};
ghost use Rattle.snapshot_project.specs.Layouts.{HasStarts};
ghost use Rattle.snapshot_project.specs.Longer.{kept_of, AreKept, IsKeptOf, IsWithin};
ghost use Rattle.snapshot_project.specs.Snapshots.{SnapshotList, AreSnapshots, IsPart};
ghost use Rattle.snapshot_project.specs.Stands.{AreStandsOf, plain};

use super::aims::sees;
use super::beginning::first_places;
use super::part::Part;
use super::snapshots::Snapshots;
use mine_model::NoMemory;
use place_walk::Stand;
use stand_sums::{Aim, NextRank as Counted, Run};
use std::alloc::Global;
use std::sync::Arc;
use waiting_stands::{pack, unpack};

// The least stands of a run for which bytes pay.
const MANY_STANDS: usize = 1_048_576;

/// Whether those who stand in the run are to wait as bytes: where stands take eight bytes each, and there are
/// many.
pub(crate) fn packs(run: &Run) -> bool {
    !run.is_narrow() && run.stands().len() >= MANY_STANDS
}

/// What is kept of the prefixes with these ranks, who stand in the run: as bytes, where they are to be.
pub(crate) fn longer_from(
    alloc: Global,
    part: &Part,
    aim: Aim,
    found: &[Counted],
    run: Run,
    packs: bool,
) -> Result<Vec<Snapshots>, NoMemory>
    requires within { All (IsWithin run.stands) found.now }
    requires kept { (least : ℕ) × (ranks : List ℕ) × AreKept part.now aim least ranks run.stands found.now }
    ensures { IfOk result (λ longer. (least : ℕ) (ranks : List ℕ)
        → AreKept part.now aim least ranks run.stands found.now
        → AllZip (IsKeptOf part.now least ranks) found.now longer.items) }
{
    let starts = part.starts();
    if packs && !starts.is_empty() {
        packed_in(alloc, part, starts, aim, found, &run)
    } else {
        longer_in(alloc, aim, found, run)
    }
}

// What is kept of the prefixes with these ranks, whose stands are pieces of the run.
fn longer_in(
    alloc: Global,
    aim: Aim,
    found: &[Counted],
    run: Run,
) -> Result<Vec<Snapshots>, NoMemory>
    requires { All (IsWithin run.stands) found.now }
    ensures { IfOk result (λ longer. longer.items ≡ map (kept_of aim run.stands) found.now) }
{
    let shared = Arc::new(alloc, run)?;
    let mut longer = Vec::with_capacity(alloc, found.len())?;
    for next in found {
        longer.push(piece(aim, *next, shared.clone()?))?;
    }
    Ok(longer)
}

/// What is kept of the prefix with the rank.
pub(crate) fn piece(aim: Aim, next: Counted, run: Arc<Run>) -> Snapshots
    requires { IsWithin (arc_value run).stands next }
    ensures { result ≡ kept_of aim (arc_value run).stands next }
{
    let seen = sees(aim, next.rank);
    if next.first < next.last {
        Snapshots::new(seen, next.support, run, next.first, next.last)
    } else {
        Snapshots::new(seen, next.support, run, 0, 0)
    }
}

// The same, each as bytes of its own.
fn packed_in(
    alloc: Global,
    part: &Part,
    starts: &[u32],
    aim: Aim,
    found: &[Counted],
    run: &Run,
) -> Result<Vec<Snapshots>, NoMemory>
    requires is { IsPart part.now }
    requires starts { HasStarts part.now starts.now }
    requires within { All (IsWithin run.now.stands) found.now }
    requires kept { (least : ℕ) × (ranks : List ℕ)
        × AreKept part.now aim least ranks run.now.stands found.now }
    ensures { IfOk result (λ longer. (least : ℕ) (ranks : List ℕ)
        → AreKept part.now aim least ranks run.now.stands found.now
        → AllZip (IsKeptOf part.now least ranks) found.now longer.items) }
{
    let none = Arc::new(alloc, Run::new(alloc))?;
    let mut longer = Vec::with_capacity(alloc, found.len())?;
    for next in found {
        longer.push(packed(alloc, part, starts, aim, *next, run, none.clone()?)?)?;
    }
    Ok(longer)
}

// What is kept of the prefix with the rank, as bytes where it stands somewhere.
fn packed(
    alloc: Global,
    part: &Part,
    starts: &[u32],
    aim: Aim,
    next: Counted,
    run: &Run,
    none: Arc<Run>,
) -> Result<Snapshots, NoMemory>
    requires is { IsPart part.now }
    requires starts { HasStarts part.now starts.now }
    requires within { IsWithin run.now.stands next }
    requires kept { (least : ℕ) × (ranks : List ℕ)
        × IsKeptOf part.now least ranks next (kept_of aim run.now.stands next) }
    ensures { IfOk result (λ kept. (least : ℕ) (ranks : List ℕ)
        → IsKeptOf part.now least ranks next (kept_of aim run.now.stands next)
        → IsKeptOf part.now least ranks next kept) }
{
    let seen = sees(aim, next.rank);
    if next.first < next.last {
        let stands = run.piece(next.first, next.last);
        let bytes = pack(alloc, part.sequences(), starts, stands, seen)?;
        Ok(Snapshots::packed(seen, next.support, bytes))
    } else {
        Ok(Snapshots::new(seen, next.support, none, 0, 0))
    }
}

/// The stands of the snapshots of these bytes.
pub(crate) fn unpacked(alloc: Global, part: &Part, bytes: &[u8]) -> Result<Vec<Stand>, NoMemory>
    requires { (ranks : List ℕ) × (list : SnapshotList) × AreSnapshots part.now ranks list
        × IsPacked (map (plain list.seen) list.snapshots) bytes.now }
    ensures { IfOk result (λ stands. (ranks : List ℕ) (list : SnapshotList) → AreSnapshots part.now ranks list
        → IsPacked (map (plain list.seen) list.snapshots) bytes.now
        → AreStandsOf part.now list.snapshots stands.items) }
{
    let starts = part.starts();
    if starts.is_empty() {
        // Where bytes were made, the part had starts.
        let made = first_places(alloc, part.job(), part.sequences())?;
        unpacked_by(alloc, part, made.as_slice(), bytes)
    } else {
        unpacked_by(alloc, part, starts, bytes)
    }
}

// The same by the places of the first items.
fn unpacked_by(
    alloc: Global,
    part: &Part,
    starts: &[u32],
    bytes: &[u8],
) -> Result<Vec<Stand>, NoMemory>
    requires is { IsPart part.now }
    requires starts { HasStarts part.now starts.now }
    requires packed { (ranks : List ℕ) × (list : SnapshotList) × AreSnapshots part.now ranks list
        × IsPacked (map (plain list.seen) list.snapshots) bytes.now }
    ensures { IfOk result (λ stands. (ranks : List ℕ) (list : SnapshotList) → AreSnapshots part.now ranks list
        → IsPacked (map (plain list.seen) list.snapshots) bytes.now
        → AreStandsOf part.now list.snapshots stands.items) }
{
    unpack(alloc, part.sequences(), starts, bytes)
}
