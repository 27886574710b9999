//! Bytes as stands.

ghost use Rattle.std.specs.Prelude.{◌<◌, ◌⊎◌, ◌↔◌, IsTrue, List, All, IfOk, None};
ghost use Rattle.std.specs.List.{AllZip};
ghost use Rattle.packed_snapshots.specs.declared.snapshot.PlainSnapshot.{PlainSnapshot as Plain};
ghost use Rattle.packed_snapshots.specs.Packed.{IsPacked};
ghost use Rattle.waiting_stands.specs.Layouts.{IsLayout, HasStand, IsStandOf, AreMarked};

use crate::searching::last_in_rising;
use mine_model::NoMemory;
use packed_snapshots::PackedSnapshots;
use place_walk::Stand;
use std::alloc::Global;

/// The stands of the snapshots whose bytes these are, in sequences with these numbers and starts.
pub fn unpack(
    alloc: Global,
    sequences: &[u32],
    starts: &[u32],
    bytes: &[u8],
) -> Result<Vec<Stand>, NoMemory>
    requires layout { IsLayout sequences.now starts.now }
    requires packed { (list : List Plain) × IsPacked list bytes.now
        × All (HasStand sequences.now starts.now) list }
    ensures stands { (list : List Plain) → IsPacked list bytes.now
        → IfOk result (λ stands. AllZip (IsStandOf sequences.now starts.now) list stands.items) }
    ensures marks { (list : List Plain) → IsPacked list bytes.now
        → IfOk result (λ stands. AreMarked None list stands.items) }
{
    let mut stands = Vec::with_capacity(alloc, bytes.len() / 3)?;
    let mut grid = 0;
    let mut first = true;
    for next in PackedSnapshots::new(bytes) {
        let at = last_in_rising(sequences, grid, next.sequence);
        stands.push(Stand {
            place: starts[at] + next.position as u32,
            state: next.state,
            first: begins(first, grid, at),
        })?;
        grid = at;
        first = false;
    }
    Ok(stands)
}

/// Whether the stands of a sequence begin at this grid, behind those of the other, or first of all.
#[inline]
fn begins(first: bool, grid: usize, at: usize) -> bool
    ensures { IsTrue result ↔ (IsTrue first ⊎ (grid < at)) }
{
    first || grid < at
}
